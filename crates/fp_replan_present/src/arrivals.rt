//! When settled legs arrive, and when their shipment can go on.
ghost use Rattle.std.specs.Prelude.{ℕ, ◌≡◌, ◌+◌, ◌<◌, ◌≤◌, ◌^◌, length, All, MatchOption, IfSome};
ghost use Rattle.fp_model.specs.Problem.{Problem};
ghost use Rattle.fp_replan_present.specs.Days.{AreInOrder, arrival as arrival_of, from_now as from_now_of, last_arrival as last_arrival_of, next_ready as next_ready_of, settled_ready as settled_ready_of};
ghost use Rattle.fp_replan_present.specs.Arrivals.{AllExist};

use crate::presents::Tracked;
use fp_model::Instance;

// When a settled leg arrives: as it is told, or after the time of its arc.
fn arrival(instance: &Instance, leg: Tracked) -> u64
    requires { leg.kept.arc < length instance.now.arcs }
    ensures same { result ≡ arrival_of instance.now leg }
    ensures small { result ≤ 2 ^ 33 }
{
    match leg.arrive {
        Some(time) => u64::from(time),
        None => u64::from(leg.kept.depart) + u64::from(instance.arc(leg.kept.arc).time),
    }
}

// When a shipment can go on that arrived by a settled leg.
fn next_ready(instance: &Instance, leg: Tracked) -> u64
    requires { leg.kept.arc < length instance.now.arcs }
    ensures same { result ≡ next_ready_of instance.now leg }
    ensures small { result ≤ 2 ^ 34 }
{
    let terminal = instance.arc(leg.kept.arc).to;
    arrival(instance, leg) + u64::from(instance.hold(terminal))
}

// When a shipment can go on after settled legs, or `None` where one of them leaves before it can.
pub(crate) fn settled_ready(instance: &Instance, release: u32, legs: &[Tracked]) -> Option<u64>
    requires { AllExist instance.now legs.now }
    ensures ready { MatchOption result (AreInOrder instance.now release legs.now → ⊥)
        (λ ready. AreInOrder instance.now release legs.now × (ready ≡ settled_ready_of instance.now release legs.now)) }
    ensures small { IfSome result (λ ready. ready ≤ 2 ^ 34) }
{
    let mut ready = u64::from(release);
    for leg in legs {
        if u64::from(leg.kept.depart) < ready {
            return None;
        }
        ready = next_ready(instance, *leg);
    }
    Some(ready)
}

// When the last of settled legs arrives, or 0 where there is none.
pub(crate) fn last_arrival(instance: &Instance, legs: &[Tracked]) -> u64
    requires { AllExist instance.now legs.now }
    ensures { result ≡ last_arrival_of instance.now 0 legs.now }
{
    let mut last = 0;
    for leg in legs {
        last = arrival(instance, *leg);
    }
    last
}

// A time, or the present where that is told and later.
pub(crate) fn from_now(now: Option<u32>, ready: u64) -> u64
    ensures { result ≡ from_now_of now ready }
{
    match now {
        Some(time) => ready.max(u64::from(time)),
        None => ready,
    }
}
