//! Whether a list of classes, whatever it holds, is an allowed timed walk of a shipment at a cost.
ghost use Rattle.std.specs.Prelude.{ℕ, ◌≡◌, ◌<◌, ◌≤◌, ◌↔◌, All, Bool, IsTrue, length};
ghost use Rattle.fp_model.specs.declared.parts.Leg.{Leg};
ghost use Rattle.fp_model.specs.Numbered.{shipment_at};
ghost use Rattle.fp_longestarcs.specs.Networks.{IsClass, class_count, points_in};
ghost use Rattle.fp_longestarcs.specs.Stops.{leg_of, legs_of};
ghost use Rattle.fp_longestarcs.specs.Whole.{IsWholeNetwork};
ghost use Rattle.fp_allowed.specs.Walks.{IsTimedWalk};
ghost use Rattle.fp_prices.specs.ClassCosts.{AllowsClasses, HoldsClassCosts};
ghost use Rattle.fp_prices.specs.Leaves.{walk_cost};
ghost use Rattle.fp_prices.specs.TimedWalks.{after_class, open_cost};

use fp_longestarcs::{Network, Stop};
use fp_model::Instance;

/// How far a shipment has come on a walk of classes: the terminal where it stands, the time from
/// which on it's ready there, and what is left of the cost that the walk is to have.
#[derive(Clone, Copy)]
pub(crate) struct Progress {
    pub(crate) terminal: u32,
    pub(crate) ready: u32,
    pub(crate) rest: u128,
}

// What a class costs, where it is one of the network and is allowed.
fn open_cost(
    instance: &Instance,
    network: &Network,
    costs: &[Option<u128>],
    class: Stop,
) -> Option<u128>
    requires whole { IsWholeNetwork instance.now network.now }
    requires long { class_count network.now ≤ length costs.now }
    ensures { result ≡ open_cost network.now costs.now (leg_of class) }
{
    if class.arc as usize >= instance.arcs().len() {
        return None;
    }
    let tail = instance.arc(class.arc).from;
    if !network.is_point(tail, class.point) {
        return None;
    }
    costs[network.class(class.arc, class.point) as usize]
}

// How far a shipment has come after one more class. `None` where the class isn't allowed, leaves
// elsewhere or too early, or costs more than is left.
fn after_class(
    instance: &Instance,
    network: &Network,
    costs: &[Option<u128>],
    progress: Progress,
    class: Stop,
) -> Option<Progress>
    requires whole { IsWholeNetwork instance.now network.now }
    requires long { class_count network.now ≤ length costs.now }
    ensures { result ≡ after_class instance.now network.now costs.now progress (leg_of class) }
{
    let cost = open_cost(instance, network, costs, class)?;
    let arc = instance.arc(class.arc);
    if arc.from != progress.terminal || class.point < progress.ready || progress.rest < cost {
        return None;
    }
    Some(Progress {
        terminal: arc.to,
        ready: network.head(class.arc, class.point),
        rest: progress.rest - cost,
    })
}

/// Whether the classes are an allowed timed walk of the shipment at exactly this cost. The costs
/// are those of the classes, by their numbers, `None` where a class isn't allowed. Takes no memory.
pub(crate) fn is_timed_walk(
    instance: &Instance,
    network: &Network,
    costs: &[Option<u128>],
    shipment: u32,
    walk: &[Stop],
    cost: u128,
) -> bool
    requires whole { IsWholeNetwork instance.now network.now }
    requires shipment { shipment < length instance.now.shipments }
    requires long { class_count network.now ≤ length costs.now }
    ensures exact { (allowed : Leg → Bool) (price : Leg → ℕ) → AllowsClasses network.now allowed →
        HoldsClassCosts instance.now network.now allowed price (shipment_at instance.now shipment).size costs.now →
        IsTrue result ↔ (IsTimedWalk instance.now (points_in network.now) allowed (shipment_at instance.now shipment) (legs_of walk.now)
        × (walk_cost instance.now price (shipment_at instance.now shipment).size (legs_of walk.now) ≡ cost)) }
    ensures classes { IsTrue result → All (IsClass network.now) (legs_of walk.now) }
{
    let ends = instance.shipment(shipment);
    let mut progress = Progress {
        terminal: ends.from,
        ready: 0,
        rest: cost,
    };
    for class in walk {
        match after_class(instance, network, costs, progress, *class) {
            Some(next) => progress = next,
            None => return false,
        }
    }
    progress.terminal == ends.to && progress.rest == 0
}
