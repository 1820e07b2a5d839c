//! Where a shipment stands: stuck, delivered, or going on.
ghost use Rattle.std.specs.Prelude.{ℕ, ◌≡◌, ◌<◌, ◌≤◌, ◌≢◌, length, true, false, IfOk, MatchOption};
ghost use Rattle.fp_flatnet.specs.ArcGraphs.{backward_shape};
ghost use Rattle.fp_model.specs.Numbered.{shipment_at};
ghost use Rattle.fp_model.specs.Problem.{IsShipment};
ghost use Rattle.fp_replan_present.specs.Days.{AreTracked};
ghost use Rattle.fp_replan_present.specs.Plans.{HasLegsUnderway, place_of, ready_of};
ghost use Rattle.fp_replan_present.specs.Rests.{IsSettled, is_left, moved};
ghost use Rattle.fp_replan_present.specs.Standings.{IsGoing, IsOwn, IsStanding};

use crate::NoMemory;
use crate::arrivals::{from_now, last_arrival, settled_ready};
use crate::presents::Present;
use crate::tracked_legs::Own;
use fp_labels::Graph;
use fp_model::{Instance, Leg, Shipment};
use fp_replan::{begun_route, place_after, terminals_with};
use std::alloc::Global;

/// What is left of a shipment, the terminals where it was or is, and a route for what is left.
#[derive(Drop)]
pub struct Going {
    pub shipment: Shipment,
    pub gone: Vec<u32>,
    pub route: Vec<Leg>,
}

/// Where a shipment stands.
#[derive(Drop)]
pub enum Standing {
    /// No legs under way carry it.
    Stuck,
    /// Its settled legs are in order; it goes on, or is delivered in time.
    Settled { going: Option<Going> },
}

// What is left of a shipment that is at a terminal and can go on at a time.
fn moved_shipment(
    alloc: Global,
    shipment: &Shipment,
    from: u32,
    release: u32,
) -> Result<Shipment, NoMemory>
    ensures { IfOk result (λ s. s ≡ record shipment.now { from = from; release = release }) }
{
    Ok(Shipment {
        name: shipment.name.copy(alloc)?,
        from,
        to: shipment.to,
        size: shipment.size,
        release,
        due: shipment.due,
    })
}

// How a shipment goes on that is at a terminal, not its destination, and can go on at a time, or
// `None` where no legs under way carry it.
fn way_on(
    alloc: Global,
    instance: &Instance,
    graph: &Graph,
    present: &Present,
    number: u32,
    own: &Own,
    ready: u32,
) -> Result<Option<Going>, NoMemory>
    requires graph { graph.now ≡ backward_shape instance.now }
    requires tracked { AreTracked instance.now present.now }
    requires number { number < length instance.now.shipments }
    requires own { IsOwn present.now number own.now }
    requires left { is_left instance.now present.now number ≡ true }
    requires ready { ready ≡ ready_of instance.now present.now number }
    requires in_time { ready ≤ (shipment_at instance.now number).due }
    ensures { IfOk result (λ going. MatchOption going (HasLegsUnderway instance.now present.now number → ⊥) (IsGoing instance.now present.now number)) }
{
    // Brings the instance's validity into the proof: so what is left of the shipment is one.
    let _known = instance.arcs();
    let shipment = instance.shipment(number);
    let here = place_after(instance, shipment.from, &own.legs);
    let left = moved_shipment(alloc, shipment, here, ready)?;
    let gone = terminals_with(alloc, instance, &[], shipment.from, &own.legs)?;
    match begun_route(alloc, instance, graph, &left, &own.promised, &gone)? {
        Some(route) => Ok(Some(Going {
            shipment: left,
            gone,
            route,
        })),
        None => Ok(None),
    }
}

// Where the shipment with a number stands.
pub(crate) fn standing_of(
    alloc: Global,
    instance: &Instance,
    graph: &Graph,
    present: &Present,
    number: u32,
    own: &Own,
) -> Result<Standing, NoMemory>
    requires graph { graph.now ≡ backward_shape instance.now }
    requires tracked { AreTracked instance.now present.now }
    requires number { number < length instance.now.shipments }
    requires own { IsOwn present.now number own.now }
    ensures { IfOk result (IsStanding instance.now present.now number) }
{
    let shipment = instance.shipment(number);
    let Some(settled) = settled_ready(instance, shipment.release, &own.settled) else {
        return Ok(Standing::Stuck);
    };
    if place_after(instance, shipment.from, &own.legs) == shipment.to {
        if last_arrival(instance, &own.settled) <= u64::from(shipment.due) {
            return Ok(Standing::Settled { going: None });
        }
        return Ok(Standing::Stuck);
    }
    let ready = from_now(present.time, settled);
    if ready > u64::from(shipment.due) {
        return Ok(Standing::Stuck);
    }
    match way_on(alloc, instance, graph, present, number, own, ready as u32)? {
        Some(going) => Ok(Standing::Settled { going: Some(going) }),
        None => Ok(Standing::Stuck),
    }
}
