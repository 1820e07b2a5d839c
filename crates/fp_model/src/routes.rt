//! What is wrong with a leg at its place in a route.
ghost use Rattle.std.specs.Prelude.{ℕ, ◌≡◌, ◌+◌, ◌<◌, ◌≤◌, ◌^◌, ◌↔◌, IsTrue, length};
ghost use Rattle.fp_model.specs.Faults.{ArrivesLate, BreaksOff, LeavesEarly, Returns, place_before as place_before_of};
ghost use Rattle.fp_model.specs.Numbered.{leg_at};
ghost use Rattle.fp_model.specs.Problem.{IsValid};

use crate::instances::Instance;
use crate::parts::{Leg, Shipment};

// Where a shipment is before it leaves by the leg at a place.
fn place_before(instance: &Instance, origin: u32, route: &[Leg], place: usize) -> u32
    requires place { place ≤ length route.now }
    requires earlier { (i : ℕ) → i < place → (leg_at route.now i).arc < length instance.now.arcs }
    ensures { result ≡ place_before_of instance.now origin route.now place }
{
    if place == 0 {
        return origin;
    }
    instance.arc(route[place - 1].arc).to
}

// Whether the leg at a place breaks the route off.
pub(crate) fn breaks_off(
    instance: &Instance,
    shipment: &Shipment,
    route: &[Leg],
    place: usize,
) -> bool
    requires place { place < length route.now }
    requires earlier { (i : ℕ) → i < place → (leg_at route.now i).arc < length instance.now.arcs }
    ensures breaks_off { IsTrue result ↔ BreaksOff instance.now shipment.now route.now place }
    ensures valid { IsValid instance.now }
{
    let leg = &route[place];
    if leg.arc as usize >= instance.arcs().len() {
        return true;
    }
    let arc = instance.arc(leg.arc);
    let here = place_before(instance, shipment.from, route, place);
    arc.from != here || (place + 1 == route.len() && arc.to != shipment.to)
}

// Whether the leg at a place enters a terminal where its shipment has been.
pub(crate) fn returns(instance: &Instance, shipment: &Shipment, route: &[Leg], place: usize) -> bool
    requires place { place < length route.now }
    requires arcs { (i : ℕ) → i ≤ place → (leg_at route.now i).arc < length instance.now.arcs }
    ensures { IsTrue result ↔ Returns instance.now shipment.now route.now place }
{
    let to = instance.arc(route[place].arc).to;
    for earlier in 0..place + 1 {
        if place_before(instance, shipment.from, route, earlier) == to {
            return true;
        }
    }
    false
}

// Whether the leg at a place is the first and leaves before the release.
pub(crate) fn leaves_before_release(shipment: &Shipment, route: &[Leg], place: usize) -> bool
    requires { place < length route.now }
    ensures { IsTrue result ↔ ((place ≡ 0) × ((leg_at route.now place).depart < shipment.now.release)) }
{
    place == 0 && route[place].depart < shipment.release
}

// Whether the leg at a place leaves before its shipment can.
pub(crate) fn leaves_early(instance: &Instance, route: &[Leg], place: usize) -> bool
    requires place { place < length route.now }
    requires arcs { (i : ℕ) → i ≤ place → (leg_at route.now i).arc < length instance.now.arcs }
    ensures { IsTrue result ↔ LeavesEarly instance.now route.now place }
{
    if place == 0 {
        return false;
    }
    let last = &route[place - 1];
    u64::from(route[place].depart) < u64::from(last.depart) + u64::from(instance.step(last.arc))
}

// Whether the leg at a place is the last and arrives after the due time.
pub(crate) fn arrives_late(
    instance: &Instance,
    shipment: &Shipment,
    route: &[Leg],
    place: usize,
) -> bool
    requires place { place < length route.now }
    requires arcs { (i : ℕ) → i ≤ place → (leg_at route.now i).arc < length instance.now.arcs }
    ensures { IsTrue result ↔ ArrivesLate instance.now shipment.now route.now place }
{
    let leg = &route[place];
    let time = instance.arc(leg.arc).time;
    place + 1 == route.len() && u64::from(shipment.due) < u64::from(leg.depart) + u64::from(time)
}
