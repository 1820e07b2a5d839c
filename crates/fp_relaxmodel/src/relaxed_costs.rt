//! What a relaxed plan costs.
ghost use Rattle.std.specs.Prelude.{ℕ, List, ◌≡◌, ◌+◌, ◌<◌, ◌≤◌, ◌^◌, length, All};
ghost use Rattle.fp_model.specs.Costs.{all_legs, cost, cost_with, departure_cost};
ghost use Rattle.fp_model.specs.Costs.{departures_cost, has_leg, load};
ghost use Rattle.fp_model.specs.Routes.{ArcsExist};
ghost use Rattle.fp_relaxmodel.specs.Relaxed.{HasRoutes};
ghost use Rattle.fp_longestarcs.specs.Stops.{leg_of, legs_of};

use crate::relaxed_plans::RelaxedPlan;
use fp_longestarcs::{Stop, TimedWalk};
use fp_model::limits::MOST_SHIPMENTS;
use fp_model::{Instance, Shipment};

// Whether a class is among others.
fn goes_by(stops: &[Stop], stop: Stop) -> bool
    ensures { result ≡ has_leg (leg_of stop) (legs_of stops.now) }
{
    for other in stops {
        if stop == *other {
            return true;
        }
    }
    false
}

// Whether one of the walks goes by the class.
fn any_goes_by(walks: &[TimedWalk], stop: Stop) -> bool
    ensures { result ≡ has_leg (leg_of stop) (all_legs walks.now) }
{
    for walk in walks {
        if goes_by(&walk.stops, stop) {
            return true;
        }
    }
    false
}

// The sizes of the shipments whose walks go by the class.
fn load_on(shipments: &[Shipment], walks: &[TimedWalk], stop: Stop) -> u128
    requires walks { length walks.now ≡ length shipments.now }
    requires few { length shipments.now ≤ MOST_SHIPMENTS }
    ensures { result ≡ load shipments.now walks.now (leg_of stop) }
{
    let mut total: u128 = 0;
    for (at, shipment) in shipments.iter().enumerate() {
        let walk = &walks[at];
        if goes_by(&walk.stops, stop) {
            total += u128::from(shipment.size);
        }
    }
    total
}

// What the trucks of a class cost.
fn class_cost(instance: &Instance, walks: &[TimedWalk], stop: Stop) -> u128
    requires walks { length walks.now ≡ length instance.now.shipments }
    requires arc { stop.arc < length instance.now.arcs }
    requires fits { departure_cost instance.now walks.now (leg_of stop) < 2 ^ 128 }
    ensures { result ≡ departure_cost instance.now walks.now (leg_of stop) }
{
    let arc = instance.arc(stop.arc);
    let load = load_on(instance.shipments(), walks, stop);
    u128::from(arc.truck) * load.div_ceil(u128::from(arc.capacity))
}

// What a walk adds to the cost: the trucks of those of its classes that no later walk goes by, and
// its flow.
fn walk_cost(
    instance: &Instance,
    walks: &[TimedWalk],
    size: u64,
    stops: &[Stop],
    later: &[TimedWalk],
) -> u128
    requires walks { length walks.now ≡ length instance.now.shipments }
    requires arcs { ArcsExist instance.now (legs_of stops.now) }
    requires fits { cost_with instance.now walks.now size (legs_of stops.now)
        (all_legs later.now) < 2 ^ 128 }
    ensures { result + departures_cost instance.now walks.now (all_legs later.now)
        ≡ cost_with instance.now walks.now size (legs_of stops.now) (all_legs later.now) }
{
    let mut total: u128 = 0;
    for (place, stop) in stops.iter().enumerate() {
        if !goes_by(&stops[place + 1..], *stop) && !any_goes_by(later, *stop) {
            total += class_cost(instance, walks, *stop);
        }
        let arc = instance.arc(stop.arc);
        total += u128::from(arc.freight) * u128::from(size);
    }
    total
}

// What walks cost.
fn walks_cost(instance: &Instance, walks: &[TimedWalk]) -> u128
    requires long { length walks.now ≡ length instance.now.shipments }
    requires arcs { All (ArcsExist instance.now) walks.now }
    requires fits { cost instance.now walks.now < 2 ^ 128 }
    ensures { result ≡ cost instance.now walks.now }
{
    let mut total: u128 = 0;
    for (at, shipment) in instance.shipments().iter().enumerate() {
        let walk = &walks[at];
        total += walk_cost(
            instance,
            walks,
            shipment.size,
            &walk.stops,
            &walks[at + 1..],
        );
    }
    total
}

/// What a relaxed plan costs: its trucks, counted once for each distinct class, and its flow.
///
/// Each shipment has a walk whose arcs are a route of it. So the cost is below `2^127`. Takes no
/// memory, so it looks at each pair of classes.
pub fn relaxed_cost(instance: &Instance, relaxed: &RelaxedPlan) -> u128
    requires { HasRoutes instance.now relaxed.now }
    ensures { result ≡ cost instance.now relaxed.now }
{
    // An instance that was read is known to be valid, so its sums fit.
    let _known = instance.arcs();
    walks_cost(instance, relaxed.walks.as_slice())
}
