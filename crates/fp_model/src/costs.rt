//! What a plan costs, and the loads and the trucks of its departures.
ghost use Rattle.std.specs.Prelude.{ℕ, ◌≡◌, ◌+◌, ◌<◌, ◌≤◌, ◌^◌, length, All};
ghost use Rattle.std.specs.declared.alloc.Global.{Global};
ghost use Rattle.std.specs.declared.vec.Vec.{Vec};
ghost use Rattle.fp_model.specs.Costs.{all_legs, cost as cost_of, cost_with, departure_cost, departures_cost, has_leg, load as load_of, trucks as trucks_of};
ghost use Rattle.fp_base_lists.specs.Vectors.{lists_of};
ghost use Rattle.fp_model.specs.Plans.{IsPlan};
ghost use Rattle.fp_model.specs.Routes.{ArcsExist};

use crate::instances::Instance;
use crate::limits::MOST_SHIPMENTS;
use crate::parts::{Leg, Shipment};
use crate::plans::Plan;

// Whether a route has the leg.
fn goes_by(route: &[Leg], leg: Leg) -> bool
    ensures { result ≡ has_leg leg route.now }
{
    route.iter().any(|other| leg == *other)
}

// Whether one of the routes has the leg.
fn any_goes_by(routes: &[Vec<Leg>], leg: Leg) -> bool
    ensures { result ≡ has_leg leg (all_legs (lists_of routes.now)) }
{
    for route in routes {
        if goes_by(route, leg) {
            return true;
        }
    }
    false
}

// The sizes of the shipments whose routes have the leg.
fn load_on(shipments: &[Shipment], routes: &[Vec<Leg>], leg: Leg) -> u128
    requires routes { length routes.now ≡ length shipments.now }
    requires few { length shipments.now ≤ MOST_SHIPMENTS }
    ensures { result ≡ load_of shipments.now (lists_of routes.now) leg }
{
    let mut total: u128 = 0;
    for (at, shipment) in shipments.iter().enumerate() {
        if goes_by(&routes[at], leg) {
            total += u128::from(shipment.size);
        }
    }
    total
}

// What the trucks of a departure cost.
fn departure_cost_on(instance: &Instance, routes: &[Vec<Leg>], leg: Leg) -> u128
    requires routes { length routes.now ≡ length instance.now.shipments }
    requires arc { leg.arc < length instance.now.arcs }
    requires fits { departure_cost instance.now (lists_of routes.now) leg < 2 ^ 128 }
    ensures { result ≡ departure_cost instance.now (lists_of routes.now) leg }
{
    let arc = instance.arc(leg.arc);
    let load = load_on(instance.shipments(), routes, leg);
    u128::from(arc.truck) * load.div_ceil(u128::from(arc.capacity))
}

// What a route adds to the cost: the trucks of those of its departures that no later route has, and
// its flow.
fn route_cost(
    instance: &Instance,
    routes: &[Vec<Leg>],
    size: u64,
    route: &[Leg],
    later: &[Vec<Leg>],
) -> u128
    requires routes { length routes.now ≡ length instance.now.shipments }
    requires arcs { ArcsExist instance.now route.now }
    requires fits { cost_with instance.now (lists_of routes.now) size route.now
        (all_legs (lists_of later.now)) < 2 ^ 128 }
    ensures { result + departures_cost instance.now (lists_of routes.now) (all_legs (lists_of later.now))
        ≡ cost_with instance.now (lists_of routes.now) size route.now (all_legs (lists_of later.now)) }
{
    let mut total: u128 = 0;
    for (place, leg) in route.iter().enumerate() {
        if !goes_by(&route[place + 1..], *leg) && !any_goes_by(later, *leg) {
            total += departure_cost_on(instance, routes, *leg);
        }
        let arc = instance.arc(leg.arc);
        total += u128::from(arc.freight) * u128::from(size);
    }
    total
}

/// What routes cost: their trucks, counted once for each distinct departure, and their flow.
pub fn routes_cost(instance: &Instance, routes: &[Vec<Leg>]) -> u128
    requires long { length routes.now ≡ length instance.now.shipments }
    requires arcs { All (λ (r : Vec Leg Global). ArcsExist instance.now r.items) routes.now }
    requires fits { cost_of instance.now (lists_of routes.now) < 2 ^ 128 }
    ensures { result ≡ cost_of instance.now (lists_of routes.now) }
{
    let mut total: u128 = 0;
    for (at, shipment) in instance.shipments().iter().enumerate() {
        total += route_cost(
            instance,
            routes,
            shipment.size,
            &routes[at],
            &routes[at + 1..],
        );
    }
    total
}

/// What a plan costs: its trucks, counted once for each distinct departure, and its flow.
///
/// The cost is below `2^127` at every plan. Takes no memory, so it looks at each pair of legs:
/// `fp_timetable::cost` takes some, and time that grows with the legs but for a sort.
pub fn cost(instance: &Instance, plan: &Plan) -> u128
    requires { IsPlan instance.now 1 plan.now }
    ensures { result ≡ cost_of instance.now plan.now }
{
    // An instance that was read is known to be valid, so its sums fit.
    let _known = instance.arcs();
    routes_cost(instance, plan.routes.as_slice())
}

/// The load of a departure: the sum of the sizes of the shipments that leave by the arc at that
/// time, 0 where none does.
///
/// Takes no memory.
pub fn load(instance: &Instance, plan: &Plan, arc: u32, depart: u32) -> u128
    requires { IsPlan instance.now 1 plan.now }
    ensures { result ≡ load_of instance.now.shipments plan.now (record { arc = arc; depart = depart }) }
{
    load_on(
        instance.shipments(),
        plan.routes.as_slice(),
        Leg { arc, depart },
    )
}

/// The trucks of a departure: as few as hold its load, 0 where no shipment leaves by the arc at
/// that time.
///
/// Takes no memory.
pub fn trucks(instance: &Instance, plan: &Plan, arc: u32, depart: u32) -> u128
    requires plan { IsPlan instance.now 1 plan.now }
    requires arc { arc < length instance.now.arcs }
    ensures { result ≡ trucks_of instance.now plan.now (record { arc = arc; depart = depart }) }
{
    let load = load(instance, plan, arc, depart);
    load.div_ceil(u128::from(instance.arc(arc).capacity))
}
