//! What a plan costs, summed over its departures.
ghost use Rattle.std.specs.Prelude.{◌≡◌, ◌*◌, ◌<◌, ◌^◌, All, IfOk, length, sum_by};
ghost use Rattle.std.specs.declared.alloc.Global.{Global};
ghost use Rattle.std.specs.declared.vec.Vec.{Vec};
ghost use Rattle.fp_model.specs.Costs.{cost as cost_of, flow_cost, flow_total};
ghost use Rattle.fp_base_lists.specs.Vectors.{lists_of};
ghost use Rattle.fp_model.specs.Plans.{IsPlan};
ghost use Rattle.fp_model.specs.Routes.{ArcsExist};
ghost use Rattle.fp_timetable.specs.Lines.{AreTruckLines, TruckExists, line_cost};

use crate::NoMemory;
use crate::lines::TruckLine;
use crate::truck_lines::trucks;
use fp_model::{Instance, Leg, Plan};
use std::alloc::Global;

// What the trucks of departures cost.
fn trucks_cost(instance: &Instance, lines: &[TruckLine]) -> u128
    requires arcs { All (TruckExists instance.now) lines.now }
    requires fits { sum_by (line_cost instance.now) lines.now < 2 ^ 128 }
    ensures { result ≡ sum_by (line_cost instance.now) lines.now }
{
    let mut total: u128 = 0;
    for line in lines {
        total += u128::from(instance.arc(line.arc).truck) * line.trucks;
    }
    total
}

// What the flow of a shipment of a size costs over its legs.
fn route_flow(instance: &Instance, size: u64, route: &[Leg]) -> u128
    requires arcs { ArcsExist instance.now route.now }
    requires fits { flow_cost instance.now size route.now < 2 ^ 128 }
    ensures { result ≡ flow_cost instance.now size route.now }
{
    let mut total: u128 = 0;
    for leg in route {
        total += u128::from(instance.arc(leg.arc).freight) * u128::from(size);
    }
    total
}

// What the flow of all shipments costs.
fn routes_flow(instance: &Instance, routes: &[Vec<Leg>]) -> u128
    requires long { length routes.now ≡ length instance.now.shipments }
    requires arcs { All (λ (r : Vec Leg Global). ArcsExist instance.now r.items) routes.now }
    requires fits { flow_total instance.now instance.now.shipments (lists_of routes.now)
        < 2 ^ 128 }
    ensures { result ≡ flow_total instance.now instance.now.shipments (lists_of routes.now) }
{
    let mut total: u128 = 0;
    for (number, shipment) in instance.shipments().iter().enumerate() {
        total += route_flow(instance, shipment.size, &routes[number]);
    }
    total
}

/// What a plan costs whose truck lines have been made: the trucks of its departures, and its flow.
///
/// The lines are those that `trucks` makes of the plan. Takes no memory, and time that grows with
/// the lines and the legs.
pub fn plan_cost(instance: &Instance, plan: &Plan, lines: &[TruckLine]) -> u128
    requires plan { IsPlan instance.now 1 plan.now }
    requires lines { AreTruckLines instance.now plan.now lines.now }
    ensures { result ≡ cost_of instance.now plan.now }
{
    // An instance that was read is known to be valid, so the sums fit.
    let _known = instance.arcs();
    trucks_cost(instance, lines) + routes_flow(instance, plan.routes.as_slice())
}

/// What a plan costs, as `fp_model::cost` says it, in time that grows with the legs but for a sort
/// of them. `NoMemory` only where no memory is found.
pub fn cost(alloc: Global, instance: &Instance, plan: &Plan) -> Result<u128, NoMemory>
    requires { IsPlan instance.now 1 plan.now }
    ensures { IfOk result (λ cost. cost ≡ cost_of instance.now plan.now) }
{
    let lines = trucks(alloc, instance, plan)?;
    Ok(plan_cost(instance, plan, lines.as_slice()))
}
