//! The plan that a state is, and what it costs.

use crate::NoMemory;
use fp_model::{Instance, Leg, Plan, test_plan};
use fp_repair_groups::{Group, GroupedLeg, Solution};
use fp_timetable::cost;
use std::alloc::Global;

// The plan in which each leg leaves at the least time of its group.
pub(crate) fn plan_of(alloc: Global, solution: &Solution) -> Result<Plan, NoMemory> {
    let mut routes = Vec::with_capacity(alloc, solution.routes.len())?;
    for route in &solution.routes {
        routes.push(timed_route(alloc, route, &solution.groups)?)?;
    }
    Ok(Plan { routes })
}

// The legs of a route at the least times of their groups.
fn timed_route(
    alloc: Global,
    route: &[GroupedLeg],
    groups: &[Group],
) -> Result<Vec<Leg>, NoMemory> {
    let mut legs = Vec::with_capacity(alloc, route.len())?;
    for leg in route {
        let depart = groups.get(leg.group).map_or(0, |group| group.early);
        legs.push(Leg {
            arc: leg.arc,
            depart,
        })?;
    }
    Ok(legs)
}

// What legs cost, if they are a plan. Groups that leave at one time cost less than apart.
pub(crate) fn plan_cost(
    alloc: Global,
    instance: &Instance,
    legs: &Plan,
) -> Result<Option<u128>, NoMemory> {
    if test_plan(instance, legs).is_err() {
        return Ok(None);
    }
    let known = cost(alloc, instance, legs)?;
    Ok(Some(known))
}
