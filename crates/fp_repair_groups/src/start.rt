//! The solution that a plan is: legs that leave at one time by one arc are a group.

use crate::NoMemory;
use crate::groups::GroupedLeg;
use crate::solutions::{PathLeg, Solution};
use crate::usable_arcs::UsableArcs;
use fp_model::{Instance, Leg, Plan};
use std::alloc::Global;
use std::collections::BTreeMap;

/// The solution of a plan, where `usable` has for each shipment the arcs that it can use: the plan's
/// routes, with the legs that leave at one time by one arc in a group. A leg by another arc is left
/// out. The groups have the times of their windows until [`Solution::set_times`].
///
/// `NoMemory` only where no memory is found.
pub fn solution_of(
    alloc: Global,
    instance: &Instance,
    usable: &[UsableArcs],
    plan: &Plan,
) -> Result<Solution, NoMemory> {
    let mut solution = Solution::empty(alloc, plan.routes.len())?;
    let mut groups = BTreeMap::new(alloc);
    for (shipment, route) in plan.routes.iter().enumerate() {
        if let Some(own) = usable.get(shipment) {
            add_route(&mut solution, &mut groups, instance, own, shipment, route)?;
        }
    }
    Ok(solution)
}

// Adds the route of a shipment.
fn add_route(
    solution: &mut Solution,
    groups: &mut BTreeMap<(u32, u32), usize>,
    instance: &Instance,
    usable: &UsableArcs,
    shipment: usize,
    route: &[Leg],
) -> Result<(), NoMemory> {
    for leg in route {
        if let Some(arc) = usable.with_number(leg.arc) {
            let joined = groups.get(&(leg.arc, leg.depart)).copied();
            let leg_room = PathLeg {
                usable: 0,
                group: joined,
            };
            solution.make_room(shipment, &[leg_room])?;
            let group = match joined {
                Some(group) => group,
                None => {
                    let group = solution.open_group(leg.arc);
                    groups.insert((leg.arc, leg.depart), group)?;
                    group
                }
            };
            let taken = GroupedLeg {
                arc: leg.arc,
                group,
                lo: arc.lo,
                hi: arc.hi,
                step: arc.step,
            };
            solution.add(instance, shipment, taken);
        }
    }
    Ok(())
}
