//! The plan with which the search begins that has the last shipment too.
ghost use Rattle.std.specs.Prelude.{◌≡◌, ◌≤◌, length, IfOk};
ghost use Rattle.fp_model.specs.Costs.{cost as cost_of};
ghost use Rattle.fp_model.specs.Plans.{IsPlan};
ghost use Rattle.fp_replan.specs.Quotes.{without_last};
ghost use Rattle.fp_replan_quotes.specs.Starts.{put_in as put_in_of, start_of};

use crate::NoMemory;
use fp_model::{Instance, Leg, Plan};
use fp_timetable::cost;
use std::alloc::Global;

// Equal legs.
fn copy_legs(alloc: Global, legs: &[Leg]) -> Result<Vec<Leg>, NoMemory>
    ensures { IfOk result (λ copies. copies.items ≡ legs.now) }
{
    legs.to_vec(alloc)
}

// A plan without the last shipment, with the route of another plan put in for that shipment.
fn put_in(alloc: Global, instance: &Instance, before: Plan, direct: &Plan) -> Result<Plan, NoMemory>
    requires some { 1 ≤ length instance.now.shipments }
    requires before { IsPlan (without_last instance.now) 1 before }
    requires direct { IsPlan instance.now 1 direct.now }
    ensures routes { IfOk result (λ plan. plan ≡ put_in_of before direct.now) }
    ensures plan { IfOk result (IsPlan instance.now 1) }
{
    let last = instance.shipments().len() - 1;
    let mut routes = before.routes;
    routes.push(copy_legs(alloc, &direct.routes[last])?)?;
    Ok(Plan { routes })
}

/// The plan with which the search of an instance begins, by a plan without its last shipment: the cheaper
/// of that plan with the shipment put in, as the direct plan has it go, and the direct plan. Of two that
/// cost the same the first.
///
/// Trucks are counted anew: what goes with others needs fewer. `direct` may be any plan of the instance.
/// `NoMemory` only where no memory is found.
pub fn start_with(
    alloc: Global,
    instance: &Instance,
    before: Plan,
    direct: Plan,
) -> Result<Plan, NoMemory>
    requires some { 1 ≤ length instance.now.shipments }
    requires before { IsPlan (without_last instance.now) 1 before }
    requires direct { IsPlan instance.now 1 direct }
    ensures start { IfOk result (λ plan. plan ≡ start_of instance.now before direct) }
    ensures plan { IfOk result (IsPlan instance.now 1) }
    ensures no_dearer { IfOk result (λ plan. cost_of instance.now plan ≤ cost_of instance.now direct) }
{
    let with_it = put_in(alloc, instance, before, &direct)?;
    if cost(alloc, instance, &with_it)? <= cost(alloc, instance, &direct)? {
        Ok(with_it)
    } else {
        Ok(direct)
    }
}
