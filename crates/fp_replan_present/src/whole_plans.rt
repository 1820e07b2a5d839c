//! Whole plans of a day, of its settled legs and a plan of what is left.
ghost use Rattle.std.specs.Prelude.{ℕ, ◌≡◌, ◌≤◌, ◌<◌, ◌++◌, [], cond, length, AllPairs, IfOk};
ghost use Rattle.fp_base_lists.specs.Ascending.{place_in};
ghost use Rattle.fp_base_lists.specs.Membership.{list_has};
ghost use Rattle.fp_base_lists.specs.Vectors.{lists_of};
ghost use Rattle.fp_model.specs.declared.limits.TheConstants.{MOST_SHIPMENTS};
ghost use Rattle.fp_model.specs.Numbered.{route_at};
ghost use Rattle.fp_model.specs.Problem.{Problem};
ghost use Rattle.fp_replan_present.specs.Days.{Day};
ghost use Rattle.fp_replan_present.specs.Parts.{CanGoOn};
ghost use Rattle.fp_replan_present.specs.Rests.{IsRest, joined as joined_of};

use crate::NoMemory;
use crate::promised_legs::place_among;
use crate::rests::Rest;
use fp_model::limits::MOST_SHIPMENTS;
use fp_model::{Leg, Plan};
use fp_replan::is_among;
use std::alloc::Global;

// Equal legs.
fn copy_legs(alloc: Global, legs: &[Leg]) -> Result<Vec<Leg>, NoMemory>
    ensures { IfOk result (λ copies. copies.items ≡ legs.now) }
{
    legs.to_vec(alloc)
}

// The settled legs of the shipment with a number, and those that a plan of shipments with numbers has
// for it where it is one of them.
fn whole_route(
    alloc: Global,
    settled: &[Leg],
    numbers: &[u32],
    plan: &Plan,
    number: u32,
) -> Result<Vec<Leg>, NoMemory>
    requires few { length numbers.now ≤ MOST_SHIPMENTS }
    requires ascend { AllPairs (λ a b. a < b) numbers.now }
    requires plan { length plan.now ≡ length numbers.now }
    ensures { IfOk result (λ legs. legs.items ≡ settled.now ++ cond (list_has numbers.now number) (route_at plan.now (place_in numbers.now number)) []) }
{
    let mut legs = copy_legs(alloc, settled)?;
    if !is_among(numbers, number) {
        return Ok(legs);
    }
    let place = place_among(numbers, number);
    let onward = &plan.routes[place as usize];
    legs.extend_from_slice(onward)?;
    Ok(legs)
}

// So for each shipment of which there are settled legs.
fn whole_routes(
    alloc: Global,
    settled: &Plan,
    numbers: &[u32],
    plan: &Plan,
) -> Result<Vec<Vec<Leg>>, NoMemory>
    requires few_settled { length settled.now ≤ MOST_SHIPMENTS }
    requires few { length numbers.now ≤ MOST_SHIPMENTS }
    requires ascend { AllPairs (λ a b. a < b) numbers.now }
    requires plan { length plan.now ≡ length numbers.now }
    ensures long { IfOk result (λ routes. length (lists_of routes.items) ≡ length settled.now) }
    ensures each { IfOk result (λ routes. (k : ℕ) → k < length settled.now → route_at (lists_of routes.items) k
        ≡ route_at settled.now k ++ cond (list_has numbers.now k) (route_at plan.now (place_in numbers.now k)) []) }
{
    let mut routes = Vec::new(alloc);
    for (number, legs) in settled.routes.iter().enumerate() {
        routes.push(whole_route(alloc, legs, numbers, plan, number as u32)?)?;
    }
    Ok(routes)
}

/// The whole plan of a day for a plan of what is left, which is as [`left`](crate::left) answers it: the
/// settled legs of each shipment, and its legs there. `NoMemory` only where no memory is found.
pub fn joined(alloc: Global, rest: &Rest, plan: &Plan) -> Result<Plan, NoMemory>
    requires rest { CanGoOn rest.now }
    requires plan { length plan.now ≡ length rest.now.instance.shipments }
    ensures { IfOk result (λ whole. (p : Problem) (day : Day) → IsRest p day rest.now → whole ≡ joined_of p day 1 plan.now) }
{
    let routes = whole_routes(alloc, &rest.settled, &rest.numbers, plan)?;
    Ok(Plan { routes })
}
