//! What the last shipment adds between two plans in hand.
ghost use Rattle.std.specs.Prelude.{ℕ, ◌≡◌, ◌-◌, ◌≤◌, length, IfOk};
ghost use Rattle.fp_model.specs.Costs.{cost as cost_of};
ghost use Rattle.fp_model.specs.Plans.{IsPlan, NoPlanCheaper};
ghost use Rattle.fp_replan.specs.Quotes.{without_last as without_last_of};
ghost use Rattle.fp_replan_quotes.specs.NamedQuotes.{IsAdded, front as front_of};

use crate::NoMemory;
use fp_model::{Instance, Plan};
use fp_replan::without_last;
use fp_timetable::cost;
use std::alloc::Global;

// A plan without the route of the last shipment.
fn front(alloc: Global, instance: &Instance, plan: &Plan) -> Result<Plan, NoMemory>
    requires { IsPlan instance.now 1 plan.now }
    ensures routes { IfOk result (λ front. front ≡ front_of instance.now plan.now) }
    ensures plan { IfOk result (IsPlan (without_last_of instance.now) 1) }
{
    let mut front = plan.copy(alloc)?;
    front.routes.pop();
    Ok(front)
}

/// What the last shipment of an instance adds between two plans in hand, one without it and one with it:
/// so much more the second costs than the cheaper of the first and of the second without the shipment's
/// route.
///
/// It lies between what the shipment adds at least and at most by any figures under which no plan costs,
/// without it and with it. `NoMemory` only where no memory is found.
pub fn added(
    alloc: Global,
    instance: &Instance,
    before: &Plan,
    after: &Plan,
) -> Result<u128, NoMemory>
    requires some { 1 ≤ length instance.now.shipments }
    requires before { IsPlan (without_last_of instance.now) 1 before.now }
    requires after { IsPlan instance.now 1 after.now }
    ensures added { IfOk result (IsAdded instance.now before.now after.now) }
    ensures least { IfOk result (λ more. (low : ℕ) → NoPlanCheaper instance.now low → low - cost_of (without_last_of instance.now) before.now ≤ more) }
    ensures most { IfOk result (λ more. (low : ℕ) → NoPlanCheaper (without_last_of instance.now) low → more ≤ cost_of instance.now after.now - low) }
{
    let earlier = without_last(alloc, instance)?;
    let first = cost(alloc, &earlier, before)?;
    let second = cost(alloc, &earlier, &front(alloc, instance, after)?)?;
    let with_it = cost(alloc, instance, after)?;
    Ok(with_it - first.min(second))
}
