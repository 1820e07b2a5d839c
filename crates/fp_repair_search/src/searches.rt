//! The call: a local search from a plan, and the test of what it found.

ghost use Rattle.std.specs.Prelude.{◌≤◌, IfOk};
ghost use Rattle.fp_model.specs.Costs.{cost as cost_of};
ghost use Rattle.fp_model.specs.Plans.{IsPlan};
ghost use Rattle.fp_flatnet.specs.Belonging.{BelongsTo};
ghost use Rattle.fp_flatnet.specs.Tables.{windows_in};
ghost use Rattle.fp_flatnet.specs.Windows.{PlanLiesWithin};

use crate::NoMemory;
use crate::acceptance::is_no_dearer;
use crate::earnings::Earnings;
use crate::turns::Turns;
use fp_ends::{Deadline, Resources};
use fp_flatnet::Windows;
use fp_model::{Instance, Plan};
use fp_repair_groups::{UsableArcs, all_usable_arcs, solution_of};

/// How a local search goes: the seed of its draws, how many turns it makes, and how much dearer
/// than the best state met its state may be in the first turn, in parts of 1024 of the cost. The
/// allowance falls evenly, to none after the last turn. Any numbers may stand here.
#[derive(Clone, Copy)]
pub struct Search {
    pub seed: u64,
    pub turns: u32,
    pub loose: u32,
}

/// A plan within the windows that costs no more than the one handed in: the cheapest that a local
/// search meets, or the same plan.
///
/// In each turn some shipments are taken out and put back one after the other, each on the path
/// that adds least to the cost, alone or together with others. The draws are a function of the
/// arguments, so a call repeats. `NoMemory` only where no memory is found.
pub fn local_search<D: Deadline>(
    resources: &Resources<D>,
    instance: &Instance,
    windows: &Windows,
    start: &Plan,
    search: Search,
) -> Result<Plan, NoMemory>
    requires belongs { BelongsTo instance.now windows.now }
    requires plan { IsPlan instance.now 1 start.now }
    requires within { PlanLiesWithin (windows_in windows.now) 1 start.now }
    ensures plan { IfOk result (λ r. IsPlan instance.now 1 r) }
    ensures within { IfOk result (λ r. PlanLiesWithin (windows_in windows.now) 1 r) }
    ensures cheaper { IfOk result (λ r. cost_of instance.now r ≤ cost_of instance.now start.now) }
{
    let (plan, _) = local_search_with_earnings(resources, instance, windows, start, search)?;
    Ok(plan)
}

/// The plan that [`local_search`] finds, and what each kind of removal earned on the way to it.
pub fn local_search_with_earnings<D: Deadline>(
    resources: &Resources<D>,
    instance: &Instance,
    windows: &Windows,
    start: &Plan,
    search: Search,
) -> Result<(Plan, Earnings), NoMemory>
    requires belongs { BelongsTo instance.now windows.now }
    requires plan { IsPlan instance.now 1 start.now }
    requires within { PlanLiesWithin (windows_in windows.now) 1 start.now }
    ensures plan { IfOk result (λ r. IsPlan instance.now 1 r.0) }
    ensures within { IfOk result (λ r. PlanLiesWithin (windows_in windows.now) 1 r.0) }
    ensures cheaper { IfOk result (λ r. cost_of instance.now r.0 ≤ cost_of instance.now start.now) }
{
    let usable = all_usable_arcs(resources.alloc, instance, windows)?;
    let (found, earnings) = found_plan(resources, instance, usable, start, search)?;
    if is_no_dearer(resources.alloc, instance, windows, &found, start)? {
        return Ok((found, earnings));
    }
    Ok((start.copy(resources.alloc)?, earnings))
}

// So many turns are made between two looks at the clock. Before each the cheapest plan met is kept, and
// no other is: so a call that is cut off later finds no dearer one.
const TURNS_AT_ONCE: u32 = 64;

// What the search finds over the arcs that each shipment may use, and what earned it. It need not be a
// plan.
fn found_plan<D: Deadline>(
    resources: &Resources<D>,
    instance: &Instance,
    usable: Vec<UsableArcs>,
    start: &Plan,
    search: Search,
) -> Result<(Plan, Earnings), NoMemory> {
    let alloc = resources.alloc;
    let solution = solution_of(alloc, instance, &usable, start)?;
    let mut turns = Turns::new(alloc, instance, usable, solution, search.seed)?;
    for turn in 0..search.turns {
        if turn % TURNS_AT_ONCE == 0 {
            turns.keep_plan(alloc, instance)?;
            if resources.is_over() {
                break;
            }
        }
        turns.turn(instance, allowance(search, turn))?;
    }
    turns.keep_plan(alloc, instance)?;
    let Turns { plan, earnings, .. } = turns;
    Ok((plan, earnings))
}

// How much dearer than the best state met the state may be in a turn, in parts of 1024 of the cost.
fn allowance(search: Search, turn: u32) -> u128 {
    let left = u128::from(search.turns.saturating_sub(turn));
    u128::from(search.loose)
        .saturating_mul(left)
        .checked_div(u128::from(search.turns))
        .unwrap_or(0)
}
