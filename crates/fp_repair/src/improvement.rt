//! Cheaper plans than those of the routes, by local search.
ghost use Rattle.std.specs.Prelude.{◌≤◌, IfOk, IfSome};
ghost use Rattle.fp_flatnet.specs.Belonging.{BelongsTo};
ghost use Rattle.fp_flatnet.specs.Tables.{windows_in};
ghost use Rattle.fp_repair.specs.Candidates.{IsCandidate, IsPlanWithin};

use crate::NoMemory;
use crate::candidates::{Candidate, Starts, cheaper};
use fp_ends::{Deadline, Resources};
use fp_flatnet::Windows;
use fp_model::{Instance, Plan};
use fp_repair_search::{Search, local_search};

// The search begins once the plan in hand is at most this part of the relaxed cost above it. Before
// that more points of time raise the relaxed cost at little expense, and a cheap plan that comes
// too early ends that, since points are added only while the relaxed plan costs less.
const NEARNESS: u128 = 32;

// At most so many shipments are few.
const FEW: usize = 100;

// The searches from a plan: how many turns each makes, and how much dearer than the best the state of
// each may get, in parts of 1024. A plan that is near needs a small allowance, and one behind a
// dearer one a larger.
#[derive(Clone, Copy)]
struct Searches {
    turns: u32,
    looseness: [u32; 2],
}

// Among few shipments one that moves weighs more, and a turn costs little.
const AMONG_FEW: Searches = Searches {
    turns: 4_000,
    looseness: [30, 60],
};

const AMONG_MANY: Searches = Searches {
    turns: 2_000,
    looseness: [10, 20],
};

// The searches from a plan of an instance.
fn searches_for(instance: &Instance) -> Searches {
    if instance.shipments().len() <= FEW {
        AMONG_FEW
    } else {
        AMONG_MANY
    }
}

// The cheapest of a candidate and what searches from a plan find.
fn cheapest_found<D: Deadline>(
    resources: &Resources<D>,
    instance: &Instance,
    windows: &Windows,
    in_hand: Candidate,
    start: &Plan,
    seed: u64,
) -> Result<Candidate, NoMemory>
    requires belongs { BelongsTo instance.now windows.now }
    requires in_hand { IsCandidate instance.now (windows_in windows.now) in_hand }
    requires start { IsPlanWithin instance.now (windows_in windows.now) start.now }
    ensures candidate { IfOk result (IsCandidate instance.now (windows_in windows.now)) }
    ensures cheaper { IfOk result (λ c. c.cost ≤ in_hand.cost) }
{
    let mut best = in_hand;
    let Searches { turns, looseness } = searches_for(instance);
    for (number, loose) in looseness.iter().enumerate() {
        let search = Search {
            seed: seed.wrapping_add(number as u64),
            turns,
            loose: *loose,
        };
        let found = local_search(resources, instance, windows, start, search)?;
        best = cheaper(resources.alloc, instance, windows, best, found)?;
    }
    Ok(best)
}

// A candidate that costs no more than the cheapest plan so far: what local searches from the plans
// find, once that is near the cost of the relaxed plan. The seeds come from that cost, so a call
// repeats.
pub(crate) fn improvement<D: Deadline>(
    resources: &Resources<D>,
    instance: &Instance,
    windows: &Windows,
    starts: Starts,
    relaxed_cost: u128,
) -> Result<Candidate, NoMemory>
    requires belongs { BelongsTo instance.now windows.now }
    requires cheapest { IsCandidate instance.now (windows_in windows.now) starts.cheapest }
    requires grouped { IfSome starts.grouped (IsPlanWithin instance.now (windows_in windows.now)) }
    ensures candidate { IfOk result (IsCandidate instance.now (windows_in windows.now)) }
    ensures cheaper { IfOk result (λ c. c.cost ≤ starts.cheapest.cost) }
{
    let Starts { cheapest, grouped } = starts;
    if cheapest.cost.saturating_sub(relaxed_cost) > relaxed_cost / NEARNESS {
        return Ok(cheapest);
    }
    let seed = (relaxed_cost % (1 << 64)) as u64;
    let start = cheapest.plan.copy(resources.alloc)?;
    let best = cheapest_found(resources, instance, windows, cheapest, &start, seed)?;
    match grouped {
        Some(plan) => cheapest_found(resources, instance, windows, best, &plan, seed),
        None => Ok(best),
    }
}
