//! A relaxed plan that costs less than the incumbent is timed, or calls for more points.
ghost use Rattle.std.specs.Prelude.{◌≡◌, ◌<◌, ◌≤◌, IfOk};
ghost use Rattle.fp_model.specs.Costs.{cost as cost_of};
ghost use Rattle.fp_flatnet.specs.Tables.{windows_in};
ghost use Rattle.fp_relaxmodel.specs.Relaxed.{IsRelaxedPlan};
ghost use Rattle.fp_session_history.specs.Clashes.{ClashesBelow};
ghost use Rattle.fp_session.specs.Moves.{IsNextRound, points_now};
ghost use Rattle.fp_session.specs.Searches.{IsSearch, history};
ghost use Rattle.fp_session.specs.Timing.{IsTiming};
ghost use Rattle.fp_session_history.specs.Notes.{last_round};

use crate::NoMemory;
use crate::searches::Search;
use fp_duals_leaves::Prices;
use fp_ends::{Deadline, Resources};
use fp_relaxmodel::RelaxedPlan;
use fp_repair::repair_within;
use fp_session_clashes::{RefinedNetwork, refined, round_places};
use fp_session_history::RoundNote;
use fp_session_looks::Cheaper;
use fp_shortarcs::too_short;
use fp_timetable::cost;
use std::alloc::Global;

// One more round, with its note.
#[derive(Drop)]
pub(crate) struct NextRound {
    pub note: RoundNote,
    pub refined: RefinedNetwork,
}

// What comes of a relaxed plan that costs less than the incumbent: a cheaper plan; one more round; or the
// relaxed plan, where no round is left.
#[derive(Drop)]
pub(crate) enum Timing {
    Better { cheaper: Cheaper },
    Refine { round: NextRound },
    Spent { relaxed: RelaxedPlan },
}

// One more round, for a relaxed plan that calls for it: where spans are sought, it adds points where least
// walks clash.
fn next_round(
    alloc: Global,
    search: &Search,
    prices: &Prices,
    relaxed: RelaxedPlan,
) -> Result<NextRound, NoMemory>
    requires search { IsSearch search.now prices.now }
    requires left { last_round (history search.now prices.now) < search.now.budget.rounds }
    requires clashes { ClashesBelow search.now.instance search.now.windows (points_now search.now)
        search.now.cost relaxed }
    ensures next { IfOk result (λ r. IsNextRound search.now prices.now.unit r.note r.refined) }
    ensures by { IfOk result (λ r. r.note.relaxed ≡ relaxed) }
{
    let shorts = too_short(
        alloc,
        &search.instance,
        &search.windows,
        &search.network,
        &relaxed,
    )?;
    let has_spans = prices.unit().is_some();
    let added = round_places(
        alloc,
        &search.instance,
        &search.network,
        &shorts,
        prices.clashes(),
        has_spans,
    )?;
    let round = search.trace.len() as u32 + 1;
    let points = search.points.copy(alloc)?;
    let network = search.network.copy(alloc)?;
    let refined = refined(alloc, &search.instance, points, network, round, &added)?;
    let note = RoundNote {
        round,
        incumbent: search.cost,
        relaxed,
        added,
    };
    Ok(NextRound { note, refined })
}

// What comes of a relaxed plan that costs less than the incumbent.
pub(crate) fn timed<D: Deadline>(
    resources: &Resources<D>,
    search: &Search,
    prices: &Prices,
    relaxed: RelaxedPlan,
) -> Result<Timing, NoMemory>
    requires search { IsSearch search.now prices.now }
    requires relaxed { IsRelaxedPlan search.now.instance (windows_in search.now.windows)
        (points_now search.now) relaxed }
    requires cheaper { cost_of search.now.instance relaxed < search.now.cost }
    ensures { IfOk result (IsTiming search.now prices.now.unit relaxed) }
{
    let plan = repair_within(
        resources,
        &search.instance,
        &search.windows,
        &relaxed,
        &search.incumbent,
    )?
    .plan;
    let cost = cost(resources.alloc, &search.instance, &plan)?;
    if cost < search.cost {
        let cheaper = Cheaper { plan, cost };
        return Ok(Timing::Better { cheaper });
    }
    if search.trace.len() >= search.budget.rounds as usize {
        return Ok(Timing::Spent { relaxed });
    }
    let round = next_round(resources.alloc, search, prices, relaxed)?;
    Ok(Timing::Refine { round })
}
