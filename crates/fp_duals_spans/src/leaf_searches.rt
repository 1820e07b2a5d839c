//! Spans, gifts and walks that are proposed for a leaf.
ghost use Rattle.std.specs.Prelude.{◌≡◌, OnErr};
ghost use Rattle.fp_prices.specs.Tables.{AreTables, HasKind};

use crate::NoMemory;
use crate::efforts::SpanEffort;
use crate::keeping::PASSES;
use crate::laid_spans::{Laid, StartPrices, lay, lay_over_arcs};
use crate::proposals::Proposed;
use crate::searches::{Found, Search};
use crate::whole_arcs::{are_over_arcs, search_arcs};
use fp_duals_clashes::ClashVotes;
use fp_duals_nets::{LeafNets, LoadCosts, least_walks, timed_walks};
use fp_ends::{Deadline, Resources};
use fp_longestarcs::TimedWalk;
use fp_prices::Leaf;
use std::alloc::Global;

// Among more shipments than so many, spans over whole arcs alone are sought at first: the others take
// most of the time there, and gained a part in 300 on a day of 300. Once there are some, over classes
// alone: over arcs as much time again gains nothing by the points that were added.
const MOST_BY_CLASS: usize = 200;

/// A walk of each shipment at a leaf, by their numbers, of least cost by the spans of some prices:
/// of the many that such prices leave, walks that share trucks. The nets are those of the leaf.
/// Nothing is promised of the walks, and they are of no use where some shipment has no allowed
/// timed walk. `NoMemory` only where no memory is found. Takes a few searches over each net.
pub fn proposed_walks(
    alloc: Global,
    leaf: &Leaf,
    model: &mut LeafNets,
    start: StartPrices,
) -> Result<Vec<TimedWalk>, NoMemory>
    requires tables { AreTables leaf.now.setting.problem start.tables.now }
    requires kind { HasKind start.tables.now start.kind }
    ensures { OnErr result (model.new ≡ model.old) }
{
    let Laid { layout, prices } = lay(alloc, leaf, model, start)?;
    prices.set_costs(&layout, &mut model.nets);
    let shared = least_walks(alloc, model, PASSES, 0)?;
    timed_walks(alloc, &LoadCosts::of(model), &shared.walks)
}

// What is found over whole arcs; nothing where the effort leaves it out. Where spans are handed in, the
// search goes on from them if all are over whole arcs; others were better than such ones before, and
// nothing is found.
fn found_over_arcs<D: Deadline>(
    resources: &Resources<D>,
    leaf: &Leaf,
    model: &mut LeafNets,
    start: StartPrices,
    effort: &SpanEffort,
    votes: &mut ClashVotes,
) -> Result<Option<Found>, NoMemory>
    requires tables { AreTables leaf.now.setting.problem start.tables.now }
    requires kind { HasKind start.tables.now start.kind }
{
    if effort.arc_turns == 0 || !are_over_arcs(start.spans) {
        return Ok(None);
    }
    let Laid { layout, prices } = lay_over_arcs(resources.alloc, leaf, model, start)?;
    let found = search_arcs(resources, model, layout, prices, effort, votes)?;
    Ok(Some(found))
}

// What a search over whole arcs counts for that came to a value: so much more as it may be worth less.
fn arc_worth(value: u64, effort: &SpanEffort) -> u64 {
    let more = u128::from(value).saturating_mul(u128::from(effort.arc_loss)) >> 20;
    value.saturating_add(more.min(u128::from(u64::MAX)) as u64)
}

/// Spans for a leaf in the mode plain, in order, each with the least charge that pays; none where
/// nothing better than prices by size alone is found. Beside them gifts, each with an amount, where
/// the leaf has sides by trucks; spans and gifts keep the money rule together. The nets are those of
/// the leaf. Nothing is promised of what is proposed, and it's of no use where some shipment has no
/// allowed timed walk. `NoMemory` only where no memory is found.
///
/// On the way least walks vote for points where they clash. Spans are sought over whole arcs, and over
/// classes and runs of them; the better ones are taken, or those over arcs where they're worth little less,
/// as the effort has it. Where there are many shipments they are sought
/// over arcs alone at first, and over classes alone once there are some.
/// One search over each net for each turn of the effort, and one over the sets of each span
/// whose prices move. Takes memory that grows with the edges of the nets.
pub fn proposed_spans<D: Deadline>(
    resources: &Resources<D>,
    leaf: &Leaf,
    model: &mut LeafNets,
    start: StartPrices,
    effort: &SpanEffort,
    votes: &mut ClashVotes,
) -> Result<Proposed, NoMemory>
    requires tables { AreTables leaf.now.setting.problem start.tables.now }
    requires kind { HasKind start.tables.now start.kind }
    ensures { OnErr result (model.new ≡ model.old) }
{
    let are_many = leaf.round().instance().shipments().len() > MOST_BY_CLASS;
    let goes_on = !start.spans.is_empty();
    let over_arcs = if are_many && goes_on {
        None
    } else {
        found_over_arcs(resources, leaf, model, start, effort, votes)?
    };
    let over_arcs = match over_arcs {
        Some(over_arcs) if are_many || goes_on && effort.alone => return Ok(over_arcs.proposed),
        found => found,
    };
    let by_class = if are_over_arcs(start.spans) {
        StartPrices {
            spans: &[],
            gifts: &[],
            ..start
        }
    } else {
        start
    };
    let Laid { layout, prices } = lay(resources.alloc, leaf, model, by_class)?;
    let search = Search {
        layout,
        prices,
        effort,
        merges: false,
    };
    let known = over_arcs
        .as_ref()
        .map_or(0, |over_arcs| arc_worth(over_arcs.value, effort));
    let found = search.best(resources, model, known, votes)?;
    match over_arcs {
        Some(over_arcs) if known > found.value => Ok(over_arcs.proposed),
        _ => Ok(found.proposed),
    }
}
