//! What the averaged walks of a short ascent use: how many trucks of each arc they pay for, and by which arcs
//! each shipment goes.
ghost use Rattle.std.specs.Prelude.{◌≡◌, OnErr};
ghost use Rattle.fp_prices.specs.Tables.{AreTables, HasKind};

use crate::NoMemory;
use crate::efforts::SpanEffort;
use crate::laid_spans::{Laid, StartPrices, lay, lay_over_arcs};
use crate::searches::Search;
use crate::whole_arcs::are_over_arcs;
use fp_duals_clashes::ClashVotes;
use fp_duals_layouts::Charges;
use fp_duals_nets::LeafNets;
use fp_duals_runs::{Averages, PaidTrucks, paid_by_arc, used_ways};
use fp_ends::{Deadline, Resources};
use fp_prices::Leaf;
use std::alloc::Global;

// An ascent of at most so many turns, in which uses are averaged as for joins: its first target is as near
// as where groups are merged, since it goes on from prices that are good already.
fn short_effort(turns: u32) -> SpanEffort {
    SpanEffort {
        turns,
        patience: SpanEffort::ROOT.arc_patience,
        level: SpanEffort::ROOT.merged_level,
        joins: 1,
        ..SpanEffort::ROOT
    }
}

/// The prices from which a short ascent goes on: by spans over whole arcs where such ones alone are handed in,
// and by spans over classes otherwise.
pub(crate) fn laid_start(
    alloc: Global,
    leaf: &Leaf,
    model: &mut LeafNets,
    start: StartPrices,
) -> Result<Laid, NoMemory>
    requires tables { AreTables leaf.now.setting.problem start.tables.now }
    requires kind { HasKind start.tables.now start.kind }
{
    if !start.spans.is_empty() && are_over_arcs(start.spans) {
        lay_over_arcs(alloc, leaf, model, start)
    } else {
        lay(alloc, leaf, model, start)
    }
}

// How many trucks of each arc averaged walks pay for at the best prices of a search.
fn trucks_paid(
    alloc: Global,
    search: &Search,
    model: &LeafNets,
    averages: &Averages,
) -> Result<Vec<PaidTrucks>, NoMemory> {
    let mut charges = Charges::of(alloc, &search.layout, u64::from(search.effort.loads), true)?;
    charges.find_all(&search.layout, &search.prices)?;
    paid_by_arc(
        alloc,
        &search.layout,
        &search.prices,
        averages,
        &charges,
        model.arcs.len(),
    )
}

/// What averaged walks use, in parts of [`TRUCK_PARTS`](crate::TRUCK_PARTS): how many trucks of each arc they
/// pay for, in the arcs' order, and how much of each shipment's goes by each arc, at the place of the
/// shipment's number times the number of arcs, and the arc's number.
#[derive(Drop)]
pub struct AveragedUses {
    pub trucks: Vec<PaidTrucks>,
    pub ways: Vec<u64>,
}

/// What the averaged walks of an ascent of at most so many turns use. It goes on from the start's prices:
/// over whole arcs where spans are handed in that are all over whole arcs, and over classes otherwise. The
/// nets are those of the leaf. Nothing is promised of the numbers, and they're of no use where some shipment
/// has no allowed timed walk. `NoMemory` only where no memory is found.
///
/// What the payers of an arc pay by their averaged uses, less what its spans are charged at the best prices
/// of the ascent, pays for trucks at what they cost with gifts.
/// Takes one search over each net for each turn, and one over the sets of each span whose prices move.
pub fn averaged_uses<D: Deadline>(
    resources: &Resources<D>,
    leaf: &Leaf,
    model: &mut LeafNets,
    start: StartPrices,
    turns: u32,
) -> Result<AveragedUses, NoMemory>
    requires tables { AreTables leaf.now.setting.problem start.tables.now }
    requires kind { HasKind start.tables.now start.kind }
    ensures { OnErr result (model.new ≡ model.old) }
{
    let alloc = resources.alloc;
    let effort = short_effort(turns);
    let Laid { layout, prices } = laid_start(alloc, leaf, model, start)?;
    let mut search = Search {
        layout,
        prices,
        effort: &effort,
        merges: true,
    };
    // Where groups are merged, nothing is voted for.
    let mut votes = ClashVotes::of(alloc, leaf.round().instance())?;
    let averages = search.ascend(resources, model, &mut votes)?;
    let trucks = trucks_paid(alloc, &search, model, &averages)?;
    let (shipments, arcs) = (model.nets.list.len(), model.arcs.len());
    let ways = used_ways(alloc, &search.layout, &averages, shipments, arcs)?;
    Ok(AveragedUses { trucks, ways })
}
