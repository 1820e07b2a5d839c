//! What a leaf promises to be worth.
ghost use Rattle.std.specs.Prelude.{◌≡◌, OnErr};
ghost use Rattle.fp_prices.specs.Tables.{AreTables, HasKind};

use crate::NoMemory;
use crate::ascent::exact_ascent::settle;
use crate::averages::laid_start;
use crate::efforts::SpanEffort;
use crate::laid_spans::{Laid, StartPrices};
use crate::searches::Search;
use fp_duals_clashes::ClashVotes;
use fp_duals_nets::LeafNets;
use fp_ends::{Deadline, Resources};
use fp_prices::Leaf;

/// What a leaf promises to be worth by spans and gifts, in parts of a unit of money: where gifts have the amounts
/// that gain, and after an ascent in which the value doesn't fall. It goes on from the start's prices: over whole
/// arcs where spans are handed in that are all over whole arcs, and over classes otherwise. The nets are those
/// of the leaf. Nothing is promised of the number; it's great where some shipment has no allowed timed walk.
/// `NoMemory` only where no memory is found.
///
/// Takes one search over each net for each gift and each pass of the ascent, and one over the sets of each span whose
/// prices move. The other ascent is left out: its direction takes more turns to be of use than a trial may take.
pub fn promised_value<D: Deadline>(
    resources: &Resources<D>,
    leaf: &Leaf,
    model: &mut LeafNets,
    start: StartPrices,
) -> Result<u128, NoMemory>
    requires tables { AreTables leaf.now.setting.problem start.tables.now }
    requires kind { HasKind start.tables.now start.kind }
    ensures { OnErr result (model.new ≡ model.old) }
{
    let effort = SpanEffort {
        turns: 0,
        joins: 0,
        ..SpanEffort::ROOT
    };
    let Laid { layout, prices } = laid_start(resources.alloc, leaf, model, start)?;
    let mut search = Search {
        layout,
        prices,
        effort: &effort,
        merges: false,
    };
    let mut votes = ClashVotes::of(resources.alloc, leaf.round().instance())?;
    search.ascend(resources, model, &mut votes)?;
    let Search {
        layout,
        mut prices,
        ..
    } = search;
    let value = settle(
        resources,
        &layout,
        &mut model.nets,
        &mut prices,
        effort.settle_passes,
        false,
    )?;
    Ok(model.unit.outer(value))
}
