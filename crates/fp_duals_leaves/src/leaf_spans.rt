//! Spans and gifts by which a leaf is worth more.
ghost use Rattle.std.specs.Prelude.{IfOk, IfSome};
ghost use Rattle.fp_flatnet.specs.Belonging.{BelongsTo};
ghost use Rattle.fp_longestarcs.specs.Networks.{points_in};
ghost use Rattle.fp_prices.specs.Tables.{AreTables, HasKind};
ghost use Rattle.fp_duals_leaves.specs.SpanPrices.{IsBetterPrice};

use crate::NoMemory;
use crate::span_prices::SpanPrice;
use crate::span_tests::are_sound;
use fp_duals_clashes::ClashVotes;
use fp_duals_nets::LentNets;
use fp_duals_spans::{Proposed, SpanEffort, StartPrices, proposed_spans};
use fp_ends::{Deadline, Resources};
use fp_prices::{Kind, Leaf, LeafBound};
use fp_prices_gifts::gift_bound;
use std::alloc::Global;

// What the leaf is worth by spans and gifts, where they are sound, the leaf is priced by them and it's
// above a value.
fn price_by(
    alloc: Global,
    leaf: &Leaf,
    proposed: Proposed,
    value: u128,
) -> Result<Option<SpanPrice>, NoMemory>
    requires { BelongsTo leaf.now.setting.problem leaf.now.setting.windows }
    ensures { IfOk result (λ found. IfSome found
        (IsBetterPrice leaf.now.setting.problem leaf.now.setting.windows
        (points_in leaf.now.setting.network) leaf.now.sides value)) }
{
    let Proposed { spans, gifts } = proposed;
    let instance = leaf.round().instance();
    if !are_sound(alloc, instance, leaf.windows(), &spans, &gifts)? {
        return Ok(None);
    }
    match gift_bound(alloc, leaf, &[], &spans, &gifts, Kind::Linear, false)? {
        Some(LeafBound::Value { value: worth }) if worth > value => Ok(Some(SpanPrice {
            spans,
            gifts,
            value: worth,
        })),
        _ => Ok(None),
    }
}

/// Spans and gifts by which a leaf is worth more than a value, where such are found.
///
/// They are sought from some prices, over the nets of the leaf, whose windows belong to the instance.
/// What is found keeps the rules of spans and gifts, by the leaf's windows and the initial points, so no
/// plan of the leaf costs less than it's worth by them, where the initial points are among those of its
/// network. Gifts are found beside spans alone, and only where the leaf has sides by trucks. On the way
/// least walks vote for points. Nothing is promised of when spans are found. `NoMemory` only where no
/// memory is found.
pub(crate) fn better_spans<D: Deadline>(
    resources: &Resources<D>,
    leaf: &Leaf,
    nets: &mut LentNets,
    start: StartPrices,
    value: u128,
    effort: &SpanEffort,
    votes: &mut ClashVotes,
) -> Result<Option<SpanPrice>, NoMemory>
    requires belongs { BelongsTo leaf.now.setting.problem leaf.now.setting.windows }
    requires tables { AreTables leaf.now.setting.problem start.tables.now }
    requires kind { HasKind start.tables.now start.kind }
    ensures { IfOk result (λ found. IfSome found
        (IsBetterPrice leaf.now.setting.problem leaf.now.setting.windows
        (points_in leaf.now.setting.network) leaf.now.sides value)) }
{
    let model = nets.within(resources.alloc, leaf)?;
    let proposed = proposed_spans(resources, leaf, model, start, effort, votes)?;
    if proposed.spans.is_empty() {
        return Ok(None);
    }
    price_by(resources.alloc, leaf, proposed, value)
}
