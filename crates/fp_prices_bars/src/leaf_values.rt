//! What a leaf is worth before shipments are made to go by classes.
ghost use Rattle.std.specs.Prelude.{IfOk, MatchOption};
ghost use Rattle.fp_prices_spans.specs.SpanLeaves.{IsSpanLeafEmpty};
ghost use Rattle.fp_flatnet.specs.Tables.{windows_in};
ghost use Rattle.fp_longestarcs.specs.Networks.{points_in};
ghost use Rattle.fp_prices_spans.specs.SpanPricings.{IsSpanPricing};
ghost use Rattle.fp_prices_bars.specs.LeafValues.{IsLeafValueOf};

use crate::NoMemory;
use fp_prices::LeafBound;
use fp_prices_spans::{SpanPricing, after_charges, bases, value_before_charges};
use std::alloc::Global;

/// The bases and the least costs of a leaf together, and what its spans take off of it, as far as 128 bits
/// go.
#[derive(Clone, Copy)]
pub(crate) struct LeafValue {
    pub(crate) total: u128,
    pub(crate) charges: u128,
}

/// These of a leaf under prices by spans, `None` exactly where the leaf is empty by its heads and ways.
/// `NoMemory` only where no memory is found.
pub(crate) fn leaf_value(
    alloc: Global,
    by_spans: &SpanPricing,
) -> Result<Option<LeafValue>, NoMemory>
    requires { IsSpanPricing by_spans.now }
    ensures { IfOk result (λ found. MatchOption found
        (IsSpanLeafEmpty by_spans.now.pricing.now.leaf.setting.problem (windows_in by_spans.now.pricing.now.leaf.setting.windows)
        (points_in by_spans.now.pricing.now.leaf.setting.network) by_spans.now.pricing.now.leaf.sides by_spans.now.spans.now)
        (IsLeafValueOf by_spans.now.pricing.now by_spans.now.spans.now)) }
{
    let pricing = by_spans.pricing;
    let most = u128::MAX;
    match value_before_charges(alloc, by_spans, bases(pricing))? {
        LeafBound::Empty { .. } => Ok(None),
        LeafBound::Value { value } => Ok(Some(LeafValue {
            total: value,
            charges: most - after_charges(pricing, by_spans.spans, most),
        })),
    }
}
