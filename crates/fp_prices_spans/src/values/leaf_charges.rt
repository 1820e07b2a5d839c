//! What spans take off the value of a leaf.
ghost use Rattle.std.specs.Prelude.{◌<◌, ◌↔◌, All, IsTrue, List, length};
ghost use Rattle.fp_longestarcs.specs.Networks.{IsNetwork, class_count};
ghost use Rattle.fp_model.specs.declared.parts.Leg.{Leg};
ghost use Rattle.fp_allowed.specs.Listing.{class_at};
ghost use Rattle.fp_prices.specs.LeafPricings.{AreChainsOf, allowed_at};
ghost use Rattle.fp_prices_spans.specs.SpanCosts.{IsAfterCharges, IsUsable};
ghost use Rattle.fp_prices_spans.specs.SpanLeaves.{IsCharged};
ghost use Rattle.fp_prices_spans.specs.SpanLists.{IsSpanOf};

use crate::spans::Span;
use crate::values::class_ranges::range_of;
use fp_prices::{Leaf, LeafPricing};

// Whether a class is allowed for some shipment.
fn is_usable(leaf: &Leaf, class: u32) -> bool
    requires network { IsNetwork leaf.now.setting.network }
    requires class { class < class_count leaf.now.setting.network }
    ensures { IsTrue result ↔ IsUsable leaf.now (class_at leaf.now.setting.network class) }
{
    for shipment in 0..leaf.round().instance().shipments().len() as u32 {
        if leaf.row(shipment).get(class) {
            return true;
        }
    }
    false
}

/// Whether a span is charged: it holds for a class that isn't forced and is allowed for some
/// shipment. Takes no memory.
pub(crate) fn is_charged(pricing: &LeafPricing, span: &Span) -> bool
    requires { span.now.arc < length pricing.now.leaf.setting.problem.arcs }
    ensures { (chains : List (List Leg)) → AreChainsOf pricing.now.leaf pricing.now.forced chains →
        IsTrue result ↔ IsCharged pricing.now.leaf.setting.problem (allowed_at pricing.now.leaf) chains span.now }
{
    let leaf = pricing.leaf();
    let range = range_of(leaf.round().instance(), leaf.round().network(), span);
    for class in range.first..range.end {
        if pricing.forced_load(class).is_none() && is_usable(leaf, class) {
            return true;
        }
    }
    false
}

/// A value less the charges of the spans that are charged, once each, and at least 0. Takes no
/// memory.
pub fn after_charges(pricing: &LeafPricing, spans: &[Span], value: u128) -> u128
    requires { All (IsSpanOf pricing.now.leaf.setting.problem) spans.now }
    ensures { (chains : List (List Leg)) → AreChainsOf pricing.now.leaf pricing.now.forced chains →
        IsAfterCharges pricing.now spans.now chains value result }
{
    let mut left = value;
    for span in spans {
        if is_charged(pricing, span) {
            left = left.saturating_sub(span.charge);
        }
    }
    left
}
