//! Whether the spans and the gifts beside one table are listed as they have to be, and are paid.
ghost use Rattle.std.specs.Prelude.{◌≡◌, ◌<◌, ◌-◌, ◌^◌, ◌↔◌, All, IfOk, IsTrue, length};
ghost use Rattle.fp_flatnet.specs.Belonging.{BelongsTo};
ghost use Rattle.fp_flatnet.specs.Tables.{windows_in};
ghost use Rattle.fp_certificate_rules.specs.Prices.{AreListedBeside, ArePricesBeside};
ghost use Rattle.fp_prices_gifts.specs.declared.gifts.Gift.{Gift};
ghost use Rattle.fp_prices_spans.specs.declared.spans.TheConstants.{MOST_SPAN_WEIGHT};
ghost use Rattle.fp_prices_spans.specs.MomentRuns.{first_points};
ghost use Rattle.fp_prices_spans.specs.SpanLists.{AreCountableSpans, AreSpansInOrder, IsSpanOf, weight_total};

use crate::NoMemory;
use fp_flatnet::Windows;
use fp_model::Instance;
use fp_prices_gifts::{Gift, check_gifts};
use fp_prices_spans::{Span, SpanFault, check_charges, check_spans};
use fp_timenodes::Points;
use std::alloc::Global;

// Whether spans are in order and light, whatever their money.
fn are_in_order(alloc: Global, instance: &Instance, spans: &[Span]) -> Result<bool, NoMemory>
    requires { AreCountableSpans instance.now spans.now }
    ensures { IfOk result (λ ordered. IsTrue ordered
        ↔ (AreSpansInOrder spans.now × (weight_total spans.now < MOST_SPAN_WEIGHT))) }
{
    match check_spans(alloc, instance, spans)? {
        None | Some(SpanFault::Money(_)) => Ok(true),
        Some(SpanFault::Order) | Some(SpanFault::Weights) => Ok(false),
    }
}

// Whether the spans and the gifts beside one table are listed as they have to be, whatever the charges:
// in order and light, and within the money rule, which is that of spans and gifts together where there
// are gifts.
fn are_listed_beside(
    alloc: Global,
    instance: &Instance,
    spans: &[Span],
    gifts: &[Gift],
) -> Result<bool, NoMemory>
    requires spans { AreCountableSpans instance.now spans.now }
    requires arcs { All (λ (gift : Gift). gift.arc < length instance.now.arcs) gifts.now }
    ensures { IfOk result (λ listed. IsTrue listed ↔ AreListedBeside instance.now spans.now gifts.now) }
{
    if gifts.is_empty() {
        return Ok(check_spans(alloc, instance, spans)?.is_none());
    }
    if !are_in_order(alloc, instance, spans)? {
        return Ok(false);
    }
    Ok(check_gifts(instance, spans, gifts).is_none())
}

/// Whether the spans and the gifts beside one table are listed as they have to be, and the charges pay, by
/// the windows and the points as of the round 0. Beside a table by moments charges aren't asked to: they
/// are tested at the leaves.
pub(crate) fn are_prices_beside(
    alloc: Global,
    instance: &Instance,
    windows: &Windows,
    points: &Points,
    spans: &[Span],
    gifts: &[Gift],
    by_moments: bool,
) -> Result<bool, NoMemory>
    requires belongs { BelongsTo instance.now windows.now }
    requires terminals { points.now.terminals ≡ length instance.now.terminals }
    requires few { length spans.now < 2 ^ 32 - 1 }
    requires of { All (IsSpanOf instance.now) spans.now }
    requires arcs { All (λ (gift : Gift). gift.arc < length instance.now.arcs) gifts.now }
    ensures { IfOk result (λ are. IsTrue are
        ↔ ArePricesBeside by_moments instance.now (windows_in windows.now) (first_points points.now) spans.now gifts.now) }
{
    if !are_listed_beside(alloc, instance, spans, gifts)? {
        return Ok(false);
    }
    if by_moments {
        return Ok(true);
    }
    Ok(check_charges(alloc, instance, windows, points, spans)?.is_none())
}
