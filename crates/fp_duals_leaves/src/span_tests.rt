//! Whether spans and gifts that are proposed are of the instance and keep their rules.
ghost use Rattle.std.specs.Prelude.{◌≡◌, ◌<◌, ◌-◌, ◌^◌, All, IfOk, length};
ghost use Rattle.std.specs.Bool.{OnTrue};
ghost use Rattle.fp_flatnet.specs.Belonging.{BelongsTo, FitsInstance};
ghost use Rattle.fp_flatnet.specs.Tables.{windows_in};
ghost use Rattle.fp_prices_spans.specs.MomentRuns.{first_points};
ghost use Rattle.fp_prices_spans.specs.SpanLists.{AreSpansInOrder, weight_total};
ghost use Rattle.fp_prices_spans.specs.declared.spans.TheConstants.{MOST_SPAN_WEIGHT};
ghost use Rattle.fp_certificate_lines.specs.Ranges.{IsGiftInRange, IsGroupInRange, IsSpanInRange, IsWeightInRange};
ghost use Rattle.fp_certificate_rules.specs.Prices.{ArePaidBeside};
ghost use Rattle.fp_duals_leaves.specs.SoundSpans.{AreSoundSpans};

use crate::NoMemory;
use fp_certificate_lines::LARGEST_FIGURE;
use fp_flatnet::{Windows, initial};
use fp_model::Instance;
use fp_model::limits::LATEST;
use fp_prices::Weight;
use fp_prices_gifts::{Gift, check_gifts};
use fp_prices_spans::{Span, SpanFault, are_paid, check_charges, check_spans};
use fp_timenodes::Points;
use std::alloc::Global;

// Whether the shipments of weights exist, and each is small enough for a certificate.
fn weights_in_range(instance: &Instance, weights: &[Weight]) -> bool
    ensures { OnTrue result (All (IsWeightInRange instance.now) weights.now) }
{
    let shipments = instance.shipments().len();
    weights.iter().all(|weight| (weight.shipment as usize) < shipments
        && weight.w <= LARGEST_FIGURE)
}

// Whether the moments at which groups begin are small enough for a certificate.
fn groups_in_range(groups: &[u32]) -> bool
    ensures { OnTrue result (All IsGroupInRange groups.now) }
{
    groups.iter().all(|moment| *moment <= LATEST)
}

// Whether a span is of an arc and of shipments that exist, and its numbers are small enough for a
// certificate.
fn is_in_range(instance: &Instance, span: &Span) -> bool
    ensures { OnTrue result (IsSpanInRange instance.now span.now) }
{
    (span.arc as usize) < instance.arcs().len()
        && span.point < span.until
        && span.until <= LATEST + 1
        && span.money <= LARGEST_FIGURE
        && span.charge <= LARGEST_FIGURE
        && weights_in_range(instance, &span.weights)
        && groups_in_range(&span.groups)
}

// Whether all spans are so.
fn are_in_range(instance: &Instance, spans: &[Span]) -> bool
    ensures { OnTrue result (All (IsSpanInRange instance.now) spans.now) }
{
    for span in spans {
        if !is_in_range(instance, span) {
            return false;
        }
    }
    true
}

// Whether a gift is of an arc that exists, and its numbers are small enough for a certificate.
fn is_gift_in_range(instance: &Instance, gift: &Gift) -> bool
    ensures { OnTrue result (IsGiftInRange instance.now gift.now) }
{
    (gift.arc as usize) < instance.arcs().len()
        && gift.point < gift.until
        && gift.until <= LATEST + 1
        && gift.amount <= LARGEST_FIGURE
}

// Whether all gifts are so.
fn gifts_in_range(instance: &Instance, gifts: &[Gift]) -> bool
    ensures { OnTrue result (All (IsGiftInRange instance.now) gifts.now) }
{
    for gift in gifts {
        if !is_gift_in_range(instance, gift) {
            return false;
        }
    }
    true
}

// Whether spans in range are in order and light, whatever their money.
fn are_in_order(alloc: Global, instance: &Instance, spans: &[Span]) -> Result<bool, NoMemory>
    requires range { All (IsSpanInRange instance.now) spans.now }
    requires few { length spans.now < 2 ^ 32 - 1 }
    ensures { IfOk result (λ ordered. OnTrue ordered
        (AreSpansInOrder spans.now × (weight_total spans.now < MOST_SPAN_WEIGHT))) }
{
    match check_spans(alloc, instance, spans)? {
        None | Some(SpanFault::Money(_)) => Ok(true),
        Some(SpanFault::Order) | Some(SpanFault::Weights) => Ok(false),
    }
}

// Whether spans and gifts in range, which stand beside one table, pass the test of a certificate:
// where there are gifts, the money rule is that of spans and gifts together.
fn are_paid_beside(
    alloc: Global,
    instance: &Instance,
    windows: &Windows,
    points: &Points,
    spans: &[Span],
    gifts: &[Gift],
) -> Result<bool, NoMemory>
    requires fits { FitsInstance instance.now windows.now }
    requires terminals { points.now.terminals ≡ length instance.now.terminals }
    requires range { All (IsSpanInRange instance.now) spans.now }
    requires few { length spans.now < 2 ^ 32 - 1 }
    requires given { All (IsGiftInRange instance.now) gifts.now }
    ensures { IfOk result (λ paid. OnTrue paid (ArePaidBeside instance.now (windows_in windows.now)
        (first_points points.now) spans.now gifts.now)) }
{
    if gifts.is_empty() {
        return are_paid(alloc, instance, windows, points, spans);
    }
    if check_gifts(instance, spans, gifts).is_some() || !are_in_order(alloc, instance, spans)? {
        return Ok(false);
    }
    Ok(check_charges(alloc, instance, windows, points, spans)?.is_none())
}

/// Whether spans and gifts that stand beside one table are sound: of arcs and shipments that exist, in
/// range for a certificate, the spans in order and within the limit of their weights, the gifts within
/// that of their amounts, and both within the rules, by the windows and the initial points, so that
/// values by them bound plans. The windows belong to the instance. `NoMemory` only where no memory is
/// found.
pub(crate) fn are_sound(
    alloc: Global,
    instance: &Instance,
    windows: &Windows,
    spans: &[Span],
    gifts: &[Gift],
) -> Result<bool, NoMemory>
    requires { BelongsTo instance.now windows.now }
    ensures { IfOk result (λ sound.
        OnTrue sound (AreSoundSpans instance.now windows.now spans.now gifts.now)) }
{
    if spans.len() >= u32::MAX as usize
        || !are_in_range(instance, spans)
        || !gifts_in_range(instance, gifts)
    {
        return Ok(false);
    }
    let points = initial(alloc, instance, windows)?;
    are_paid_beside(alloc, instance, windows, &points, spans, gifts)
}
