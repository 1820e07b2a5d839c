//! Whether spans are paid.
ghost use Rattle.std.specs.Prelude.{◌≡◌, ◌<◌, ◌-◌, ◌^◌, ◌↔◌, All, IfOk, IsTrue, length};
ghost use Rattle.fp_flatnet.specs.Belonging.{FitsInstance};
ghost use Rattle.fp_flatnet.specs.Tables.{windows_in};
ghost use Rattle.fp_prices_spans.specs.MomentRuns.{first_points};
ghost use Rattle.fp_prices_spans.specs.SpanCharges.{ArePaidSpans};
ghost use Rattle.fp_prices_spans.specs.SpanLists.{IsSpanOf};

use crate::NoMemory;
use crate::rules::charge_rule::check_charges;
use crate::rules::money_rule::check_spans;
use crate::spans::Span;
use fp_flatnet::Windows;
use fp_model::Instance;
use fp_timenodes::Points;
use std::alloc::Global;

/// Whether spans are in order and light, keep the money rule, and all their charges pay: whether
/// neither [`check_spans`] nor [`check_charges`] finds a fault. Then they keep both rules of spans,
/// so what leaves are worth by them bounds plans.
///
/// The windows fit the instance, and the points have its terminals: by the windows, and by
/// the points as of round 0, it is told who can leave in a group. The spans are of arcs, and their
/// weights of shipments, that exist, and there are fewer than 2^32 - 1 spans. `NoMemory` only where
/// no memory is found.
pub fn are_paid(
    alloc: Global,
    instance: &Instance,
    windows: &Windows,
    points: &Points,
    spans: &[Span],
) -> Result<bool, NoMemory>
    requires fits { FitsInstance instance.now windows.now }
    requires terminals { points.now.terminals ≡ length instance.now.terminals }
    requires few { length spans.now < 2 ^ 32 - 1 }
    requires of { All (IsSpanOf instance.now) spans.now }
    ensures { IfOk result (λ paid. IsTrue paid ↔ ArePaidSpans instance.now (windows_in windows.now)
        (first_points points.now) spans.now) }
{
    if check_spans(alloc, instance, spans)?.is_some() {
        return Ok(false);
    }
    Ok(check_charges(alloc, instance, windows, points, spans)?.is_none())
}
