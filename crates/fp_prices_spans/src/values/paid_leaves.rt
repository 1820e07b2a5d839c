//! Whether the spans that are charged at a leaf pay by the leaf's own windows.
ghost use Rattle.std.specs.Prelude.{◌≡◌, ◌↔◌, All, IfOk, IsTrue, List, length};
ghost use Rattle.fp_model.specs.declared.parts.Leg.{Leg};
ghost use Rattle.fp_flatnet.specs.Tables.{windows_in};
ghost use Rattle.fp_timenodes.specs.Points.{points_at};
ghost use Rattle.fp_prices.specs.LeafPricings.{AreChainsOf, allowed_at};
ghost use Rattle.fp_prices_spans.specs.PaidLeaves.{ChargedPay};
ghost use Rattle.fp_prices_spans.specs.SpanLists.{IsSpanOf};

use crate::NoMemory;
use crate::rules::charge_rule::ChargeTest;
use crate::spans::Span;
use crate::values::leaf_charges::is_charged;
use fp_prices::{Kind, Leaf};
use fp_timenodes::Points;
use std::alloc::Global;

/// Whether the charge of each span that is charged at a leaf pays for its weights, as
/// [`check_charges`](crate::check_charges) tests it, but by the leaf's windows, which may be
/// narrower than the instance's, and by the points as of a round, which may be more than those of
/// the start. Spans are charged as for [`span_bound`](crate::span_bound), where `forced` tells
/// whether forced classes are paid whole.
///
/// The points have the instance's terminals, and the spans are of arcs, and their weights of
/// shipments, that exist. `NoMemory` only where no memory is found.
pub fn charged_pay(
    alloc: Global,
    leaf: &Leaf,
    points: &Points,
    round: u32,
    spans: &[Span],
    forced: bool,
) -> Result<bool, NoMemory>
    requires terminals { points.now.terminals ≡ length leaf.now.setting.problem.terminals }
    requires of { All (IsSpanOf leaf.now.setting.problem) spans.now }
    ensures { (chains : List (List Leg)) → AreChainsOf leaf.now forced chains →
        IfOk result (λ pay. IsTrue pay ↔ ChargedPay leaf.now.setting.problem (windows_in leaf.now.setting.windows)
        (λ terminal. points_at points.now terminal round) (allowed_at leaf.now) chains spans.now) }
{
    let instance = leaf.round().instance();
    let windows = leaf.windows();
    let pricing = leaf.pricing(alloc, &[], Kind::Linear, forced)?;
    let mut test = ChargeTest::new(alloc);
    for span in spans {
        if is_charged(&pricing, span) && !test.pays(instance, windows, points, round, span)? {
            return Ok(false);
        }
    }
    Ok(true)
}
