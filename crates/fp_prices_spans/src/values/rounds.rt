//! The bound of a leaf by spans, with the points as of a round.
ghost use Rattle.std.specs.Prelude.{◌≡◌, ◌+◌, ◌≤◌, IfOk, length};
ghost use Rattle.fp_flatnet.specs.Belonging.{FitsInstance};
ghost use Rattle.fp_flatnet.specs.Tables.{windows_in};
ghost use Rattle.fp_timenodes.specs.Points.{points_at};
ghost use Rattle.fp_prices_spans.specs.SpanLeaves.{IsSmallSpanBound, IsSpanBoundOf};
ghost use Rattle.fp_prices_spans.specs.SpanPricings.{ArePrices};

use crate::NoMemory;
use crate::spans::Span;
use crate::values::span_bounds::span_bound;
use fp_flatnet::Windows;
use fp_model::Instance;
use fp_prices::{Leaf, LeafBound, LeafPrice, RoundNetwork, Table};
use fp_timenodes::{MOST_POINTS, Points};
use fp_tree::Side;
use std::alloc::Global;

/// The bound of the leaf under sides, with the points as of the price's round, as [`span_bound`]
/// finds it, on the same conditions.
///
/// The windows fit the instance, and the points have its terminals; the terminals, the first points and the added
/// points are together at most [`MOST_POINTS`].
pub fn span_bound_of(
    alloc: Global,
    instance: &Instance,
    windows: &Windows,
    points: &Points,
    sides: &[Side],
    tables: &[Table],
    spans: &[Span],
    price: LeafPrice,
) -> Result<LeafBound, NoMemory>
    requires fits { FitsInstance instance.now windows.now }
    requires terminals { points.now.terminals ≡ length instance.now.terminals }
    requires few { points.now.terminals + length points.now.first + length points.now.added ≤ MOST_POINTS }
    requires prices { ArePrices instance.now tables.now spans.now price.kind }
    ensures exact { IfOk result (IsSpanBoundOf instance.now (windows_in windows.now)
        (λ terminal. points_at points.now terminal price.round) sides.now tables.now spans.now price.kind price.forced) }
    ensures small { IfOk result IsSmallSpanBound }
{
    let network = RoundNetwork::of(alloc, instance, points, price.round)?;
    let leaf = Leaf::of(alloc, &network, windows, sides)?;
    span_bound(alloc, &leaf, tables, spans, price.kind, price.forced)
}
