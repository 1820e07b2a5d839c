//! The bound of a leaf by its own windows, those that its sides narrow.
ghost use Rattle.std.specs.Prelude.{◌≡◌, ◌+◌, ◌≤◌, IfOk, IfSome, length};
ghost use Rattle.fp_flatnet.specs.Belonging.{FitsInstance};
ghost use Rattle.fp_flatnet.specs.Tables.{windows_in};
ghost use Rattle.fp_timenodes.specs.Points.{points_at};
ghost use Rattle.fp_longestarcs.specs.Whole.{IsWholeNetwork};
ghost use Rattle.fp_allowed.specs.WindowsUnder.{AreWindowRowsUnder};
ghost use Rattle.fp_prices_spans.specs.SpanPricings.{ArePrices};
ghost use Rattle.fp_prices_gifts.specs.Gifts.{AreGifts};
ghost use Rattle.fp_prices_gifts.specs.GiftLeaves.{IsSmallGiftBound};
ghost use Rattle.fp_prices_gifts.specs.MomentLeaves.{IsMomentBound};

use crate::NoMemory;
use crate::bounds::gift_bound;
use crate::gifts::Gift;
use fp_allowed::Allowed;
use fp_flatnet::Windows;
use fp_longestarcs::Network;
use fp_model::Instance;
use fp_prices::{Leaf, LeafBound, LeafPrice, RoundNetwork, Table};
use fp_prices_spans::{Span, charged_pay};
use fp_timenodes::{MOST_POINTS, Points};
use fp_tree::Side;
use std::alloc::Global;

/// The windows that sides narrow, as [`Allowed::leaf_windows`] finds them, on the conditions of
/// [`Allowed::within`]. `NoMemory` only where no memory is found.
pub fn narrower_windows(
    alloc: Global,
    instance: &Instance,
    windows: &Windows,
    network: &Network,
    sides: &[Side],
) -> Result<Windows, NoMemory>
    requires fits { FitsInstance instance.now windows.now }
    requires whole { IsWholeNetwork instance.now network.now }
    ensures rows { IfOk result (λ narrower. AreWindowRowsUnder instance.now (windows_in windows.now) sides.now narrower.rows) }
    ensures fits { IfOk result (FitsInstance instance.now) }
{
    Allowed::within(instance, windows, network).leaf_windows(alloc, sides)
}

/// The bound of the leaf under sides by moments: as [`gift_bound_of`](crate::gift_bound_of) finds it, but
/// over the windows that the sides narrow, as [`Allowed::leaf_windows`] finds them. `None` also where a
/// span that is charged at the leaf doesn't pay by these windows and the points as of the price's round.
///
/// So the spans need pay only at the leaves at which they are charged, for shipments that can still leave
/// together there: where they are in order and keep the money rule with the gifts, the scale times the
/// cost of each plan of the leaf is at least the value, over every denominator, and an empty leaf has no
/// plan.
///
/// The conditions are those of [`gift_bound_of`](crate::gift_bound_of). `NoMemory` only where no memory is
/// found.
pub fn moment_bound_of(
    alloc: Global,
    instance: &Instance,
    windows: &Windows,
    points: &Points,
    sides: &[Side],
    tables: &[Table],
    spans: &[Span],
    gifts: &[Gift],
    price: LeafPrice,
) -> Result<Option<LeafBound>, NoMemory>
    requires fits { FitsInstance instance.now windows.now }
    requires terminals { points.now.terminals ≡ length instance.now.terminals }
    requires few { points.now.terminals + length points.now.first + length points.now.added ≤ MOST_POINTS }
    requires prices { ArePrices instance.now tables.now spans.now price.kind }
    requires gifts { AreGifts instance.now gifts.now }
    ensures exact { IfOk result (IsMomentBound instance.now (windows_in windows.now)
        (λ terminal. points_at points.now terminal price.round) sides.now tables.now spans.now gifts.now price.kind price.forced) }
    ensures small { IfOk result (λ found. IfSome found IsSmallGiftBound) }
{
    let network = RoundNetwork::of(alloc, instance, points, price.round)?;
    let narrower = narrower_windows(alloc, instance, windows, network.network(), sides)?;
    let leaf = Leaf::of(alloc, &network, &narrower, sides)?;
    match gift_bound(alloc, &leaf, tables, spans, gifts, price.kind, price.forced)? {
        Some(LeafBound::Value { value }) => {
            let pay = charged_pay(alloc, &leaf, points, price.round, spans, price.forced)?;
            if pay {
                Ok(Some(LeafBound::Value { value }))
            } else {
                Ok(None)
            }
        }
        Some(LeafBound::Empty { shipment }) => Ok(Some(LeafBound::Empty { shipment })),
        None => Ok(None),
    }
}
