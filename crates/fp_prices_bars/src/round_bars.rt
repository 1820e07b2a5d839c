//! The bars of a leaf that is told by windows, points, sides and a price with its round.
ghost use Rattle.std.specs.Prelude.{◌≡◌, ◌+◌, ◌≤◌, IfOk, length};
ghost use Rattle.fp_flatnet.specs.Belonging.{FitsInstance};
ghost use Rattle.fp_flatnet.specs.Tables.{windows_in};
ghost use Rattle.fp_timenodes.specs.Points.{points_at};
ghost use Rattle.fp_prices_spans.specs.SpanPricings.{ArePrices};
ghost use Rattle.fp_prices_gifts.specs.Gifts.{AreGifts};
ghost use Rattle.fp_prices_gifts.specs.GiftBars.{AreGiftBars, AreMomentBars};

use crate::NoMemory;
use crate::leaf_bars::gift_bars;
use crate::price_parts::PriceParts;
use fp_flatnet::Windows;
use fp_model::Instance;
use fp_prices::{Leaf, RoundNetwork};
use fp_prices_gifts::narrower_windows;
use fp_prices_spans::charged_pay;
use fp_timenodes::{MOST_POINTS, Points};
use fp_tree::Side;
use std::alloc::Global;

/// The bars of the leaf under sides, with the points as of the price's round, as [`gift_bars`] finds them, on
/// the conditions of [`gift_bound_of`](fp_prices_gifts::gift_bound_of).
pub fn gift_bars_of(
    alloc: Global,
    instance: &Instance,
    windows: &Windows,
    points: &Points,
    sides: &[Side],
    parts: &PriceParts<'_>,
    money: u128,
) -> Result<Vec<Side>, NoMemory>
    requires fits { FitsInstance instance.now windows.now }
    requires terminals { points.now.terminals ≡ length instance.now.terminals }
    requires few { points.now.terminals + length points.now.first + length points.now.added ≤ MOST_POINTS }
    requires prices { ArePrices instance.now parts.now.tables.now parts.now.spans.now parts.now.price.kind }
    requires gifts { AreGifts instance.now parts.now.gifts.now }
    ensures { IfOk result (λ bars. AreGiftBars instance.now (windows_in windows.now)
        (λ terminal. points_at points.now terminal parts.now.price.round) sides.now parts.now.tables.now parts.now.spans.now
        parts.now.gifts.now parts.now.price.kind parts.now.price.forced money bars.items) }
{
    let network = RoundNetwork::of(alloc, instance, points, parts.price.round)?;
    let leaf = Leaf::of(alloc, &network, windows, sides)?;
    gift_bars(alloc, &leaf, parts, money)
}

/// The bars of the leaf under sides by moments: as [`gift_bars_of`] finds them, but over the windows that the
/// sides narrow. Nothing is barred where the leaf has no value by moments, as
/// [`moment_bound_of`](fp_prices_gifts::moment_bound_of) tells, and so also where a span that is charged there doesn't pay.
pub fn moment_bars_of(
    alloc: Global,
    instance: &Instance,
    windows: &Windows,
    points: &Points,
    sides: &[Side],
    parts: &PriceParts<'_>,
    money: u128,
) -> Result<Vec<Side>, NoMemory>
    requires fits { FitsInstance instance.now windows.now }
    requires terminals { points.now.terminals ≡ length instance.now.terminals }
    requires few { points.now.terminals + length points.now.first + length points.now.added ≤ MOST_POINTS }
    requires prices { ArePrices instance.now parts.now.tables.now parts.now.spans.now parts.now.price.kind }
    requires gifts { AreGifts instance.now parts.now.gifts.now }
    ensures { IfOk result (λ bars. AreMomentBars instance.now (windows_in windows.now)
        (λ terminal. points_at points.now terminal parts.now.price.round) sides.now parts.now.tables.now parts.now.spans.now
        parts.now.gifts.now parts.now.price.kind parts.now.price.forced money bars.items) }
{
    let price = parts.price;
    let network = RoundNetwork::of(alloc, instance, points, price.round)?;
    let narrower = narrower_windows(alloc, instance, windows, network.network(), sides)?;
    let leaf = Leaf::of(alloc, &network, &narrower, sides)?;
    if charged_pay(alloc, &leaf, points, price.round, parts.spans, price.forced)? {
        gift_bars(alloc, &leaf, parts, money)
    } else {
        Ok(Vec::new(alloc))
    }
}
