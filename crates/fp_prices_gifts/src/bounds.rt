//! The bound of a leaf under prices with gifts.
ghost use Rattle.std.specs.Prelude.{ℕ, ◌≡◌, ◌+◌, ◌*◌, ◌≤◌, ◌^◌, ◌↔◌, IfOk, IfSome, IsTrue, List, MatchOption, length};
ghost use Rattle.fp_model.specs.Problem.{IsValid};
ghost use Rattle.fp_flatnet.specs.Belonging.{FitsInstance};
ghost use Rattle.fp_flatnet.specs.Tables.{windows_in};
ghost use Rattle.fp_timenodes.specs.Points.{points_at};
ghost use Rattle.fp_longestarcs.specs.Networks.{points_in};
ghost use Rattle.fp_prices.specs.Leaves.{BoundsPlans};
ghost use Rattle.fp_prices.specs.Tables.{AreTables, HasKind};
ghost use Rattle.fp_prices_spans.specs.MomentRuns.{AreAmong};
ghost use Rattle.fp_prices_spans.specs.SpanLists.{AreSpans};
ghost use Rattle.fp_prices_spans.specs.SpanPricings.{ArePrices};
ghost use Rattle.fp_prices_gifts.specs.Gifts.{AreGifts};
ghost use Rattle.fp_prices_gifts.specs.GiftLeaves.{IsGiftBound, IsGiven, IsPlain, IsSmallGiftBound, KeepGiftRules};

use crate::NoMemory;
use crate::gifts::Gift;
use crate::values::gift_value;
use fp_flatnet::Windows;
use fp_model::Instance;
use fp_prices::{Kind, Leaf, LeafBound, LeafPrice, RoundNetwork, Table};
use fp_prices_spans::{Span, span_bound};
use fp_timenodes::{MOST_POINTS, Points};
use fp_tree::Side;
use std::alloc::Global;

/// Whether there are no gifts, or forced classes aren't paid whole.
pub fn is_plain(gifts: &[Gift], forced: bool) -> bool
    ensures { IsTrue result ↔ IsPlain gifts.now forced }
{
    gifts.is_empty() || !forced
}

// What gifts make of a leaf's value by spans, if the leaf is priced by them.
fn value_with(leaf: &Leaf, gifts: &[Gift], forced: bool, value: u128) -> Option<u128>
    requires gifts { AreGifts leaf.now.setting.problem gifts.now }
    requires small { value ≤ 2 ^ 127 + 2 ^ 125 }
    ensures valid { IsValid leaf.now.setting.problem }
    ensures exact { MatchOption result
        ((v : ℕ) → IsPlain gifts.now forced → IsGiven leaf.now.setting.problem (points_in leaf.now.setting.network) leaf.now.sides gifts.now value v → ⊥)
        (λ v. IsPlain gifts.now forced × IsGiven leaf.now.setting.problem (points_in leaf.now.setting.network) leaf.now.sides gifts.now value v) }
    ensures small { IfSome result (λ v. v ≤ value + 2 ^ 122) }
{
    let round = leaf.round();
    let instance = round.instance();
    if !is_plain(gifts, forced) {
        return None;
    }
    gift_value(instance, round.network(), leaf.sides(), gifts, value)
}

/// The bound of a leaf under prices with gifts: its bound by spans, as
/// [`span_bound`](fp_prices_spans::span_bound) finds it, with what the gifts give. `None` exactly where
/// the leaf isn't empty by its heads and ways and isn't priced by the gifts: there are some and forced classes
/// are paid whole, the run of one doesn't begin at a point of its arc's tail or ends neither at one nor
/// after all due times, or no side of the leaf is of its arc, its times and its kind.
///
/// Where spans and gifts keep the money rule together, as [`check_gifts`](crate::check_gifts) finds,
/// and the spans keep the set rule by these windows and by first points that are all points of the
/// leaf's network, the scale times the cost of each plan of the leaf is at least the value, over every
/// denominator, and an empty leaf has no plan. The value counts parts of a unit of money; it is at most
/// that by spans and 2^122, so it's below 2^128.
///
/// The conditions are those of the bound by spans; the gifts are of arcs that exist, and their amounts
/// come together to less than [`MOST_GIFTS`](crate::MOST_GIFTS). `NoMemory` only where no memory is
/// found.
pub fn gift_bound(
    alloc: Global,
    leaf: &Leaf,
    tables: &[Table],
    spans: &[Span],
    gifts: &[Gift],
    kind: Kind,
    forced: bool,
) -> Result<Option<LeafBound>, NoMemory>
    requires tables { AreTables leaf.now.setting.problem tables.now }
    requires kind { HasKind tables.now kind }
    requires spans { AreSpans leaf.now.setting.problem spans.now }
    requires gifts { AreGifts leaf.now.setting.problem gifts.now }
    ensures exact { IfOk result (IsGiftBound leaf.now.setting.problem (windows_in leaf.now.setting.windows)
        (points_in leaf.now.setting.network) leaf.now.sides tables.now spans.now gifts.now kind forced) }
    ensures plans { (first : ℕ → List ℕ) → AreAmong leaf.now.setting.problem first (points_in leaf.now.setting.network) →
        KeepGiftRules leaf.now.setting.problem (windows_in leaf.now.setting.windows) first spans.now gifts.now →
        IfOk result (λ found. IfSome found (BoundsPlans leaf.now.setting.problem (windows_in leaf.now.setting.windows) leaf.now.sides)) }
    ensures small { IfOk result (λ found. IfSome found IsSmallGiftBound) }
{
    match span_bound(alloc, leaf, tables, spans, kind, forced)? {
        LeafBound::Empty { shipment } => Ok(Some(LeafBound::Empty { shipment })),
        LeafBound::Value { value } => match value_with(leaf, gifts, forced, value) {
            Some(value) => Ok(Some(LeafBound::Value { value })),
            None => Ok(None),
        },
    }
}

/// The bound of the leaf under sides, with the points as of the price's round, as [`gift_bound`] finds
/// it, on the same conditions.
///
/// The windows fit the instance, and the points have its terminals; the terminals, the first points and the added
/// points are together at most [`MOST_POINTS`].
pub fn gift_bound_of(
    alloc: Global,
    instance: &Instance,
    windows: &Windows,
    points: &Points,
    sides: &[Side],
    tables: &[Table],
    spans: &[Span],
    gifts: &[Gift],
    price: LeafPrice,
) -> Result<Option<LeafBound>, NoMemory>
    requires fits { FitsInstance instance.now windows.now }
    requires terminals { points.now.terminals ≡ length instance.now.terminals }
    requires few { points.now.terminals + length points.now.first + length points.now.added ≤ MOST_POINTS }
    requires prices { ArePrices instance.now tables.now spans.now price.kind }
    requires gifts { AreGifts instance.now gifts.now }
    ensures exact { IfOk result (IsGiftBound instance.now (windows_in windows.now)
        (λ terminal. points_at points.now terminal price.round) sides.now tables.now spans.now gifts.now price.kind price.forced) }
    ensures small { IfOk result (λ found. IfSome found IsSmallGiftBound) }
{
    let network = RoundNetwork::of(alloc, instance, points, price.round)?;
    let leaf = Leaf::of(alloc, &network, windows, sides)?;
    gift_bound(alloc, &leaf, tables, spans, gifts, price.kind, price.forced)
}
