//! Classes that a shipment uses in no plan of a leaf that costs less than an amount, under prices with gifts.
ghost use Rattle.std.specs.Prelude.{ℕ, ◌≡◌, ◌+◌, ◌≤◌, ◌^◌, IfOk, IfSome, MatchOption};
ghost use Rattle.fp_flatnet.specs.Tables.{windows_in};
ghost use Rattle.fp_longestarcs.specs.Networks.{points_in};
ghost use Rattle.fp_prices.specs.Tables.{AreTables, HasKind};
ghost use Rattle.fp_prices_spans.specs.SpanLists.{AreSpans};
ghost use Rattle.fp_prices_gifts.specs.Gifts.{AreGifts};
ghost use Rattle.fp_prices_gifts.specs.GiftBars.{AreGiftBars};
ghost use Rattle.fp_prices_gifts.specs.GiftLeaves.{AreGiftTotals, IsPlain};

use crate::NoMemory;
use crate::leaf_runs::span_bars;
use crate::limits::BarLimit;
use crate::price_parts::PriceParts;
use fp_prices::Leaf;
use fp_prices_gifts::{Gift, gift_totals, is_plain};
use fp_tree::Side;
use std::alloc::Global;

// From which value by spans on a class is barred, with what gifts give, if the leaf is priced by them.
fn limit_with(leaf: &Leaf, gifts: &[Gift], forced: bool, money: u128) -> Option<BarLimit>
    requires { AreGifts leaf.now.setting.problem gifts.now }
    ensures exact { MatchOption result
        ((least most : ℕ) → IsPlain gifts.now forced → AreGiftTotals leaf.now.setting.problem (points_in leaf.now.setting.network) leaf.now.sides gifts.now least most → ⊥)
        (λ limit. IsPlain gifts.now forced × AreGiftTotals leaf.now.setting.problem (points_in leaf.now.setting.network) leaf.now.sides gifts.now limit.more limit.less) }
    ensures money { IfSome result (λ limit. limit.money ≡ money) }
    ensures small { IfSome result (λ limit. limit.more ≤ 2 ^ 122) }
{
    let round = leaf.round();
    if !is_plain(gifts, forced) {
        return None;
    }
    let (more, less) = gift_totals(round.instance(), round.network(), leaf.sides(), gifts)?;
    Some(BarLimit { more, less, money })
}

/// The classes that are barred at a leaf under prices with gifts, as sides that bar runs of them: for each
/// shipment those that are allowed for it and that no walk of it has by the leaf's heads, or where the leaf's
/// value with the shipment made to go by the class, in whole units of money, rounded up, is at least `money`.
///
/// They are found as [`span_bars`](crate::span_bars) finds them, over the values with what the gifts
/// give. Nothing is barred where the leaf has no value, as [`gift_bound`](fp_prices_gifts::gift_bound) tells.
///
/// So where spans and gifts keep their rules, the plans of the leaf that cost less than `money` obey these
/// sides. The conditions are those of [`gift_bound`](fp_prices_gifts::gift_bound); the round of the price isn't read.
/// `NoMemory` only where no memory is found.
pub fn gift_bars(
    alloc: Global,
    leaf: &Leaf,
    parts: &PriceParts<'_>,
    money: u128,
) -> Result<Vec<Side>, NoMemory>
    requires tables { AreTables leaf.now.setting.problem parts.now.tables.now }
    requires kind { HasKind parts.now.tables.now parts.now.price.kind }
    requires spans { AreSpans leaf.now.setting.problem parts.now.spans.now }
    requires gifts { AreGifts leaf.now.setting.problem parts.now.gifts.now }
    ensures { IfOk result (λ bars. AreGiftBars leaf.now.setting.problem (windows_in leaf.now.setting.windows)
        (points_in leaf.now.setting.network) leaf.now.sides parts.now.tables.now parts.now.spans.now parts.now.gifts.now
        parts.now.price.kind parts.now.price.forced money bars.items) }
{
    let price = parts.price;
    match limit_with(leaf, parts.gifts, price.forced, money) {
        Some(limit) => span_bars(
            alloc,
            leaf,
            parts.tables,
            parts.spans,
            price.kind,
            price.forced,
            limit,
        ),
        None => Ok(Vec::new(alloc)),
    }
}
