//! What a leaf is worth with gifts.
ghost use Rattle.std.specs.Prelude.{ℕ, ◌≡◌, ◌+◌, ◌*◌, ◌<◌, ◌≤◌, ◌^◌, All, IfSome, MatchOption, length};
ghost use Rattle.fp_longestarcs.specs.Networks.{points_in};
ghost use Rattle.fp_longestarcs.specs.Whole.{IsWholeNetwork};
ghost use Rattle.fp_prices_gifts.specs.declared.gifts.Gift.{Gift};
ghost use Rattle.fp_prices_gifts.specs.Gifts.{gift_total};
ghost use Rattle.fp_prices_gifts.specs.GiftLeaves.{AreGiftTotals, IsGiven};

use crate::gifts::{Gift, MOST_GIFTS};
use crate::numbers::gift_number;
use crate::runs::ends_at_points;
use fp_longestarcs::Network;
use fp_model::Instance;
use fp_tree::Side;

/// What gifts give at a leaf: because at least so many trucks leave, and because at most so many leave.
/// A gift counts once for each of the trucks that the sides tell; both together are at most 2^122.
///
/// `None` exactly where the leaf isn't priced by the gifts, on the conditions of [`gift_value`]. Takes no
/// memory.
pub fn gift_totals(
    instance: &Instance,
    network: &Network,
    sides: &[Side],
    gifts: &[Gift],
) -> Option<(u128, u128)>
    requires whole { IsWholeNetwork instance.now network.now }
    requires arcs { All (λ (gift : Gift). gift.arc < length instance.now.arcs) gifts.now }
    requires light { gift_total gifts.now < MOST_GIFTS }
    ensures exact { MatchOption result ((least most : ℕ) → AreGiftTotals instance.now (points_in network.now) sides.now gifts.now least most → ⊥)
        (λ totals. AreGiftTotals instance.now (points_in network.now) sides.now gifts.now totals.0 totals.1) }
    ensures small { IfSome result (λ totals. totals.0 + totals.1 ≤ 2 ^ 122) }
{
    let mut least: u128 = 0;
    let mut most: u128 = 0;
    for place in (0..gifts.len()).rev() {
        let gift = gifts[place];
        if !ends_at_points(instance, network, gift) {
            return None;
        }
        let given = gift.amount * u128::from(gift_number(sides, gift)?);
        if gift.least {
            least += given;
        } else {
            most += given;
        }
    }
    Some((least, most))
}

/// The value of a leaf with gifts, where its value by spans is known: what is given because at least
/// so many trucks leave is added, and what is given because at most so many leave is taken off, and
/// the value is at least 0; it is at most 2^122 more than that by spans. A gift counts once for each of the trucks that the sides tell.
///
/// `None` exactly where the leaf isn't priced by the gifts: a run of one doesn't begin at a point of its
/// arc's tail or ends neither at one nor after all due times, or no side is of its arc and its times.
/// The network is the leaf's, whole for the instance, the gifts are of arcs that exist, and their
/// amounts come together to less than [`MOST_GIFTS`]. Takes no memory, and time in the number of gifts
/// times that of sides.
pub fn gift_value(
    instance: &Instance,
    network: &Network,
    sides: &[Side],
    gifts: &[Gift],
    value: u128,
) -> Option<u128>
    requires whole { IsWholeNetwork instance.now network.now }
    requires arcs { All (λ (gift : Gift). gift.arc < length instance.now.arcs) gifts.now }
    requires light { gift_total gifts.now < MOST_GIFTS }
    requires small { value + 2 ^ 122 < 2 ^ 128 }
    ensures exact { MatchOption result ((v : ℕ) → IsGiven instance.now (points_in network.now) sides.now gifts.now value v → ⊥)
        (IsGiven instance.now (points_in network.now) sides.now gifts.now value) }
    ensures small { IfSome result (λ v. v ≤ value + 2 ^ 122) }
{
    let (least, most) = gift_totals(instance, network, sides, gifts)?;
    Some((value + least).saturating_sub(most))
}
