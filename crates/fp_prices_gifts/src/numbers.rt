//! For how many trucks a gift is given at a leaf.
ghost use Rattle.std.specs.Prelude.{◌≡◌, ◌≤◌, ◌^◌, IfSome};
ghost use Rattle.fp_prices_gifts.specs.GiftNumbers.{better as better_of, gift_number as gift_number_of, number_by as number_by_side};

use crate::gifts::Gift;
use fp_tree::Side;

// How many trucks a side tells a gift, if it is one of the gift's arc and times, and of its kind.
fn number_by(gift: Gift, side: Side) -> Option<u64>
    ensures exact { result ≡ number_by_side gift side }
    ensures small { IfSome result (λ n. n ≤ 2 ^ 32) }
{
    match side {
        Side::AtMost {
            arc,
            point,
            until,
            trucks,
        } => {
            if !gift.least && gift.arc == arc && gift.point == point && gift.until == until {
                Some(u64::from(trucks))
            } else {
                None
            }
        }
        Side::MoreThan {
            arc,
            point,
            until,
            trucks,
        } => {
            if gift.least && gift.arc == arc && gift.point == point && gift.until == until {
                Some(u64::from(trucks) + 1)
            } else {
                None
            }
        }
        _ => None,
    }
}

// The greater one of two numbers, where they are of at least so many trucks, and else the less; the
// one that there is, where there is one.
fn better(least: bool, first: Option<u64>, second: Option<u64>) -> Option<u64>
    requires first { IfSome first (λ n. n ≤ 2 ^ 32) }
    requires second { IfSome second (λ n. n ≤ 2 ^ 32) }
    ensures exact { result ≡ better_of least first second }
    ensures small { IfSome result (λ n. n ≤ 2 ^ 32) }
{
    match (first, second) {
        (Some(one), Some(other)) => Some(if least {
            one.max(other)
        } else {
            one.min(other)
        }),
        (Some(one), None) => Some(one),
        (None, other) => other,
    }
}

/// For how many trucks a gift is given under sides: of the sides of exactly its arc and its times, with
/// `least` one more than the most that any of them names that more are to leave than, and otherwise
/// the fewest that any of them names as the most that are to leave. `None` exactly where there is no
/// such side: then the leaf isn't priced by the gift.
pub fn gift_number(sides: &[Side], gift: Gift) -> Option<u64>
    ensures exact { result ≡ gift_number_of sides.now gift }
    ensures small { IfSome result (λ n. n ≤ 2 ^ 32) }
{
    let mut number = None;
    for place in (0..sides.len()).rev() {
        number = better(gift.least, number_by(gift, sides[place]), number);
    }
    number
}
