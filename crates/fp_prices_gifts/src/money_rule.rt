//! Tests the money rule of spans and gifts together.
ghost use Rattle.std.specs.Prelude.{◌<◌, ◌↔◌, All, IsTrue, MatchOption, length};
ghost use Rattle.fp_prices_gifts.specs.declared.gifts.Gift.{Gift};
ghost use Rattle.fp_prices_gifts.specs.Gifts.{IsGiftFault, IsGiftList, KeepMoneyRule, KeepsAt, KeepsAtEnds, gift_total};
ghost use Rattle.fp_prices_spans.specs.Spans.{ClassSpan};

use crate::gifts::{Gift, MOST_GIFTS};
use crate::truck_sums::{are_light, is_held, least_given, money_within, most_given};
use fp_model::{Instance, Leg};
use fp_prices_spans::Span;

/// The first rule that gifts break beside spans.
#[derive(Clone, Copy, PartialEq, Eq, Debug)]
pub enum GiftFault {
    /// Their amounts come together to [`MOST_GIFTS`] or more.
    Amounts,
    /// For a truck of some class, the most that shipments pay and what is given because at least so
    /// many leave are more than what the truck costs and what is given because at most so many leave.
    Money,
}

// Whether the money rule holds at a class.
fn keeps_at(instance: &Instance, spans: &[Span], gifts: &[Gift], class: Leg) -> bool
    requires arc { class.arc < length instance.now.arcs }
    requires light { gift_total gifts.now < MOST_GIFTS }
    ensures { IsTrue result ↔ KeepsAt instance.now spans.now gifts.now class }
{
    let least = least_given(gifts, class);
    let most = most_given(gifts, class);
    let truck = u128::from(instance.scale()) * u128::from(instance.arc(class.arc).truck);
    match (truck + most).checked_sub(least) {
        None => false,
        Some(limit) => {
            if is_held(spans, class) {
                money_within(spans, class, limit)
            } else {
                truck <= limit
            }
        }
    }
}

// Whether it holds at the class of an arc from 0 on, and where a run of the arc begins and ends.
fn keeps_at_ends(
    instance: &Instance,
    spans: &[Span],
    gifts: &[Gift],
    arc: u32,
    ends: (u32, u32),
) -> bool
    requires arc { arc < length instance.now.arcs }
    requires light { gift_total gifts.now < MOST_GIFTS }
    ensures { IsTrue result ↔ KeepsAtEnds instance.now spans.now gifts.now arc ends.0 ends.1 }
{
    let (point, until) = ends;
    keeps_at(instance, spans, gifts, Leg { arc, depart: 0 })
        && keeps_at(instance, spans, gifts, Leg { arc, depart: point })
        && keeps_at(instance, spans, gifts, Leg { arc, depart: until })
}

// Whether it holds so at the ends of all spans.
fn keep_at_span_ends(instance: &Instance, spans: &[Span], gifts: &[Gift]) -> bool
    requires spans { All (λ (span : ClassSpan). span.arc < length instance.now.arcs) spans.now }
    requires light { gift_total gifts.now < MOST_GIFTS }
    ensures { IsTrue result ↔ All (λ (span : ClassSpan). KeepsAtEnds instance.now spans.now gifts.now span.arc span.point span.until) spans.now }
{
    for span in spans {
        if !keeps_at_ends(instance, spans, gifts, span.arc, (span.point, span.until)) {
            return false;
        }
    }
    true
}

// Whether it holds so at the ends of all runs of gifts.
fn keep_at_gift_ends(instance: &Instance, spans: &[Span], gifts: &[Gift]) -> bool
    requires gifts { All (λ (gift : Gift). gift.arc < length instance.now.arcs) gifts.now }
    requires light { gift_total gifts.now < MOST_GIFTS }
    ensures { IsTrue result ↔ All (λ (gift : Gift). KeepsAtEnds instance.now spans.now gifts.now gift.arc gift.point gift.until) gifts.now }
{
    for gift in gifts {
        if !keeps_at_ends(instance, spans, gifts, gift.arc, (gift.point, gift.until)) {
            return false;
        }
    }
    true
}

// Whether spans and gifts keep the money rule. It is tested where runs of an arc begin and end, and at
// its class from 0 on: at every other class of the arc it is as at the last of these before it.
fn keep_rule(instance: &Instance, spans: &[Span], gifts: &[Gift]) -> bool
    requires spans { All (λ (span : ClassSpan). span.arc < length instance.now.arcs) spans.now }
    requires gifts { All (λ (gift : Gift). gift.arc < length instance.now.arcs) gifts.now }
    requires light { gift_total gifts.now < MOST_GIFTS }
    ensures { IsTrue result ↔ KeepMoneyRule instance.now spans.now gifts.now }
{
    keep_at_span_ends(instance, spans, gifts) && keep_at_gift_ends(instance, spans, gifts)
}

/// The first rule that gifts break beside spans, `None` exactly where their amounts come together to
/// less than [`MOST_GIFTS`], and for a truck of each class the most that shipments pay, which is the
/// money of the spans that hold for it or else what the truck costs, and what is given because at least
/// so many leave are together at most what the truck costs and what is given because at most so many
/// leave.
///
/// Without gifts this is the money rule of spans. Spans and gifts are of arcs that exist; the money of
/// spans may be any numbers. Takes no memory, and time in the square of the number of both.
pub fn check_gifts(instance: &Instance, spans: &[Span], gifts: &[Gift]) -> Option<GiftFault>
    requires spans { All (λ (span : ClassSpan). span.arc < length instance.now.arcs) spans.now }
    requires gifts { All (λ (gift : Gift). gift.arc < length instance.now.arcs) gifts.now }
    ensures { MatchOption result (IsGiftList instance.now spans.now gifts.now) (IsGiftFault instance.now spans.now gifts.now) }
{
    if !are_light(gifts) {
        return Some(GiftFault::Amounts);
    }
    if !keep_rule(instance, spans, gifts) {
        return Some(GiftFault::Money);
    }
    None
}
