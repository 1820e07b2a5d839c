//! What spans and gifts have for a truck of a class.
ghost use Rattle.std.specs.Prelude.{◌≡◌, ◌<◌, ◌≤◌, ◌&&◌, ◌↔◌, IsTrue, not, if◌then◌else◌};
ghost use Rattle.fp_prices_gifts.specs.Gifts.{gift_total, gives_at as gives_at_class, least_at, most_at};
ghost use Rattle.fp_prices_spans.specs.SpanPrices.{holds as holds_for, is_held as is_held_by, money_at};

use crate::gifts::{Gift, MOST_GIFTS};
use fp_model::Leg;
use fp_prices_spans::Span;

// Whether a span holds for a class.
fn holds(span: &Span, class: Leg) -> bool
    ensures { result ≡ holds_for span.now class }
{
    span.arc == class.arc && (span.point <= class.depart && class.depart < span.until)
}

// The money that a span has for a truck of a class.
fn money_of(span: &Span, class: Leg) -> u128
    ensures { result ≡ (if holds_for span.now class then span.now.money else 0) }
{
    if holds(span, class) { span.money } else { 0 }
}

/// Whether some span holds for a class.
pub(crate) fn is_held(spans: &[Span], class: Leg) -> bool
    ensures { result ≡ is_held_by spans.now class }
{
    for span in spans {
        if holds(span, class) {
            return true;
        }
    }
    false
}

/// Whether the money of the spans that hold for a class is within a limit. It may be any numbers.
pub(crate) fn money_within(spans: &[Span], class: Leg, limit: u128) -> bool
    ensures { IsTrue result ↔ (money_at spans.now class ≤ limit) }
{
    let mut left = limit;
    for span in spans {
        match left.checked_sub(money_of(span, class)) {
            Some(rest) => left = rest,
            None => return false,
        }
    }
    true
}

// Whether the run of a gift has a class.
fn gives_at(gift: Gift, class: Leg) -> bool
    ensures { result ≡ gives_at_class gift class }
{
    gift.arc == class.arc && (gift.point <= class.depart && class.depart < gift.until)
}

// What a gift gives for a truck of a class because at least so many leave.
fn least_of(gift: Gift, class: Leg) -> u128
    ensures { result ≡ (if gift.least && gives_at_class gift class then gift.amount else 0) }
{
    if gift.least && gives_at(gift, class) {
        gift.amount
    } else {
        0
    }
}

// What a gift gives for a truck of a class because at most so many leave.
fn most_of(gift: Gift, class: Leg) -> u128
    ensures { result ≡ (if not gift.least && gives_at_class gift class then gift.amount else 0) }
{
    if !gift.least && gives_at(gift, class) {
        gift.amount
    } else {
        0
    }
}

/// What is given for a truck of a class because at least so many leave.
pub(crate) fn least_given(gifts: &[Gift], class: Leg) -> u128
    requires { gift_total gifts.now < MOST_GIFTS }
    ensures exact { result ≡ least_at gifts.now class }
    ensures light { result < MOST_GIFTS }
{
    let mut sum = 0;
    for gift in gifts {
        sum += least_of(*gift, class);
    }
    sum
}

/// What is given for a truck of a class because at most so many leave.
pub(crate) fn most_given(gifts: &[Gift], class: Leg) -> u128
    requires { gift_total gifts.now < MOST_GIFTS }
    ensures exact { result ≡ most_at gifts.now class }
    ensures light { result < MOST_GIFTS }
{
    let mut sum = 0;
    for gift in gifts {
        sum += most_of(*gift, class);
    }
    sum
}

/// Whether the amounts of gifts come together to less than the limit. They may be any numbers.
pub(crate) fn are_light(gifts: &[Gift]) -> bool
    ensures { IsTrue result ↔ (gift_total gifts.now < MOST_GIFTS) }
{
    let mut left = MOST_GIFTS - 1;
    for gift in gifts {
        match left.checked_sub(gift.amount) {
            Some(rest) => left = rest,
            None => return false,
        }
    }
    true
}
