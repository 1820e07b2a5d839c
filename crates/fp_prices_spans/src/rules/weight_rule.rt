//! Whether the weights of spans are light enough for sums of prices.
ghost use Rattle.std.specs.Prelude.{◌≡◌, ◌+◌, ◌<◌, ◌↔◌, IsTrue, MatchOption, sum_by};
ghost use Rattle.fp_prices.specs.declared.tables.Weight.{Weight};
ghost use Rattle.fp_prices_spans.specs.SpanLists.{weight_total};

use crate::spans::{MOST_SPAN_WEIGHT, Span};
use fp_prices::Weight;

// What weights leave of a number, `None` where they are more. No sum is made, so they may be any
// numbers.
fn left_by(number: u128, weights: &[Weight]) -> Option<u128>
    ensures { MatchOption result (number < sum_by (λ (w : Weight). w.w) weights.now)
        (λ left. left + sum_by (λ (w : Weight). w.w) weights.now ≡ number) }
{
    let mut left = number;
    for weight in weights {
        match left.checked_sub(weight.w) {
            Some(rest) => left = rest,
            None => return None,
        }
    }
    Some(left)
}

// Whether the weights of all spans come together to less than the limit.
pub(crate) fn are_light(spans: &[Span]) -> bool
    ensures { IsTrue result ↔ (weight_total spans.now < MOST_SPAN_WEIGHT) }
{
    let mut left = MOST_SPAN_WEIGHT - 1;
    for span in spans {
        match left_by(left, &span.weights) {
            Some(rest) => left = rest,
            None => return false,
        }
    }
    true
}
