//! What a leaf is worth by spans and gifts.

use fp_prices_gifts::Gift;
use fp_prices_spans::Span;

/// Spans and gifts, and what a leaf is worth by them in the mode plain, where classes for which no
/// span holds have linear prices. The value counts parts of a unit of money, of which the instance's
/// scale makes one.
#[derive(Drop)]
pub struct SpanPrice {
    pub spans: Vec<Span>,
    pub gifts: Vec<Gift>,
    pub value: u128,
}
