//! What a leaf is priced by.
use fp_prices::{LeafPrice, Table};
use fp_prices_gifts::Gift;
use fp_prices_spans::Span;

/// What a leaf is priced by: tables, the spans and the gifts beside the one that the price names, and the
/// price.
#[derive(Clone, Copy)]
pub struct PriceParts<'a> {
    pub tables: &'a [Table],
    pub spans: &'a [Span],
    pub gifts: &'a [Gift],
    pub price: LeafPrice,
}
