//! What a leaf is worth by spans.
pub(crate) mod class_ranges;
pub(crate) mod leaf_bases;
pub(crate) mod leaf_charges;
pub(crate) mod paid_leaves;
pub(crate) mod rounds;
pub(crate) mod span_bounds;
pub(crate) mod span_costs;
pub(crate) mod span_prices;
pub(crate) mod spanned_rows;
