//! The ascent over the prices of spans: by an averaged direction, and by passes over the shipments.
pub(crate) mod exact_ascent;
pub(crate) mod gift_lines;
pub(crate) mod subgradients;
