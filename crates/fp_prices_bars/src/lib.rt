//! Bars: classes that a shipment uses in no plan of a leaf that costs less than an amount, as sides.
//!
//! Where the value of a leaf with a shipment made to go by a class is worth an amount, no plan of the leaf
//! that costs less has the shipment go by the class. What a class is, and what a leaf is worth, stands in
//! fp_prices_spans and fp_prices_gifts; bars are this project's own.
#![tactic(auto)]

mod bar_runs;
mod bar_tests;
mod leaf_bars;
mod leaf_runs;
mod leaf_values;
mod limits;
mod price_parts;
mod round_bars;
mod through_costs;

pub use leaf_bars::gift_bars;
pub use leaf_runs::span_bars;
pub use limits::BarLimit;
pub use price_parts::PriceParts;
pub use round_bars::{gift_bars_of, moment_bars_of};

/// The error of a call that finds no memory.
pub type NoMemory = std::alloc::AllocError;
