//! The prices of a search: tables, the spans and the gifts beside each, and a unit; and how the price
//! of a leaf is improved by all of these.
//!
//! Prices are multipliers in the sense of Lagrangian relaxation (A. M. Geoffrion, "Lagrangean
//! relaxation for integer programming", Mathematical Programming Study 2, 1974). Those by spans
//! share out whole trucks and not parts of them, so they reach bounds that no table of shares does.
//! What is found is proved: what a leaf is worth by a price is exact, and no plan of it costs less.
//! How good the prices are isn't promised.
#![tactic(auto)]

mod efforts;
mod laws;
mod leaf_spans;
mod prices;
mod pricing;
mod roots;
mod span_prices;
mod span_tests;
mod steady_prices;
mod steady_tables;
mod trials;
mod uses;
mod walks;

pub use efforts::PriceEffort;
pub use laws::price_lines_are_written;
pub use prices::Prices;
pub use pricing::{Improvement, Worth, bound_by, improve};
pub use roots::improve_root;
pub use span_prices::SpanPrice;
pub use steady_prices::steady_price;
pub use trials::promised_value;
pub use uses::{LeafUses, leaf_uses};
pub use walks::walks_by_spans;

/// The error of a call that finds no memory.
pub type NoMemory = std::alloc::AllocError;
