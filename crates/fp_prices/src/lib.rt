//! Prices of the classes of a time-expanded network, and what a leaf of a search is worth under
//! them: a number under which no plan of the leaf costs, with departures in any fraction of the
//! unit.
//!
//! Each class, a timed arc of Boland, Hewitt, Marshall and Savelsbergh, "The Continuous-Time
//! Service Network Design Problem", Operations Research 65, 2017, shares out the cost of its trucks
//! among the shipments that may use it, in parts of a unit of money of which the instance's scale
//! makes one. Then each shipment goes its own cheapest way.
#![tactic(auto)]

mod classes;
mod graphs;
mod laws;
mod leaf_prices;
mod price_rule;
mod tables;
mod values;

pub use graphs::class_walks::class_walk;
pub use laws::{leaf_windows_keep_plans, leaves_bound_plans, leaves_have_one_value};
pub use leaf_prices::{Kind, LeafPrice};
pub use price_rule::check_tables;
pub use tables::{Share, Table, TableFault, Weight};
pub use values::bounds::{LeafBound, bound};
pub use values::leaf_pricings::LeafPricing;
pub use values::leaves::Leaf;
pub use values::round_bounds::RoundBounds;
pub use values::rounds::RoundNetwork;

/// The error of a call that finds no memory.
pub type NoMemory = std::alloc::AllocError;
