//! What the sets of some items weigh at most beside the money for their trucks: the textbook
//! knapsack by loads, of R. E. Bellman, "Dynamic Programming", Princeton University Press, 1957.
//!
//! It knows nothing of instances and plans: an item is a size and a weight.
#![tactic(auto)]

mod charges;
mod common_divisors;
mod grains;
mod items;
mod laws;
mod loads;

pub use charges::{DearestSet, Knapsack};
pub use common_divisors::greatest_common_divisor;
pub use grains::{MOST_GRAINS, grain};
pub use items::Item;
pub use laws::true_sizes_are_paid;

/// The error of a call that finds no memory.
pub type NoMemory = std::alloc::AllocError;
