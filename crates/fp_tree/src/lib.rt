//! The tree of a branch-and-bound search: splits, the sides that they leave, what the leaves cover.
#![tactic(auto)]

mod edits;
mod laws;
mod layout;
mod reads;
mod sides;
mod trees;
mod ways;

pub use laws::split_limit_is_a_number;
pub use layout::MOST_SPLITS;
pub use sides::{Side, Split, ways_of};
pub use trees::{Tree, leaves_cover_all};
pub use ways::{Step, Way};

/// The error of a call that finds no memory.
pub type NoMemory = std::alloc::AllocError;
