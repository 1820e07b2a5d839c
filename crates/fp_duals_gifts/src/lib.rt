//! Gifts at a leaf with sides by trucks: which ones are sought there, and which are proposed beside
//! the spans of some prices.
//!
//! A gift is a part of what each truck costs that leaves in a run, and counts for as many trucks as the
//! sides of the leaf tell.
//!
//! It's made for heuristics, whose results are tested afterwards: nothing is promised of it but that
//! it's safe and ends.
#![tactic(auto)]

mod leaf_gifts;
mod price_gifts;

pub use leaf_gifts::{put_gifts, sought_gifts};
pub use price_gifts::{cut_gifts, hold_runs, proposed_gifts};

/// The error of a call that finds no memory.
pub type NoMemory = std::alloc::AllocError;
