//! The direction of a subgradient ascent over the prices by spans: how the value of a leaf changes with
//! them, as an average over the turns, and what of it moves together.
//!
//! It's made for heuristics, whose results are tested afterwards: nothing is promised of it but that
//! it's safe and ends. All look-ups with a number that isn't there give nothing.
#![tactic(auto)]

mod directions;
mod ties;

pub use directions::Direction;

/// The error of a call that finds no memory.
pub type NoMemory = std::alloc::AllocError;
