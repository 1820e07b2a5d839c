//! Where the least walks of a leaf clash with the sets that they are charged with, and votes for the
//! places at which points would tell them apart.
//!
//! A walk is timed leg by leg: it leaves at the earliest moment, and not before its set could. Where
//! that is after the last moment at which the set can leave, the moments since it last had to wait are
//! a chain of places, for which there is a vote.
//!
//! It's made for heuristics: nothing is promised of it but that it's safe and ends. All look-ups with
//! a number that isn't there give nothing.
#![tactic(auto)]

mod clashes;
mod set_moments;
mod votes;

pub use clashes::{Clashes, Ground};
pub use votes::ClashVotes;

/// The error of a call that finds no memory.
pub type NoMemory = std::alloc::AllocError;
