//! Looks for a cheaper plan: local searches with draws of their own, from a plan in hand.
#![tactic(auto)]

mod cheaper;
mod looks;

pub use cheaper::Cheaper;
pub use looks::{Look, MANY, look_from};

/// The error of a call that finds no memory.
pub type NoMemory = std::alloc::AllocError;
