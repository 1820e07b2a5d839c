//! The text of a yard: each terminal's sheet, and the log of events.
#![tactic(auto)]

mod arrivals;
mod events;
mod incoming;
mod names;
mod outgoing;
mod writing;

pub use writing::write;

/// The error of a call that finds no memory.
pub type NoMemory = std::alloc::AllocError;
