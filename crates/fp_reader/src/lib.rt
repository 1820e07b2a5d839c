//! Reads an instance from the records of an input, or names the first fault.
#![tactic(auto)]

mod additions;
mod drafts;
mod faults;
mod generation;
mod reading;
mod records;

pub use faults::InputFault;
pub use generation::draws::Draws;
pub use generation::generator::generate;
pub use reading::{IndexedRead, Read, Tail, instance, instance_with_index};

/// The error of a call that finds no memory.
pub type NoMemory = std::alloc::AllocError;
