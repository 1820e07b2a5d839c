//! What the readers of records share: the fields of a record, numbers and names in them, how a
//! fault of a record is told, and an index of an instance's names and ends of arcs.
#![tactic(auto)]

/// Numbers written in digits, of any count.
pub mod digits;
mod errors;
/// The fields of a record.
pub mod fields;
mod indexes;
mod lookups;
/// Names, numbered in the order in which they come.
pub mod numbering;

pub use errors::RecordError;
pub use indexes::Index;
pub use lookups::Lookup;

/// The error of a call that finds no memory.
pub type NoMemory = std::alloc::AllocError;
