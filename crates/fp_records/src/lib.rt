//! The records of a text by CSV, and a builder for lines of text.
//!
//! Records are read with commas between fields and double quotes around those that need them. There
//! is no header row, and a record may have any number of fields. Lines have their fields joined by
//! commas and end with a line feed. Printed lines of plain fields read back as those fields.
#![tactic(auto)]

mod lines;
mod reading;
mod rows;
mod stripping;

pub use lines::Line;
pub use reading::{Record, records};

/// The error of a call that finds no memory.
pub type NoMemory = std::alloc::AllocError;
