//! The certificate of an answer, and its text both ways. What it is made of and how it is written
//! stand in `fp_certificate_lines`; here it is read from the records of its text, or the first fault is named.
#![tactic(auto)]

mod drafts;
mod faults;
mod laws;
mod lines;
mod open_gifts;
mod open_groups;
mod open_spans;
mod open_tables;
mod reading;

pub use faults::CertFault;
pub use fp_certificate_lines::{Answer, Certificate, Narrowing, Node, Spent, write};
pub use laws::written_reads_back;
pub use reading::{read, read_with_index};

/// The error of a call that finds no memory.
pub type NoMemory = std::alloc::AllocError;
