//! The certificate of an answer, and its text.
//!
//! A certificate tells why an answer is true: a plan's legs and departures, the points of a
//! time-expanded network, tables of prices, and the tree of a search. It is this project's own.
#![tactic(auto)]

mod certificates;
mod laws;
mod limits;
mod lines;
mod moments;
mod writing;

pub use certificates::{Answer, Certificate, Narrowing, Node, Spent, Valuation};
pub use laws::{instances_are_named, largest_figure_is_a_number, texts_are_short};
pub use limits::LARGEST_FIGURE;
pub use lines::answers::write_answer;
pub use moments::by_moments;
pub use writing::write;

/// The error of a call that finds no memory.
pub type NoMemory = std::alloc::AllocError;
