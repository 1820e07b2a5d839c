//! What follows the records of an instance: kept legs alone, or a day that is under way.
#![tactic(auto)]

mod ahead;
mod answers;
mod inputs;
mod places;
mod stuck_answers;
mod verdicts;

pub use answers::{Answered, Scale, answered_after};
pub use inputs::{TailInput, read_tail};
pub use places::{answer_place, tail_place};
pub use verdicts::{Verdict, verdict_after};

/// The error of a call that finds no memory.
pub type NoMemory = std::alloc::AllocError;
