//! All that the program does: words, input, answer, text.
#![tactic(auto)]

mod answer;
mod check_outcomes;
mod commands;
mod failures;
mod inputs;
mod laws;
mod limits;
mod no_notes;
mod notes;
mod shown;
mod texts;
mod top;

pub use check_outcomes::CheckOutcome;
pub use fp_app_words::{NameWord, Order, WordFault, read_words};
pub use fp_replan::Kept;
pub use fp_replan_present::{Present, Rest, Tracked};
pub use fp_session::{Budget, Left, RoundNote, Solved, SplitNote};
pub use laws::{check_accepts_plans, check_accepts_replans, input_limits_are_numbers};
pub use limits::{CHECK_LIMIT, INSTANCE_LIMIT};
pub use shown::{AnswerKind, Ran, Shown, Status};
pub use texts::text;
pub use top::{run, run_within};

/// The error of a call that finds no memory.
pub type NoMemory = std::alloc::AllocError;
