//! The words of the command line: which command they order, by clap.
#![tactic(auto)]

mod commands;
mod laws;
mod orders;
mod reading;
mod settings;

pub use laws::{time_limits_hold, word_limits_are_numbers};
pub use orders::{FEWEST_TERMINALS, GREATEST_SEED, MOST_SECONDS, NameWord, Order, WordFault};
pub use reading::read_words;
pub use settings::{LONGEST_NUMBER, USUAL_BRANCHES, USUAL_ROUNDS};

/// The error of a call that finds no memory.
pub type NoMemory = std::alloc::AllocError;
