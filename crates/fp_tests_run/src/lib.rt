//! Tests of the whole program in memory: what `run` answers and writes by its words and its input; and
//! runs over memory, for these tests and those of `fp_tests_check`.
#![tactic(auto)]

mod runs;
#[cfg(test)]
mod tests;

pub use runs::{
    Checked, check_on, lines_with, noted_by, run_by, run_on, run_over, sink_of, source_of,
    trucks_from, with, words_of, wrong_row,
};
