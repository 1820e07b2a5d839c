//! Rows of bits over words of 64, and the kernels that work on the words.
//!
//! The kernels take eight words or counts at a time as the lanes of a vector of `std::simd`, and
//! what is left over one by one. They take no memory.
#![tactic(auto)]

mod kernels;
mod masks;
mod rows;
mod whole_rows;

pub use kernels::{add_bits, and_not_words, and_words, any_word, count_words};
pub use rows::Row;

/// The error of a call that finds no memory.
pub type NoMemory = std::alloc::AllocError;
