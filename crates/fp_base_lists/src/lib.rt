//! Lists of numbers in ascending order, and what is known of lists whatever they hold.
//!
//! It knows nothing of freight. Most of it are words on lists and laws on these words, which the
//! crates above cite: places and cuts of ascending numbers, membership, no element twice, numbered
//! lists, sums, and numbers below a bound.
#![tactic(auto)]

mod ascending;

pub use ascending::{count_until, place_among};
