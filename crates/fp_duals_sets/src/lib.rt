//! Sets of those who pay for trucks: by how much a set passes the money for its trucks at most, and how
//! much one more may pay. A charge is a knapsack for each number of trucks: what is paid for a grain of
//! size decides about most (S. Martello and P. Toth, "Knapsack Problems", Wiley, 1990, section 2.2), and
//! only the others are weighed by loads (R. E. Bellman, "Dynamic Programming", Princeton University
//! Press, 1957), in numbers of 32 bits and with few loads.
//!
//! It's made for heuristics, whose results are tested afterwards: nothing is promised of it but that
//! it's safe and ends.
#![tactic(auto)]

mod fills;
mod items;
mod load_rows;
mod reciprocals;
mod rows;
mod sets;

pub use sets::{Finding, Sets, Terms};

/// The error of a call that finds no memory.
pub type NoMemory = std::alloc::AllocError;
