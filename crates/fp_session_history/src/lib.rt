//! What a search has earned: its notes on rounds of refinement and on splits, what it left where it
//! ended, and laws by which these stay earned while the search goes on.
//!
//! Rounds of refinement are those of dynamic discretization discovery: Boland, Hewitt, Marshall and
//! Savelsbergh, "The Continuous-Time Service Network Design Problem", Operations Research 65, 2017.
//! Notes are this project's own.
#![tactic(auto)]

mod budgets;
mod endings;
mod laws;
mod notes;

pub use budgets::Budget;
pub use endings::{Ending, Left};
pub use laws::{enough_branches, enough_rounds};
pub use notes::{RoundNote, SplitNote};
