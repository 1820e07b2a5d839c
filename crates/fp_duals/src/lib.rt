//! Better prices for a leaf: the best of six starting prices, or a table that is better than all of
//! them, with walks of least cost under it.
//!
//! Tables of prices are multipliers in the sense of Lagrangian relaxation (A. M. Geoffrion,
//! "Lagrangean relaxation for integer programming", Mathematical Programming Study 2, 1974): each
//! that keeps the price rule gives a bound, and a search tries to raise it.
#![tactic(auto)]

mod candidates;
mod improvements;
mod improving;
mod laws;
mod limits;
mod run_tables;
mod searches;
mod starts;
mod table_tests;
mod tabled_leaves;

pub use fp_duals_shares::Effort;
pub use improvements::Improved;
pub use improving::{improve, improve_leaf};
pub use laws::price_line_limit_is_a_number;
pub use limits::MOST_PRICE_LINES;
pub use run_tables::Tables;

/// The error of a call that finds no memory.
pub type NoMemory = std::alloc::AllocError;
