//! Cheaper plans by local search: shipments are taken out of a plan and put back, one after the
//! other, each along the path that adds least to the cost beside the others.
//!
//! The search is a large neighbourhood search (P. Shaw, "Using Constraint Programming and Local
//! Search Methods to Solve Vehicle Routing Problems", 1998) that accepts by record-to-record travel
//! (G. Dueck, "New Optimization Heuristics", Journal of Computational Physics 104, 1993). Nothing of
//! it has to be right: what it finds is taken only if it is a plan within the windows that costs no
//! more than the start.
#![tactic(auto)]

mod acceptance;
mod draws;
mod earnings;
mod labels;
mod load_factors;
mod paths;
mod plans;
mod relatedness;
mod removal;
mod searches;
mod turns;

pub use earnings::Earnings;
pub use searches::{Search, local_search, local_search_with_earnings};

/// The error of a call that finds no memory.
pub type NoMemory = std::alloc::AllocError;
