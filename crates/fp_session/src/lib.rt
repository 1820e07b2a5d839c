//! The search for the cheapest plan: rounds of refinement and a tree of splits, from a plan in hand.
//!
//! The search is dynamic discretization discovery (Boland, Hewitt, Marshall and Savelsbergh, "The
//! Continuous-Time Service Network Design Problem", Operations Research 65, 2017) within a
//! branch-and-bound tree. Its bounds by prices, its notes and its certificates are this project's
//! own.
#![tactic(auto)]

mod advances;
mod answers;
mod applying;
mod branchings;
mod certificates;
mod children;
mod choices;
mod dividing;
mod improving;
mod kept;
mod leaves;
mod moves;
mod outcomes;
mod payloads;
mod planning;
mod preparations;
mod progress;
mod root_prices;
mod searches;
mod series;
mod sessions;
mod solutions;
mod starts;
mod steps;
mod timing;
mod tree_lines;
mod walks;
mod worths;

pub use fp_session_history::{Budget, Ending, Left, RoundNote, SplitNote};
pub use progress::Progress;
pub use sessions::Session;
pub use solutions::Solved;
pub use steps::Step;

/// The error of a call that finds no memory.
pub type NoMemory = std::alloc::AllocError;
