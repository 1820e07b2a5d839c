//! When shipments on given routes leave, where the legs of some groups leave together.
//!
//! The moments are the least ones: they start at the windows' beginnings and rise as far as the
//! steps of the routes and the groups demand (the relaxation of R. Bellman, "On a routing problem",
//! Quarterly of Applied Mathematics 16, 1958, over a list of the legs that are still to be looked
//! at). Where one would pass its window's end, there are no times, in any fraction of the unit.
#![tactic(auto)]

mod dispatches;
mod gathering;
mod group_numbers;
mod places;
mod planning;
mod rising;
mod starting;
mod tasks;

pub use dispatches::{Dispatch, earliest};

/// The error of a call that finds no memory.
pub type NoMemory = std::alloc::AllocError;
