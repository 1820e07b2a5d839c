//! The time points of the terminals, each with the round that added it.
//!
//! The points are those of a partially time-expanded network (Boland, Hewitt, Marshall and
//! Savelsbergh, "The Continuous-Time Service Network Design Problem", Operations Research 65,
//! 2017). Terminals are numbers from 0, and times are whole numbers of the input's unit, up to
//! [`LATEST`].
#![tactic(auto)]

mod laws;
mod places;
mod point_table;
mod timelines;

pub use laws::point_limits_are_numbers;
pub use places::{Added, AddedPoint, LATEST, MOST_POINTS, Place};
pub use point_table::Points;

/// The error of a call that finds no memory.
pub type NoMemory = std::alloc::AllocError;
