//! The legs of a relaxed plan whose timed arcs are too short.
//!
//! In a partially time-expanded network a timed arc may end before the time that its arc takes. A
//! leg that goes on from such an end leaves too early, so the relaxed plan may have no times. A
//! point at the time that the arc does take makes the timed arc longer: the refinement of dynamic
//! discretization discovery of Boland, Hewitt, Marshall and Savelsbergh, "The Continuous-Time
//! Service Network Design Problem", Operations Research 65, 2017.
#![tactic(auto)]

mod listing;
mod shorts;

pub use listing::too_short;
pub use shorts::Short;

/// The error of a call that finds no memory.
pub type NoMemory = std::alloc::AllocError;
