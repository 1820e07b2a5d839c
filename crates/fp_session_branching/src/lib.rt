//! Which shipment a leaf of a search is split by, and how: proposals, the most promising first.
//!
//! A leaf loses bound where a walk returns to a terminal, which no route does, and at the classes
//! whose shipments pay less than the trucks cost that they need together. Shipments are proposed
//! first whose walks return, and others by the greatest such gap on their walks, for each leg that is
//! still to be forced until the gap closes (a form of branching on the most fractional variable: T.
//! Achterberg, T. Koch and A. Martin, "Branching rules revisited", Operations Research Letters 33,
//! 2005); at equal gaps by how much the dearer side of its split raises its cost. Arcs are proposed whose
//! trucks are paid for in parts, and ways by which parts of a shipment's walks go.
#![tactic(auto)]

mod class_uses;
mod leaf_candidates;
mod losses;
mod ranks;
mod rises;
mod truck_numbers;
mod truck_splits;
mod way_splits;

pub use leaf_candidates::{Candidate, candidates};
pub use truck_splits::{TruckCandidate, truck_candidates};
pub use way_splits::{WayCandidate, way_candidates};

/// The error of a call that finds no memory.
pub type NoMemory = std::alloc::AllocError;
