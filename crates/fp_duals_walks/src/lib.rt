//! Allowed timed walks of a leaf that cost little together in trucks and freight: a local search
//! from given walks.
//!
//! The walks of least cost under a leaf's prices need not be the cheapest together, since a price
//! is the same for each shipment that goes by a class, and trucks are whole. Here a few shipments at
//! a time leave their walks and go again, one after another, each where it adds the least to what
//! the loads cost; the new walks stay where they cost no more, or little more than the best (the
//! record-to-record travel of G. Dueck, "New optimization heuristics: the great deluge algorithm and
//! the record-to-record travel", Journal of Computational Physics 104, 1993).
//!
//! What is found is tested: each walk that is given back is an allowed timed walk of its shipment.
//! That the walks cost little isn't promised.
#![tactic(auto)]

mod allowed_walks;
mod exchanges;
mod proposals;
mod routes;
mod row_walks;
mod starts;

pub use allowed_walks::{are_allowed_walks, is_allowed_walk};
pub use proposals::cheap_walks;

/// The error of a call that finds no memory.
pub type NoMemory = std::alloc::AllocError;
