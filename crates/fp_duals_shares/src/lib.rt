//! A dual ascent over the prices of a leaf.
//!
//! The prices of a class divide the cost of one truck among the shipments that may use it. Which
//! division gives the greatest bound is the Lagrangian dual of the relaxation, and it is sought
//! here in two ways: by a subgradient ascent along an averaged direction (F. Barahona and R. Anbil,
//! "The volume algorithm: producing primal solutions with a subgradient method", Mathematical
//! Programming 87, 2000) with steps towards a level (J.-L. Goffin and K. C. Kiwiel, "Convergence of
//! a simple subgradient level method", Mathematical Programming 85, 1999), and then by passes over
//! the shipments in which no least cost falls (A. Balakrishnan, T. L. Magnanti and R. T. Wong, "A
//! dual-ascent procedure for large-scale uncapacitated network design", Operations Research 37,
//! 1989).
//!
//! What is found is a proposal: nothing is promised of it but that it is found safely and that the
//! search ends. The layer above tests a table, values it exactly, and takes it only where it's
//! better.
#![tactic(auto)]

mod ascents;
mod efforts;
mod exact_ascent;
mod fits;
mod pools;
mod projection;
mod starts;
mod subgradients;
mod tables;
mod trims;

pub use ascents::Ascent;
pub use efforts::Effort;

/// The error of a call that finds no memory.
pub type NoMemory = std::alloc::AllocError;
