//! An ascent over the prices of runs of classes at a leaf.
//!
//! A span prices a run of the classes of an arc with money for its trucks, a weight for each
//! shipment, and a charge: what the weights of some set of shipments pass the money for the set's
//! trucks by at most. A leaf is worth the least costs of the shipments less the charges, and this
//! value is raised here in two ways: by a subgradient ascent along an averaged direction (F.
//! Barahona and R. Anbil, "The volume algorithm: producing primal solutions with a subgradient
//! method", Mathematical Programming 87, 2000) with steps towards a level (J.-L. Goffin and K. C.
//! Kiwiel, "Convergence of a simple subgradient level method", Mathematical Programming 85, 1999),
//! and then by passes over the shipments in which the value doesn't fall. The sets that are charged
//! are found by loads (R. E. Bellman, "Dynamic Programming", Princeton University Press, 1957).
//!
//! At a leaf with sides by trucks gifts stand beside the spans: parts of what each truck costs in the
//! runs of these sides, which count for as many trucks as the sides tell. Their amounts are moved with
//! the money of spans.
//!
//! What is found is a proposal: nothing is promised of it but that it is found safely and that the
//! search ends. The layer above tests spans and gifts, values them exactly, and takes them only where
//! they're better.
#![tactic(auto)]

mod ascent;
mod averages;
mod efforts;
mod inherited_spans;
mod keeping;
mod laid_spans;
mod leaf_searches;
mod moments;
mod proposals;
mod searches;
mod starts;
mod trials;
mod whole_arcs;

pub use averages::{AveragedUses, averaged_uses};
pub use efforts::SpanEffort;
pub use fp_duals_runs::{PaidTrucks, TRUCK_PARTS};
pub use laid_spans::StartPrices;
pub use leaf_searches::{proposed_spans, proposed_walks};
pub use proposals::Proposed;
pub use trials::promised_value;

/// The error of a call that finds no memory.
pub type NoMemory = std::alloc::AllocError;
