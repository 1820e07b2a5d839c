//! Spans over the classes of a leaf: who pays by them, what the edges of the shipments' nets cost
//! by them, and what they are charged.
//!
//! A span prices a run of the classes of an arc with money for its trucks, a weight for each
//! shipment, and a charge: what the weights of some set of shipments pass the money for the set's
//! trucks by at most; or, where shipments are told apart by the moments at which they can leave,
//! the sum of this over all greatest sets of shipments that can leave together.
//!
//! A gift is a part of what each truck costs that leaves in a run. That at least so many leave is worth
//! its amount for each of them, and the spans there have so much less money; that at most so many leave
//! costs it, and the spans there have so much more.
//!
//! It's made for heuristics, whose results are tested afterwards: nothing is promised of it but
//! that it's safe and ends. All look-ups with a number that isn't there give nothing.
#![tactic(auto)]

mod arcs;
mod charges;
mod gifts;
mod group_charges;
mod groups;
mod joins;
mod layouts;
mod moment_groups;
mod payers;
mod prices;

pub use charges::Charges;
pub use gifts::{LaidGift, RunGift};
pub use groups::Groups;
pub use layouts::{LaidSpan, Layout, Run, of_span};
pub use moment_groups::MomentGroups;
pub use payers::Payer;
pub use prices::{SpanPrices, change_costs};

/// The error of a call that finds no memory.
pub type NoMemory = std::alloc::AllocError;
