//! What the ascents over prices by shares and over prices by spans have in common: what shipments
//! need to pay, and how far a subgradient ascent goes.
//!
//! It's made for heuristics, whose results are tested afterwards: nothing is promised of it but that
//! it's safe and ends.
#![tactic(auto)]

mod needs;
mod targets;
mod weights;

pub use needs::{find_all_needs, find_needs};
pub use targets::{Target, Way, rate};
pub use weights::weight_of;
