//! What a shipment adds to the cost, whichever it is: the instance with it as the last one, the plan
//! that the search with it begins with, and what it adds between two plans in hand.
#![tactic(auto)]

mod additions;
mod last_shipments;
mod names;
mod starts;

pub use additions::added;
pub use last_shipments::with_last;
pub use names::number_named;
pub use starts::start_with;

/// The error of a call that finds no memory.
pub type NoMemory = std::alloc::AllocError;
