//! Plans with trucks that roll already: kept legs, the plan that a search begins with, and the
//! windows in which exactly the plans lie that keep them. And what one more shipment costs.
#![tactic(auto)]

mod beginnings;
mod codes;
mod faults;
mod instances;
mod kept;
mod kept_windows;
mod laws;
mod onward;
mod ranges;
mod reading;
mod starts;

pub use beginnings::{goes_on, keep, no_beginnings, place_after};
pub use faults::KeptFault;
pub use instances::{with_shipments, without_last};
pub use kept::{Kept, MOST_KEPT};
pub use kept_windows::windows;
pub use laws::kept_limit_is_a_number;
pub use onward::{backward_graph, begun_route, is_among, terminals_with};
pub use ranges::{Bracket, extra_range};
pub use reading::{read_kept, read_kept_with_index};
pub use starts::{Started, start};

/// The error of a call that finds no memory.
pub type NoMemory = std::alloc::AllocError;
