//! What the turns of an ascent tell together: the least walks and the charged sets come near a solution
//! in fractions. By that the shipments that surely use the classes of a run may need more trucks than
//! these have one by one: there joined spans may gain. And it tells how many trucks of each arc are paid
//! for, and by which arcs each shipment goes.
//!
//! It's made for heuristics, whose results are tested afterwards: nothing is promised of it but that
//! it's safe and ends. All look-ups with a number that isn't there give nothing.
#![tactic(auto)]

mod averages;
mod paid_trucks;
mod separation;
mod way_uses;

pub use averages::Averages;
pub use paid_trucks::{PaidTrucks, TRUCK_PARTS, paid_by_arc};
pub use separation::separate;
pub use way_uses::used_ways;

/// The error of a call that finds no memory.
pub type NoMemory = std::alloc::AllocError;
