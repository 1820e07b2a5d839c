//! The classes of a partially time-expanded network that a shipment may use under the sides of a
//! search, and those that it must.
//!
//! A class is an arc and a point of its tail; it stands for all moments from that point up to, and
//! without, the next one (the timed arcs of Boland, Hewitt, Marshall and Savelsbergh, "The
//! Continuous-Time Service Network Design Problem", Operations Research 65, 2017). A class is
//! allowed for a shipment where some whole moment of it lies in the shipment's window for the arc
//! and is forbidden by none of the shipment's sides. Times are whole numbers of the input's unit,
//! and shipments, arcs, terminals and classes go by their numbers.
#![tactic(auto)]

mod allowed_rows;
mod chain_ends;
mod choices;
mod class_heads;
mod classes;
mod departures_left;
mod exits;
mod forced_chains;
mod free_moments;
mod moments;
mod windows_under;

pub use chain_ends::{Chain, ChainEnd};
pub use classes::Allowed;
pub use departures_left::departures;

/// The error of a call that finds no memory.
pub type NoMemory = std::alloc::AllocError;
