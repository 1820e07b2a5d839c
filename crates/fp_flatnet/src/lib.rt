//! Fastest routes and windows in the flat network, before time is looked at in points.
//!
//! The flat network, its terminals and arcs, is that of Boland, Hewitt, Marshall and Savelsbergh,
//! "The Continuous-Time Service Network Design Problem", Operations Research 65, 2017. The time of
//! a walk is the sum of the times of its arcs and of the holds of the terminals between them.
#![tactic(auto)]

mod arc_graphs;
mod direct_routes;
mod first_points;
mod laws;
mod least_times;
mod verdicts;
mod window_rows;
mod window_tables;

pub use direct_routes::direct;
pub use first_points::initial;
pub use laws::anchor_limit_is_a_number;
pub use verdicts::{Verdict, fastest, feasible};
pub use window_tables::{MOST_ANCHORS, Window, Windows};

/// The error of a call that finds no memory.
pub type NoMemory = std::alloc::AllocError;
