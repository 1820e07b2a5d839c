//! Timed walks and relaxed plans of a partially time-expanded network.
//!
//! A relaxed plan has for each shipment a walk over classes: its arcs are a route, and each class
//! stands at or after the head of the one before. What a plan does at moments between the points,
//! it does there at the points before them, so every plan over every denominator coarsens into a
//! relaxed plan that costs no more (the relaxation of Boland, Hewitt, Marshall and Savelsbergh,
//! "The Continuous-Time Service Network Design Problem", Operations Research 65, 2017).
#![tactic(auto)]

mod coarsening;
mod grouping;
mod relaxed_costs;
mod relaxed_plans;
mod terminals;

pub use coarsening::coarsen;
pub use fp_longestarcs::{Stop, TimedWalk};
pub use grouping::groups;
pub use relaxed_costs::relaxed_cost;
pub use relaxed_plans::RelaxedPlan;
pub use terminals::is_route;

/// The error of a call that finds no memory.
pub type NoMemory = std::alloc::AllocError;
