//! A plan from a relaxed plan: its routes at times that keep as many of its shared departures as
//! can be kept.
//!
//! A relaxed plan sends each shipment over classes of moments. Where the legs of each class can
//! leave at one moment, its routes have a plan that costs no more than it. Where they can't, some
//! classes are left out; and no answer costs more than the plan in hand (the upper bounds of
//! dynamic discretization discovery: Boland, Hewitt, Marshall and Savelsbergh, "The
//! Continuous-Time Service Network Design Problem", Operations Research 65, 2017).
#![tactic(auto)]

mod candidates;
mod class_costs;
mod improvement;
mod repairs;
mod timings;

pub use repairs::{Repaired, repair, repair_within};

/// The error of a call that finds no memory.
pub type NoMemory = std::alloc::AllocError;
