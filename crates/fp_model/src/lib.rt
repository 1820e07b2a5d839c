//! The problem of a freight planner: what it is given, what a plan is, and what a plan costs.
//!
//! The problem is the Continuous-Time Service Network Design Problem of Boland, Hewitt, Marshall
//! and Savelsbergh, "The Continuous-Time Service Network Design Problem", Operations Research 65,
//! 2017. Times are whole numbers in the input's unit, and the number of a terminal, an arc or a
//! shipment is its place, from 0, in the instance.
#![tactic(auto)]

mod costs;
mod faults;
mod instances;
mod laws;
pub mod limits;
mod names;
mod parts;
mod plans;
mod routes;
mod weights;

pub use costs::{cost, load, routes_cost, trucks};
pub use faults::{PlanFault, PlanKind, test_plan};
pub use instances::Instance;
pub use laws::limits_are_numbers;
pub use limits::SCALE;
pub use names::{Name, is_name};
pub use parts::{Arc, Leg, Member, Shipment};
pub use plans::Plan;
pub use weights::weight;

/// The error of a call that finds no memory.
pub type NoMemory = std::alloc::AllocError;
