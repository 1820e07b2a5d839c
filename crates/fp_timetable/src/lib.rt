//! The lines of a plan as a timetable shows them, its legs and its departures with their trucks,
//! and what the plan costs, summed over its departures.
#![tactic(auto)]

mod leg_lines;
mod lines;
mod plan_costs;
mod truck_lines;

pub use leg_lines::legs;
pub use lines::{LegLine, TruckLine};
pub use plan_costs::{cost, plan_cost};
pub use truck_lines::trucks;

/// The error of a call that finds no memory.
pub type NoMemory = std::alloc::AllocError;
