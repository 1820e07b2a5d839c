//! Routes of shipments whose legs leave together in groups, with the least and the greatest time of
//! each group: loads that share trucks.
//!
//! It's made for heuristics, whose results are tested afterwards: nothing is promised of a solution
//! but that it's made and changed safely. All look-ups with a number that isn't there give nothing.
#![tactic(auto)]

mod groups;
mod room;
mod saved_times;
mod solutions;
mod start;
mod time_changes;
mod times;
mod usable_arcs;

pub use groups::{Group, GroupedLeg};
pub use saved_times::SavedTimes;
pub use solutions::{PathLeg, Solution, empty_routes, size_of};
pub use start::solution_of;
pub use time_changes::TimeChanges;
pub use usable_arcs::{PARTS, UsableArc, UsableArcs, all_usable_arcs};

/// The error of a call that finds no memory.
pub type NoMemory = std::alloc::AllocError;
