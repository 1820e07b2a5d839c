//! The fewest trucks that run the truck lines of a plan, without empty moves.
//!
//! A truck that arrives at a terminal may leave it again at the same moment or later. The source of
//! the problem is Dantzig and Fulkerson, "Minimizing the number of tankers to meet a fixed
//! schedule", Naval Research Logistics Quarterly 1, 1954.
#![tactic(auto)]

mod acceptance;
mod arrivals;
mod day_lines;
mod days;
mod deficits;
mod fewest_trucks;
mod fleets;
mod laws;
mod needs;
mod orders;
mod queues;
mod rosters;
mod single_trucks;
mod sweeps;
mod writing;

pub use acceptance::accepts;
pub use day_lines::write_trucks;
pub use days::{MOST_RUNS, Run, TruckDays};
pub use fewest_trucks::fewest;
pub use fleets::{Begin, Fleet, Need, Turn};
pub use laws::run_limit_is_a_number;
pub use single_trucks::truck_days;
pub use writing::write;

/// The error of a call that finds no memory.
pub type NoMemory = std::alloc::AllocError;
