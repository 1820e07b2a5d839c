//! A plan run at its terminals, event by event: each terminal works from its own sheet, without a
//! clock and without asking another.
//!
//! The numbers of lines are their places, from 0, among the truck lines of the plan.
#![tactic(auto)]

mod allowed_events;
mod driving;
mod events;
mod freight;
mod journeys;
mod laws;
mod sheets;
mod turns;
mod yards;

pub use driving::drive;
pub use events::{Event, EventKind, LineStage, YardFault, YardPlace};
pub use laws::{
    calls_lead_to_legal_histories, chosen_runs_are_legal, departures_depend_on_the_tail,
    lines_carry_their_freight, runs_end_at_destinations, whole_runs_have_two_events_for_each_line,
};
pub use yards::Yard;

/// The error of a call that finds no memory.
pub type NoMemory = std::alloc::AllocError;
