//! Where bytes come from and go to: sources and sinks, in memory and over the standard streams.
//! A source or sink counts its faults, so that a caller can trace each failure to one of them.
#![tactic(auto)]

mod clock;
mod clocks;
mod copying;
mod deadline;
mod memory_sink;
mod memory_source;
mod reading;
mod resources;
mod sink;
mod source;
mod standard;
mod sure;
mod writing;

pub use clock::Clock;
pub use clocks::{MemClock, StdClock, StillClock};
pub use deadline::{ClockDeadline, Deadline, NoDeadline, have_passed};
pub use memory_sink::MemSink;
pub use memory_source::MemSource;
pub use reading::{ReadEnd, read_all};
pub use resources::Resources;
pub use sink::Sink;
pub use source::{Failed, Source};
pub use standard::{StdSink, StdSource};
pub use sure::{SureSink, SureSource};
pub use writing::{WriteFault, write_all};

/// The error of a call that finds no memory.
pub type NoMemory = std::alloc::AllocError;
