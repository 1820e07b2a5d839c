//! The events of a yard, and what can be asked of it.

/// A departure or an arrival.
#[derive(Clone, Copy, PartialEq, Eq)]
pub enum EventKind {
    Departs,
    Arrives,
}

/// One departure or one arrival of one truck line, named by its number: its place, from 0, among the
/// truck lines of the plan.
#[derive(Clone, Copy, PartialEq, Eq)]
pub struct Event {
    pub line: u32,
    pub kind: EventKind,
}

/// The stage of a truck line: it hasn't departed, it is on its way, or it has arrived.
#[derive(Clone, Copy, PartialEq, Eq)]
pub enum LineStage {
    Waiting,
    Rolling,
    Done,
}

/// Where a shipment is: at a terminal, or aboard a truck line, each by its number.
#[derive(Clone, Copy, PartialEq, Eq)]
pub enum YardPlace {
    At { terminal: u32 },
    Aboard { line: u32 },
}

/// Why an event is refused.
///
/// `NoLine`: there is no such line. `Left`: a departure of a line that isn't waiting. `Missing`: a
/// departure while some of the line's freight isn't at its tail; the first such shipment is named.
/// `NotRolling`: an arrival of a line that isn't rolling.
#[derive(Clone, Copy, PartialEq, Eq)]
pub enum YardFault {
    NoLine,
    Left,
    Missing { shipment: u32 },
    NotRolling,
}
