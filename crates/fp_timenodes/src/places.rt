//! What a point is: a place in time at a terminal, with the round that added it.
/// The latest time at which a point may stand, in the input's unit.
pub const LATEST: u32 = 100_000;

/// The most points, at all terminals together, over which the crates above work out bounds. More
/// can stand in [`Points`](crate::Points).
pub const MOST_POINTS: u32 = 65_000;

/// A terminal and a time at it.
#[derive(Clone, Copy, PartialEq, Eq, Debug)]
pub struct Place {
    /// The number of the terminal, from 0.
    pub terminal: u32,
    /// The time, at most [`LATEST`].
    pub at: u32,
}

/// A point that was added after the start.
#[derive(Clone, Copy, PartialEq, Eq, Debug)]
pub struct AddedPoint {
    /// The number of the terminal, from 0.
    pub terminal: u32,
    /// The time, at most [`LATEST`].
    pub at: u32,
    /// The round that added it, from 1.
    pub round: u32,
}

/// What adding a point did.
#[derive(Clone, Copy, PartialEq, Eq, Debug)]
pub enum Added {
    /// The point was there already, and nothing changed.
    There,
    /// The point is new.
    New,
}
