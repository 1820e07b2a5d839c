//! The limits of the problem: what an instance may have at most.

/// The most terminals of an instance.
pub const MOST_TERMINALS: usize = 100;

/// The most arcs of an instance.
pub const MOST_ARCS: usize = 1_000;

/// The most shipments of an instance.
pub const MOST_SHIPMENTS: usize = 500;

/// The most bytes of a name.
pub const LONGEST_NAME: usize = 32;

/// The latest time, in the input's unit: no shipment is due later, and no arc takes longer.
pub const LATEST: u32 = 100_000;

/// The greatest hold of a terminal, in the input's unit of time.
pub const GREATEST_HOLD: u32 = 1_000;

/// The longest step of an arc, in the input's unit of time: the longest travel time and the
/// greatest hold.
pub const LONGEST_STEP: u32 = 101_000;

/// The longest of the fastest times, in the input's unit: as many of the longest travel times as
/// there can be terminals.
pub const LONGEST_FASTEST: u32 = 10_000_000;

/// The greatest size of a shipment, capacity of a truck, cost of a truck, and cost of a unit of
/// size.
pub const GREATEST_AMOUNT: u64 = 1_000_000_000_000_000_000;

/// The scale of prices of an instance for which no other was given.
pub const SCALE: u128 = 1_000_000;

/// The greatest scale of prices.
pub const GREATEST_SCALE: u32 = 1_000_000_000;

/// More terminals with a time than a time-expanded network can have.
///
/// A walk visits each at most once. So its price is at most so many times the scale times what its
/// shipment costs alone, and sums of prices stay below the weight.
pub const MOST_TIMED_NODES: u32 = 65_536;

/// The greatest number of a round, from 1, that adds time points.
pub const LAST_ROUND: u32 = 4_000;

const _: () = prove!(LONGEST_STEP == LATEST + GREATEST_HOLD);

const _: () = prove!(LONGEST_FASTEST as usize == MOST_TERMINALS * LATEST as usize);
