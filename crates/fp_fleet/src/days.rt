//! What the trucks of a fleet run is made of.
use std::marker::Model;

/// The most runs that `truck_days` tells: the trucks of all lines together.
pub const MOST_RUNS: u32 = 1_000_000;

/// A run of a truck: the truck line by its number, and the load that this truck carries on it, in
/// the unit of sizes.
#[derive(Clone, Copy, Debug, PartialEq, Eq)]
pub struct Run {
    pub line: u32,
    pub load: u128,
}

/// For each truck of a fleet its runs, one after the other. Contracts see it as the list of these
/// lists. The number of a truck that is shown is its place among them, from 1.
#[derive(Drop)]
pub struct TruckDays {
    pub days: Vec<Vec<Run>>,
}

impl Model for TruckDays {
    ghost use Rattle.std.specs.Prelude.{List};
    ghost use Rattle.fp_fleet.specs.declared.days.Run.{Run};
    ghost use Rattle.fp_base_lists.specs.Vectors.{lists_of};

    ghost Value = { List (List Run) };

    ghost view = { λ t. lists_of t.days.items };
}
