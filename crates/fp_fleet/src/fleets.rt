//! What a fleet is made of.
use std::marker::Model;

/// What a terminal needs: so many trucks more leave it up to and with a moment than arrive there up
/// to and with it. So many trucks have to begin there, whatever turns the others take.
///
/// `terminal` is its number, `trucks` a number of trucks, and `at` a moment in the input's unit of
/// time.
#[derive(Clone, Copy, Debug, PartialEq, Eq)]
pub struct Need {
    pub terminal: u32,
    pub trucks: u128,
    pub at: u32,
}

/// So many trucks begin with a truck line, given by its number.
#[derive(Clone, Copy, Debug, PartialEq, Eq)]
pub struct Begin {
    pub line: u32,
    pub count: u128,
}

/// So many trucks run the truck line `after` next when they have run the truck line `before`, both
/// given by their numbers.
#[derive(Clone, Copy, Debug, PartialEq, Eq)]
pub struct Turn {
    pub before: u32,
    pub after: u32,
    pub count: u128,
}

/// The trucks that run the truck lines of a plan. The number of a line is its place, from 0, among
/// those that `fp_timetable::trucks` makes. Contracts see a fleet as the record of these parts,
/// with lists.
///
/// A fleet may be of any numbers: `accepts` tells whether it is one that no other undercuts.
#[derive(Drop)]
pub struct Fleet {
    /// How many trucks there are in all.
    pub total: u128,
    /// What terminals need, by terminal. Their sum shows that no fleet is smaller.
    pub needs: Vec<Need>,
    /// With which lines trucks begin, by line.
    pub begins: Vec<Begin>,
    /// From which line to which trucks turn, by the line before and then by the line after.
    pub turns: Vec<Turn>,
}

impl Model for Fleet {
    ghost use Rattle.fp_fleet.specs.Fleets.{Assignment};

    ghost Value = { Assignment };

    ghost view = { λ f. record {
      total = f.total;
      needs = f.needs.items;
      begins = f.begins.items;
      turns = f.turns.items;
    } };
}
