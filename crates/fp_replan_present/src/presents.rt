//! A day that is under way: the present, and tracked legs.
use fp_replan::Kept;
use std::marker::Model;

/// A kept leg, and when it arrives where that is told: at its departure or later, sooner or later
/// than the time of its arc says.
#[derive(Clone, Copy, Debug, PartialEq, Eq)]
pub struct Tracked {
    pub kept: Kept,
    pub arrive: Option<u32>,
}

/// What is told of a day that is under way: the time that it is, in the input's unit, if it is told,
/// and the tracked legs. Contracts see it as a `Day`.
///
/// The tracked legs of one shipment, in their order, begin its route.
#[derive(Drop)]
pub struct Present {
    pub time: Option<u32>,
    pub legs: Vec<Tracked>,
}

impl Model for Present {
    ghost use Rattle.fp_replan_present.specs.Days.{Day};

    ghost Value = { Day };

    ghost view = { λ p. record { time = p.time; legs = p.legs.items } };
}
