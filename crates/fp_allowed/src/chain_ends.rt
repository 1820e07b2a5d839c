//! A forced chain, and how it ends.

use std::marker::Model;

/// How a forced chain ends.
#[derive(Clone, Copy, PartialEq, Eq, Debug)]
pub enum ChainEnd {
    /// At the shipment's destination.
    Reached,
    /// At a terminal that two or more allowed classes leave.
    Several { terminal: u32 },
    /// At a terminal that no allowed class leaves, or that the chain has left before.
    Stuck { terminal: u32 },
}

/// The forced chain of a shipment: the numbers of its classes, in order from the origin on, and how
/// it ends.
///
/// Contracts see the list of the numbers and the end.
#[derive(Drop)]
pub struct Chain {
    pub classes: Vec<u32>,
    pub end: ChainEnd,
}

impl Model for Chain {
    ghost use Rattle.fp_allowed.specs.ForcedChains.{ForcedChain};

    ghost Value = { ForcedChain };

    ghost view = { λ c. record { classes = c.classes.items; end = c.end } };
}
