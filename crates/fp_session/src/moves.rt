//! What a step is going to do, worked out before anything changes.
use crate::kept::Kept;
use fp_session_clashes::RefinedNetwork;
use fp_session_history::{Left, RoundNote};
use fp_session_looks::Cheaper;
use fp_tree::Split;

// A split, with the terminal that its arc leaves, and the two leaves below it.
#[derive(Clone, Copy, Debug, PartialEq, Eq)]
pub(crate) struct Division {
    pub split: Split,
    pub tail: u32,
    pub first: Kept,
    pub second: Kept,
}

// What a step does besides keeping what it found of its leaf.
#[derive(Drop)]
pub(crate) enum Move {
    Close,
    Better {
        cheaper: Cheaper,
    },
    // The plan in reserve becomes the incumbent.
    TakeReserve,
    Refine {
        note: RoundNote,
        refined: RefinedNetwork,
    },
    Divide {
        division: Division,
    },
    Stop {
        left: Left,
    },
}
