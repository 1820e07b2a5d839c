//! What a search notes of its rounds and of its splits.
use fp_certificate_lines::Valuation;
use fp_relaxmodel::RelaxedPlan;
use fp_timenodes::Place;
use std::marker::Model;

/// Why a round added points: a relaxed plan that costs less than the incumbent, the cheapest plan
/// in hand, and can't be timed.
///
/// Contracts see the record of its parts, with lists.
#[derive(Drop)]
pub struct RoundNote {
    /// The round, from 1.
    pub round: u32,
    /// What the incumbent cost.
    pub incumbent: u128,
    /// A relaxed plan over the points as of the round before.
    pub relaxed: RelaxedPlan,
    /// The points that the round added, in the order of adding.
    pub added: Vec<Place>,
}

impl Model for RoundNote {
    ghost use Rattle.fp_session_history.specs.Notes.{Refinement};

    ghost Value = { Refinement };

    ghost view = { λ n. record { round = n.round; incumbent = n.incumbent; relaxed = n.relaxed; added = n.added.items } };
}

/// Why a leaf was split: how it was valued then, and what the incumbent cost, which was more than the
/// leaf was worth.
#[derive(Clone, Copy, Debug, PartialEq, Eq)]
pub struct SplitNote {
    /// What the incumbent cost.
    pub incumbent: u128,
    /// How the leaf was valued.
    pub valuation: Valuation,
}
