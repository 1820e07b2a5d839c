//! What a step of a search did.
use fp_session_history::Ending;

/// What a step did.
#[derive(Clone, Copy, Debug, PartialEq, Eq)]
pub enum Step {
    /// It closed a leaf: the leaf is empty, or worth at least what the incumbent costs.
    Closed,
    /// It found a cheaper plan.
    Better,
    /// It added 1 to 8 points, and a note on why.
    Round,
    /// It split a leaf in two.
    Branch,
    /// Nothing: the search has ended.
    Done { ending: Ending },
}
