//! How a search ended, and what it left.
use fp_certificate_lines::Spent;
use fp_relaxmodel::RelaxedPlan;

/// How a search ended.
#[derive(Clone, Copy, Debug, PartialEq, Eq)]
pub enum Ending {
    /// Nothing is left to search: no plan is cheaper than the incumbent.
    Optimal,
    /// It had spent all its rounds, all its branches or all its time.
    Unfinished { spent: Spent },
}

/// What a search left, where it would have gone on with more to spend. Leaves are numbered from 0
/// in preorder.
#[derive(Drop)]
pub enum Left {
    /// Nothing.
    Nothing,
    /// A relaxed plan of a leaf that costs less than the incumbent and can't be timed.
    Timing { leaf: u32, relaxed: RelaxedPlan },
    /// A leaf in which a shipment has several ways to go.
    Several { leaf: u32, shipment: u32 },
    /// A leaf that isn't empty and is worth less than the incumbent costs, where the time was over.
    Unsettled { leaf: u32 },
}
