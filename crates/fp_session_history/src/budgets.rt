//! What a search may spend.
/// The rounds of refinement and the branches that a search may use: at most
/// [`LAST_ROUND`](fp_model::LAST_ROUND) rounds and [`MOST_SPLITS`](fp_tree::MOST_SPLITS) branches.
#[derive(Clone, Copy, Debug, PartialEq, Eq)]
pub struct Budget {
    /// The most rounds.
    pub rounds: u32,
    /// The most splits of the tree.
    pub branches: u32,
}
