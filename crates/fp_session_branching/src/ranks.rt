//! Candidates in the order of their ranks, the best ones alone.
ghost use Rattle.std.specs.Prelude.{ℕ, ◌≡◌, ◌≤◌, IsTrue, OnOk, insert, length, take};
ghost use Rattle.fp_session_branching.specs.declared.ranks.Ranked.{Ranked};

use crate::NoMemory;
use crate::leaf_candidates::Candidate;

/// Where a shipment's walk loses bound: whether it returns to a terminal, which no plan lets it do,
/// and the greatest gap on it for each leg that is still to be forced.
#[derive(Clone, Copy)]
pub(crate) struct Loss {
    pub(crate) returns: bool,
    pub(crate) gap: u128,
}

/// By what a candidate is ranked: the loss on its shipment's walk, and how much the dearer side of
/// its split raises the shipment's cost. The greater one comes first.
#[derive(Clone, Copy)]
pub(crate) struct Rank {
    pub(crate) loss: Loss,
    pub(crate) rise: u128,
}

/// A candidate with its rank.
#[derive(Clone, Copy)]
pub(crate) struct Ranked {
    pub(crate) rank: Rank,
    pub(crate) candidate: Candidate,
}

// Whether a loss is greater than another one: by a return, and of two walks that are the same in
// this by the gap.
fn is_more(loss: Loss, other: Loss) -> bool {
    if loss.returns == other.returns {
        loss.gap > other.gap
    } else {
        loss.returns
    }
}

// Whether a rank is above another one.
fn is_above(rank: Rank, other: Rank) -> bool {
    if is_more(rank.loss, other.loss) {
        true
    } else if is_more(other.loss, rank.loss) {
        false
    } else {
        rank.rise > other.rise
    }
}

/// Whether a candidate with this loss has no place among so many, which are there already and all
/// have greater losses.
pub(crate) fn is_left_out(ranked: &[Ranked], loss: Loss, most: usize) -> bool
    ensures { IsTrue result → most ≤ length ranked.now }
{
    match ranked.last() {
        Some(last) => ranked.len() >= most && is_more(last.rank.loss, loss),
        None => false,
    }
}

// The place of a rank: after all those that it isn't above.
fn place_of(ranked: &[Ranked], rank: Rank) -> usize
    ensures { result ≤ length ranked.now }
{
    for place in 0..ranked.len() {
        if is_above(rank, ranked[place].rank) {
            return place;
        }
    }
    ranked.len()
}

/// Puts a candidate in at its place, of which at most so many stay. `NoMemory` only where no memory
/// is found.
pub(crate) fn put_in(ranked: &mut Vec<Ranked>, next: Ranked, most: usize) -> Result<(), NoMemory>
    ensures { OnOk result ((place : ℕ) × (place ≤ length ranked.old.items) × (ranked.new.items ≡ take most (insert ranked.old.items place next))) }
{
    let place = place_of(ranked, next.rank);
    ranked.insert(place, next)?;
    ranked.truncate(most);
    Ok(())
}
