//! The way from the root of a tree to a node, with the bars of the narrowings on it.
ghost use Rattle.std.specs.Prelude.{◌≡◌, ◌∷◌, ◌++◌, [], IfOk, IfSome, List, MatchOption, take};
ghost use Rattle.fp_tree.specs.Sides.{first, second};
ghost use Rattle.fp_tree.specs.Ways.{way_sides};
ghost use Rattle.fp_certificate_lines.specs.declared.certificates.Narrowing.{Narrowing};
ghost use Rattle.fp_certificate_rules.specs.Accepted.{claim_of};
ghost use Rattle.fp_certificate_rules.specs.Leaves.{AreNarrowingBars, PendingTree, below_side, root_tree, with_narrowing};
ghost use Rattle.fp_checker.specs.Cases.{Tested};
ghost use Rattle.fp_checker.specs.LeafWays.{AskAlike, IsKept, steps_of};
ghost use Rattle.fp_checker.specs.NarrowedWays.{StandsAt};

use crate::NoMemory;
use crate::rules::leaf_ways::LeafWay;
use fp_tree::{Side, Split};
use std::alloc::Global;

/// The way to a node, and the bars of the narrowings on it, in their order. For each tree that is to come,
/// the next one last, `counts` has how many of the bars hold there: those of the narrowings on its way, which
/// come first.
#[derive(Drop)]
pub(crate) struct NarrowedWay {
    way: LeafWay,
    bars: Vec<Side>,
    counts: Vec<usize>,
}

// Sides, one list after the other.
fn joined(alloc: Global, bars: &[Side], sides: &[Side]) -> Result<Vec<Side>, NoMemory>
    ensures { IfOk result (λ both. both.items ≡ bars.now ++ sides.now) }
{
    let mut both = Vec::new(alloc);
    both.extend_from_slice(bars)?;
    both.extend_from_slice(sides)?;
    Ok(both)
}

impl NarrowedWay {
    /// The way to the root.
    pub(crate) fn new(alloc: Global) -> NarrowedWay
        ensures kept { IsKept result.way }
        ensures stands { (t : Tested) → StandsAt t result (root_tree ∷ []) }
    {
        NarrowedWay {
            way: LeafWay::new(alloc),
            bars: Vec::new(alloc),
            counts: Vec::new(alloc),
        }
    }

    /// The same way with the bars of one more narrowing at its node. `NoMemory` only where no memory is
    /// found.
    pub(crate) fn narrow(mut self, own: &[Side]) -> Result<NarrowedWay, NoMemory>
        requires { IsKept self.way }
        ensures kept { IfOk result (λ way. IsKept way.way) }
        ensures stands { IfOk result (λ way. (t : Tested) (tree : PendingTree) (pending : List PendingTree) (n : Narrowing) →
            StandsAt t self (tree ∷ pending) → AreNarrowingBars t.problem t.windows t.told (claim_of t.told.answer) self.bars.items
            (record { narrowing = n; sides = tree.sides }) own.now → StandsAt t way (with_narrowing tree n ∷ pending)) }
    {
        self.bars.extend_from_slice(own)?;
        Ok(self)
    }

    /// The way from a split to the first node below its first side; all bars hold below its second side too.
    /// `NoMemory` only where no memory is found.
    pub(crate) fn descend(
        self,
        alloc: Global,
        split: Split,
        tail: u32,
    ) -> Result<NarrowedWay, NoMemory>
        requires { IsKept self.way }
        ensures kept { IfOk result (λ way. IsKept way.way) }
        ensures stands { IfOk result (λ way. (t : Tested) (tree : PendingTree) (pending : List PendingTree) →
            StandsAt t self (tree ∷ pending) → StandsAt t way (below_side tree (first (record { split = split; tail = tail }))
            ∷ below_side tree (second (record { split = split; tail = tail })) ∷ pending)) }
    {
        let NarrowedWay {
            way,
            bars,
            mut counts,
        } = self;
        counts.push(bars.len())?;
        let way = way.descend(alloc, split, tail)?;
        Ok(NarrowedWay { way, bars, counts })
    }

    /// The way from a leaf to the next node in preorder, with the bars that hold there. `None` where no tree
    /// is to come. `NoMemory` only where no memory is found.
    pub(crate) fn advance(self, alloc: Global) -> Result<Option<NarrowedWay>, NoMemory>
        requires { IsKept self.way }
        ensures kept { IfOk result (λ found. IfSome found (λ way. IsKept way.way)) }
        ensures stands { IfOk result (λ found. (t : Tested) (tree : PendingTree) (pending : List PendingTree) →
            StandsAt t self (tree ∷ pending) → MatchOption found (pending ≡ []) (λ way. StandsAt t way pending)) }
    {
        let NarrowedWay {
            way,
            mut bars,
            mut counts,
        } = self;
        let Some(count) = counts.pop() else {
            return Ok(None);
        };
        bars.truncate(count);
        match way.advance(alloc)? {
            None => Ok(None),
            Some(way) => Ok(Some(NarrowedWay { way, bars, counts })),
        }
    }

    /// The bars, and sides that ask of legs what those of the way's first so many steps ask together; of all
    /// where it has no more. `NoMemory` only where no memory is found.
    pub(crate) fn first_sides(&self, alloc: Global, count: u32) -> Result<Vec<Side>, NoMemory>
        requires { IsKept self.now.way }
        ensures { IfOk result (λ sides. AskAlike sides.items (self.now.bars.items ++ take count (way_sides (steps_of self.now.way)))) }
    {
        let first = self.way.first_sides(alloc, count)?;
        joined(alloc, &self.bars, &first)
    }

    /// The bars, and sides that ask of legs what those of the way's steps ask together. `NoMemory` only where
    /// no memory is found.
    pub(crate) fn sides(&self, alloc: Global) -> Result<Vec<Side>, NoMemory>
        requires { IsKept self.now.way }
        ensures { IfOk result (λ sides. AskAlike sides.items (self.now.bars.items ++ way_sides (steps_of self.now.way))) }
    {
        joined(alloc, &self.bars, self.way.sides())
    }
}
