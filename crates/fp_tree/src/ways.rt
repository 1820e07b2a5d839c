//! The way from the root of a tree to a node, for walking a tree in preorder without recursion.
ghost use Rattle.std.specs.Prelude.{◌≡◌, ◌∷◌, ◌++◌, [], IfOk, OnOk, OnErr, IsTrue, IsFalse, MatchOption, if◌then◌else◌, false};
ghost use Rattle.fp_tree.specs.Sides.{first_of_split, second_of_split};
ghost use Rattle.fp_tree.specs.Ways.{side_of, way_sides, pending_on, IsTurned, IsLastByFirst, AreBySecond};

use crate::NoMemory;
use crate::sides::{Side, Split};
use std::alloc::Global;
use std::marker::Model;

/// A split on the way from the root, and the side by which the way goes.
#[derive(Clone, Copy, PartialEq, Eq, Debug)]
pub struct Step {
    /// What the node splits by.
    pub split: Split,
    /// The terminal that the split's arc leaves. It counts only for a split by an arc.
    pub tail: u32,
    /// Whether the way goes by the second side.
    pub later: bool,
}

impl Step {
    /// The side by which the way goes.
    pub fn side(self) -> Side
        ensures { result ≡ side_of self }
    {
        if self.later {
            self.split.second(self.tail)
        } else {
            self.split.first()
        }
    }
}

/// The way from the root of a tree to a node. Contracts see the list of its steps, root first.
///
/// For each node in preorder, a walker calls `descend` at a split and `advance` after a leaf. So
/// the way always leads to the next node, with one step for each split above it.
#[derive(Drop)]
pub struct Way {
    steps: Vec<Step>,
}

impl Model for Way {
    ghost use Rattle.std.specs.Prelude.{List};
    ghost use Rattle.fp_tree.specs.declared.ways.Step.{Step};

    ghost Value = { List Step };

    ghost view = { λ w. w.steps.items };
}

impl Way {
    /// The way to the root. It takes no memory before its first step.
    pub fn new(alloc: Global) -> Way
        ensures { result ≡ [] }
    {
        Way {
            steps: Vec::new(alloc),
        }
    }

    /// Goes on from a split to the first node below its first side.
    ///
    /// The way uses the allocator that it was made with. `NoMemory` only where no memory is found,
    /// and it leaves the way as it was.
    pub fn descend(&mut self, split: Split, tail: u32) -> Result<(), NoMemory>
        ensures ok { OnOk result
            (self.new ≡ self.old ++ (record { split = split; tail = tail; later = false }) ∷ []) }
        ensures sides { OnOk result
            (way_sides self.new ≡ way_sides self.old ++ first_of_split split ∷ []) }
        ensures pending { OnOk result (pending_on self.new
            ≡ (way_sides self.old ++ second_of_split split tail ∷ []) ∷ pending_on self.old) }
        ensures err { OnErr result (self.new ≡ self.old) }
    {
        self.steps.push(Step {
            split,
            tail,
            later: false,
        })?;
        Ok(())
    }

    /// Goes on from a leaf to the next node in preorder, the first below a second side.
    ///
    /// The last step that goes by its first side turns to its second, and the steps after it go.
    /// False where all steps go by their second side: the tree is at its end, and the way stays.
    pub fn advance(&mut self) -> bool
        ensures pending { pending_on self.old
            ≡ (if result then way_sides self.new ∷ pending_on self.new else []) }
        ensures turned { IsTrue result → IsTurned self.old self.new }
        ensures stays { IsFalse result → self.new ≡ self.old }
    {
        match last_by_first(self.steps.as_slice()) {
            None => false,
            Some(place) => {
                self.steps[place].later = true;
                self.steps.truncate(place + 1);
                true
            }
        }
    }

    /// The sides on the way, root first. `NoMemory` only where no memory is found.
    pub fn sides(&self, alloc: Global) -> Result<Vec<Side>, NoMemory>
        ensures { IfOk result (λ sides. sides.items ≡ way_sides self.now) }
    {
        sides_of(alloc, self.steps.as_slice())
    }
}

// The place of the last step that goes by its first side.
fn last_by_first(steps: &[Step]) -> Option<usize>
    ensures { MatchOption result (AreBySecond steps.now) (IsLastByFirst steps.now) }
{
    for place in (0..steps.len()).rev() {
        if !steps[place].later {
            return Some(place);
        }
    }
    None
}

// The sides by which the steps go.
fn sides_of(alloc: Global, steps: &[Step]) -> Result<Vec<Side>, NoMemory>
    ensures { IfOk result (λ sides. sides.items ≡ way_sides steps.now) }
{
    steps.iter().map(|step| step.side()).collect(alloc)
}
