//! The way from the root of a tree to a leaf, with the sides on it.
ghost use Rattle.std.specs.Prelude.{◌≡◌, ◌∷◌, ◌++◌, [], IfNone, IfOk, IfSome, MatchOption, false, length, take, ◌+◌, ◌*◌, ◌≤◌};
ghost use Rattle.fp_tree.specs.Ways.{pending_on, way_sides};
ghost use Rattle.fp_checker.specs.LeafWays.{AskAlike, IsKept, steps_of};

use crate::NoMemory;
use crate::rules::narrow_sides::{Change, add_side, undo};
use fp_tree::{Side, Split, Step};
use std::alloc::Global;

/// A step on the way, and what its side changed of the sides before it.
#[derive(Clone, Copy)]
pub(crate) struct Entry {
    step: Step,
    change: Change,
}

// How many steps lie between two checkpoints.
const SPACING: usize = 100;

/// The way to a node, with the sides of its steps less those that others imply: on a long way few
/// are left. Where steps are taken back, so are the changes of their sides. At checkpoints the sides so
/// far are kept once more, so that those of its first steps don't have to be made from the root on.
#[derive(Drop)]
pub(crate) struct LeafWay {
    entries: Vec<Entry>,
    sides: Vec<Side>,
    checkpoints: Vec<Vec<Side>>,
}

// The same sides once more.
fn copy_of(alloc: Global, sides: &[Side]) -> Result<Vec<Side>, NoMemory>
    ensures { IfOk result (λ copy. copy.items ≡ sides.now) }
{
    sides.to_vec(alloc)
}

impl LeafWay {
    /// The way to the root.
    pub(crate) fn new(alloc: Global) -> LeafWay
        ensures kept { IsKept result }
        ensures steps { steps_of result ≡ [] }
    {
        LeafWay {
            entries: Vec::new(alloc),
            sides: Vec::new(alloc),
            checkpoints: Vec::new(alloc),
        }
    }

    // How many steps come after the last checkpoint.
    fn steps_after(&self) -> usize
        requires { IsKept self.now }
        ensures { result + length self.now.checkpoints.items * SPACING ≡ length self.now.entries.items }
    {
        self.entries.len() - self.checkpoints.len() * SPACING
    }

    // The way with one more checkpoint, where one is due.
    fn with_checkpoint(mut self, alloc: Global) -> Result<LeafWay, NoMemory>
        requires { IsKept self }
        ensures kept { IfOk result IsKept }
        ensures steps { IfOk result (λ way. steps_of way ≡ steps_of self) }
    {
        if self.steps_after() != SPACING {
            return Ok(self);
        }
        let sides = copy_of(alloc, &self.sides)?;
        self.checkpoints.push(sides)?;
        Ok(self)
    }

    // The way with one more step.
    fn with(mut self, alloc: Global, step: Step) -> Result<LeafWay, NoMemory>
        requires { IsKept self }
        ensures kept { IfOk result IsKept }
        ensures steps { IfOk result (λ way. steps_of way ≡ steps_of self ++ step ∷ []) }
    {
        let change = add_side(&mut self.sides, step.side())?;
        self.entries.push(Entry { step, change })?;
        self.with_checkpoint(alloc)
    }

    /// The way from a split to the first node below its first side. `NoMemory` only where no memory
    /// is found.
    pub(crate) fn descend(self, alloc: Global, split: Split, tail: u32) -> Result<LeafWay, NoMemory>
        requires { IsKept self }
        ensures kept { IfOk result IsKept }
        ensures steps { IfOk result (λ way. steps_of way
            ≡ steps_of self ++ (record { split = split; tail = tail; later = false }) ∷ []) }
    {
        let step = Step {
            split,
            tail,
            later: false,
        };
        self.with(alloc, step)
    }

    // Takes the last step back.
    fn pop(&mut self) -> Option<Step>
        requires { IsKept self.old }
        ensures kept { IsKept self.new }
        ensures none { IfNone result (steps_of self.old ≡ []) }
        ensures some { IfSome result (λ step. steps_of self.old ≡ steps_of self.new ++ step ∷ []) }
    {
        let entry = self.entries.pop()?;
        undo(&mut self.sides, entry.change);
        self.checkpoints.truncate(self.entries.len() / SPACING);
        Some(entry.step)
    }

    /// The way from a leaf to the next node in preorder, the first below a second side: the last
    /// step that goes by its first side turns to its second, and the steps after it go. `None` where
    /// all steps go by their second side: the tree is at its end. `NoMemory` only where no memory is
    /// found.
    pub(crate) fn advance(mut self, alloc: Global) -> Result<Option<LeafWay>, NoMemory>
        requires { IsKept self }
        ensures kept { IfOk result (λ found. IfSome found IsKept) }
        ensures pending { IfOk result (λ found. MatchOption found (pending_on (steps_of self) ≡ [])
            (λ way. pending_on (steps_of self) ≡ way_sides (steps_of way) ∷ pending_on (steps_of way))) }
    {
        while let Some(step) = self.pop() {
            if !step.later {
                let second = Step {
                    split: step.split,
                    tail: step.tail,
                    later: true,
                };
                let turned = self.with(alloc, second)?;
                return Ok(Some(turned));
            }
        }
        Ok(None)
    }

    // Sides that ask what those of the steps up to the checkpoint of this number do, the first of which is
    // 1; none for 0.
    fn sides_at(&self, alloc: Global, number: usize) -> Result<Vec<Side>, NoMemory>
        requires kept { IsKept self.now }
        requires some { number ≤ length self.now.checkpoints.items }
        ensures { IfOk result (λ sides. AskAlike sides.items (take (number * SPACING) (way_sides (steps_of self.now)))) }
    {
        if number == 0 {
            return Ok(Vec::new(alloc));
        }
        let sides = copy_of(alloc, &self.checkpoints[number - 1])?;
        Ok(sides)
    }

    /// Sides that ask of legs what those of the way's first so many steps ask together; of all where it
    /// has no more. `NoMemory` only where no memory is found.
    pub(crate) fn first_sides(&self, alloc: Global, count: u32) -> Result<Vec<Side>, NoMemory>
        requires { IsKept self.now }
        ensures { IfOk result (λ sides. AskAlike sides.items (take count (way_sides (steps_of self.now)))) }
    {
        let most = (count as usize).min(self.entries.len());
        let number = (most / SPACING).min(self.checkpoints.len());
        let mut sides = self.sides_at(alloc, number)?;
        for place in number * SPACING..most {
            let step = self.entries[place].step;
            add_side(&mut sides, step.side())?;
        }
        Ok(sides)
    }

    /// Sides that ask of legs what those of the way's steps ask together.
    pub(crate) fn sides(&self) -> &[Side]
        requires { IsKept self.now }
        ensures { AskAlike result.now (way_sides (steps_of self.now)) }
    {
        &self.sides
    }
}
