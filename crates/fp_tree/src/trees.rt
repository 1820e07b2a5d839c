//! The tree of a branch-and-bound search, with what the search keeps at its nodes.
ghost use Rattle.std.specs.Prelude.{◌≡◌, ℕ, ◌<◌, ◌≤◌, ◌+◌, ◌↔◌, ◌∷◌, [], true, length, All, IfOk, IfSome, IsNone, IsSomeAnd, OnOk, OnErr, slice_get};
ghost use Rattle.fp_tree.specs.Trees.{CoversAll, HaveTails, IsTree, tree_leaves, with_leaf};
ghost use Rattle.fp_tree.specs.Nodes.{IsBestOpen, close_leaf, closed_of, divide_leaf, fork_of, leaf_at, leaf_count, open_leaf, put_leaf, split_at, split_count, split_of, value_of};

use crate::NoMemory;
use crate::edits::{divide_kind, divide_state, insert_reserved};
use crate::layout::{Kind, LeafState, MOST_SPLITS};
use crate::reads::{best_open_of, place_of_leaf, sides_to};
use crate::sides::{Side, Split};
use std::alloc::Global;
use std::marker::Model;

/// A tree of splits. Contracts see the list of its nodes in preorder: a split, the nodes below its
/// first side, the nodes below its second.
///
/// A leaf has a payload, a value and a mark whether it is closed. A split keeps the payload that it
/// had as a leaf. Leaves and splits are numbered from 0 in preorder, each on its own. A tree has at
/// most [`MOST_SPLITS`] splits. Each call but `leaf_sides`, `best_open` and `split_leaf`, which
/// take time in the number of nodes, takes the same time whatever the tree.
#[derive(Drop)]
pub struct Tree<T> {
    // What each node is, in preorder.
    kinds: Vec<Kind>,
    // What the leaves have, in preorder.
    states: Vec<LeafState<T>>,
    // What the splits had as leaves, in preorder.
    payloads: Vec<T>,
}

impl<T> Model for Tree<T> {
    ghost use Rattle.std.specs.Prelude.{List};
    ghost use Rattle.fp_tree.specs.Nodes.{Node};

    ghost Value = { List (Node T) };

    ghost use Rattle.fp_tree.specs.Layout.{joined_nodes, IsSoundLayout};

    ghost view = { λ t. joined_nodes t.kinds.items t.states.items t.payloads.items };

    ghost invariant = { λ t. IsSoundLayout t.kinds.items t.states.items t.payloads.items };
}

impl<T: Drop> Tree<T> {
    /// A tree of one leaf, which isn't closed. `value` is a bound in the search's own unit.
    ///
    /// `NoMemory` only where no memory is found.
    pub fn new(alloc: Global, payload: T, value: u128) -> Result<Tree<T>, NoMemory>
        ensures { IfOk result (λ tree. tree ≡ open_leaf payload value ∷ []) }
    {
        let mut states = Vec::new(alloc);
        states.push(LeafState::open(payload, value))?;
        Ok(Tree {
            kinds: vec![in alloc; Kind::Leaf]?,
            states,
            payloads: Vec::new(alloc),
        })
    }

    /// The number of splits, at most [`MOST_SPLITS`].
    pub fn splits(&self) -> u32
        ensures count { result ≡ split_count self.now }
        ensures few { result ≤ MOST_SPLITS }
    {
        self.payloads.len() as u32
    }

    /// The number of leaves, one more than there are splits.
    pub fn leaves(&self) -> u32
        ensures count { result ≡ leaf_count self.now }
        ensures one_more { result ≡ split_count self.now + 1 }
        ensures nodes { length self.now ≡ split_count self.now + result }
    {
        self.states.len() as u32
    }

    /// The payload of a leaf.
    pub fn payload(&self, leaf: u32) -> &T
        requires { leaf < leaf_count self.now }
        ensures { IsSomeAnd (leaf_at self.now leaf) (λ l. l.node.payload ≡ result.now) }
    {
        &self.states[leaf as usize].payload
    }

    /// The value of a leaf.
    pub fn value(&self, leaf: u32) -> u128
        requires { leaf < leaf_count self.now }
        ensures { IsSomeAnd (leaf_at self.now leaf) (λ l. value_of l.node ≡ result) }
    {
        self.states[leaf as usize].value
    }

    /// Whether a leaf is closed.
    pub fn is_closed(&self, leaf: u32) -> bool
        requires { leaf < leaf_count self.now }
        ensures { IsSomeAnd (leaf_at self.now leaf) (λ l. closed_of l.node ≡ result) }
    {
        self.states[leaf as usize].closed
    }

    /// The payload that a split had as a leaf.
    pub fn split_payload(&self, split: u32) -> &T
        requires { split < split_count self.now }
        ensures { IsSomeAnd (split_at self.now split) (λ n. n.payload ≡ result.now) }
    {
        &self.payloads[split as usize]
    }

    /// The split at a place of the preorder, from 0. None exactly where a leaf stands there.
    pub fn split_at(&self, node: u32) -> Option<Split>
        requires { node < length self.now }
        ensures { IsSomeAnd (slice_get self.now node) (λ n. split_of n ≡ result) }
    {
        self.kinds[node as usize].split()
    }

    /// The leaf of least value among those that aren't closed, the first in preorder at a tie.
    ///
    /// None exactly where all leaves are closed.
    pub fn best_open(&self) -> Option<u32>
        ensures best { IfSome result (IsBestOpen self.now) }
        ensures none { IsNone result
            ↔ All (λ l. closed_of l.node ≡ true) (tree_leaves fork_of self.now) }
    {
        best_open_of(self.states.as_slice())
    }

    /// The sides on the way from the root to a leaf, in order. `NoMemory` only where no memory is
    /// found.
    pub fn leaf_sides(&self, alloc: Global, leaf: u32) -> Result<Vec<Side>, NoMemory>
        requires { leaf < leaf_count self.now }
        ensures { IfOk result
            (λ sides. IsSomeAnd (leaf_at self.now leaf) (λ l. l.sides ≡ sides.items)) }
    {
        sides_to(alloc, self.kinds.as_slice(), leaf)
    }

    /// Makes a leaf a split, with two leaves below it that aren't closed. The tree has fewer than
    /// [`MOST_SPLITS`] splits before.
    ///
    /// `first` and `second` are the payloads and values of the new leaves. `tail` is the terminal
    /// that the split's arc leaves; it counts only for a split by an arc. `NoMemory` only where no
    /// memory is found, and it leaves the tree as it was.
    pub fn split_leaf(
        &mut self,
        _alloc: Global,
        leaf: u32,
        split: Split,
        tail: u32,
        first: (T, u128),
        second: (T, u128),
    ) -> Result<(), NoMemory>
        requires leaf { leaf < leaf_count self.old }
        requires few { split_count self.old < MOST_SPLITS }
        ensures ok { OnOk result (self.new ≡ with_leaf fork_of
            (divide_leaf (record { split = split; tail = tail })
            (open_leaf first.0 first.1) (open_leaf second.0 second.1)) leaf self.old) }
        ensures leaves { OnOk result (leaf_count self.new ≡ leaf_count self.old + 1) }
        ensures splits { OnOk result (split_count self.new ≡ split_count self.old + 1) }
        ensures err { OnErr result (self.new ≡ self.old) }
    {
        self.kinds.reserve(2)?;
        self.states.reserve(1)?;
        self.payloads.reserve(1)?;
        let place = place_of_leaf(self.kinds.as_slice(), leaf);
        divide_kind(&mut self.kinds, place, split, tail);
        let first = LeafState::open(first.0, first.1);
        let second = LeafState::open(second.0, second.1);
        let payload = divide_state(&mut self.states, leaf as usize, first, second);
        insert_reserved(&mut self.payloads, place - leaf as usize, payload);
        Ok(())
    }

    /// Gives a leaf another payload and another value. Its mark and all else stay.
    pub fn put(&mut self, leaf: u32, payload: T, value: u128)
        requires { leaf < leaf_count self.old }
        ensures changed { self.new ≡ with_leaf fork_of (put_leaf payload value) leaf self.old }
        ensures leaves { leaf_count self.new ≡ leaf_count self.old }
        ensures splits { split_count self.new ≡ split_count self.old }
    {
        let state = &mut self.states[leaf as usize];
        state.payload = payload;
        state.value = value;
    }

    /// Marks a leaf as closed. All else stays.
    pub fn close(&mut self, leaf: u32)
        requires { leaf < leaf_count self.old }
        ensures changed { self.new ≡ with_leaf fork_of close_leaf leaf self.old }
        ensures leaves { leaf_count self.new ≡ leaf_count self.old }
        ensures splits { split_count self.new ≡ split_count self.old }
    {
        self.states[leaf as usize].closed = true;
    }
}

/// That the nodes are one tree, and that its leaves cover all plans.
///
/// Where each tail handed in is that of its arc, each list of legs, over any denominator, in which
/// a shipment leaves no terminal twice, and goes by no two arcs that are rivals, obeys all sides of some
/// leaf. However the trucks are counted, if only some are where a leg leaves, there are so many of them as
/// the sides of that leaf ask. The call does nothing.
pub fn leaves_cover_all<T>(tree: &Tree<T>)
    ensures tree { IsTree fork_of tree.now }
    ensures covers { (tails : ℕ → ℕ) → HaveTails tails fork_of tree.now
        → CoversAll tails (tree_leaves fork_of tree.now) }
{
    let _kinds = &tree.kinds;
}
