//! What a tree is asked for, over its lists.
ghost use Rattle.std.specs.Prelude.{◌≡◌, ◌+◌, ◌<◌, ◌≤◌, ◌↔◌, true, length, count_by, All, IfOk, IfSome, IsNone, IsTrue, IsSomeAnd, slice_get};
ghost use Rattle.fp_tree.specs.Trees.{tree_leaves};
ghost use Rattle.fp_tree.specs.Nodes.{IsFirstLeast};
ghost use Rattle.fp_tree.specs.Layout.{IsPlaceOfLeaf, fork_of_kind, is_leaf_kind, IsBetterLeaf};

use crate::NoMemory;
use crate::layout::{Kind, LeafState, MOST_SPLITS};
use crate::sides::Side;
use crate::ways::Way;
use std::alloc::Global;

/// The first leaf of least value among those that aren't closed.
pub fn best_open_of<T>(states: &[LeafState<T>]) -> Option<u32>
    requires { length states.now ≤ MOST_SPLITS + 1 }
    ensures best { IfSome result
        (IsFirstLeast (λ s. s.closed) (λ s. s.value) states.now (length states.now)) }
    ensures none { IsNone result ↔ All (λ s. s.closed ≡ true) states.now }
{
    let mut best: Option<u32> = None;
    for leaf in 0..states.len() {
        if is_better(states, leaf, best) {
            best = Some(leaf as u32);
        }
    }
    best
}

// Whether a leaf is open and has less value than the best of those before it.
fn is_better<T>(states: &[LeafState<T>], leaf: usize, best: Option<u32>) -> bool
    requires leaf { leaf < length states.now }
    requires best { IfSome best (λ b. b < length states.now) }
    ensures { IsTrue result ↔ IsBetterLeaf states.now leaf best }
{
    let state = &states[leaf];
    match best {
        None => !state.closed,
        Some(best) => !state.closed && state.value < states[best as usize].value,
    }
}

/// The place in preorder of a leaf with that number.
pub fn place_of_leaf(kinds: &[Kind], leaf: u32) -> usize
    requires { leaf < count_by is_leaf_kind kinds.now }
    ensures { IsPlaceOfLeaf kinds.now leaf result }
{
    let mut left = leaf;
    for (place, kind) in kinds.iter().enumerate() {
        if let Kind::Leaf = kind {
            if left == 0 {
                return place;
            }
            left -= 1;
        }
    }
    unreachable!()
}

/// The sides on the way from the root to a leaf, in order.
pub fn sides_to(alloc: Global, kinds: &[Kind], leaf: u32) -> Result<Vec<Side>, NoMemory>
    requires { leaf < length (tree_leaves fork_of_kind kinds.now) }
    ensures { IfOk result (λ sides. IsSomeAnd (slice_get (tree_leaves fork_of_kind kinds.now) leaf)
        (λ l. l.sides ≡ sides.items)) }
{
    let mut way = Way::new(alloc);
    let mut left = leaf;
    for kind in kinds {
        match *kind {
            Kind::Divided { split, tail } => way.descend(split, tail)?,
            Kind::Leaf => {
                if left == 0 {
                    return way.sides(alloc);
                }
                left -= 1;
                way.advance();
            }
        }
    }
    unreachable!()
}
