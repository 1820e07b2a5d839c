//! How a leaf of a tree becomes a split, over its lists, where they have room.
ghost use Rattle.std.specs.Prelude.{◌≡◌, ◌+◌, ◌<◌, ◌≤◌, insert, slice_index_or, slice_set, vec_capacity, vec_len};
ghost use Rattle.fp_tree.specs.declared.layout.Kind.TheVariants.{Divided, Leaf};

use crate::layout::{Kind, LeafState};
use crate::sides::Split;
use std::mem;

/// Inserts an item where there is room for it.
pub fn insert_reserved<X: Drop>(items: &mut Vec<X>, place: usize, item: X)
    requires place { place ≤ vec_len items.old }
    requires room { vec_len items.old < vec_capacity items.old }
    ensures items { items.new.items ≡ insert items.old.items place item }
    ensures len { vec_len items.new ≡ vec_len items.old + 1 }
    ensures capacity { vec_capacity items.old ≤ vec_capacity items.new }
{
    match items.insert(place, item) {
        Ok(()) => {}
        Err(_) => unreachable!(),
    }
}

/// Puts a split and a leaf before the leaf at a place, which becomes the second one below the
/// split.
pub fn divide_kind(kinds: &mut Vec<Kind>, place: usize, split: Split, tail: u32)
    requires place { place ≤ vec_len kinds.old }
    requires room { vec_len kinds.old + 2 ≤ vec_capacity kinds.old }
    ensures { kinds.new.items
        ≡ insert (insert kinds.old.items place (Divided split tail)) (place + 1) Leaf }
{
    insert_reserved(kinds, place, Kind::Divided { split, tail });
    insert_reserved(kinds, place + 1, Kind::Leaf);
}

/// Puts two states in place of one, whose payload it hands out.
pub fn divide_state<T: Drop>(
    states: &mut Vec<LeafState<T>>,
    leaf: usize,
    first: LeafState<T>,
    second: LeafState<T>,
) -> T
    requires leaf { leaf < vec_len states.old }
    requires room { vec_len states.old < vec_capacity states.old }
    ensures states { states.new.items ≡ insert (slice_set states.old.items leaf second) leaf first }
    ensures payload { (slice_index_or states.old.items leaf first).payload ≡ result }
{
    let divided = mem::replace(&mut states[leaf], second);
    insert_reserved(states, leaf, first);
    divided.payload
}
