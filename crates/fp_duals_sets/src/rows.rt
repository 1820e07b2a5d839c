//! Sets of some who pay, by what they come to.

use crate::NoMemory;
use crate::items::{Item, weight_of};
use crate::load_rows::add_item;
use fp_duals_nets::part_mut;
use std::alloc::Global;

// What items come to in grains.
fn grains_of(items: &[Item]) -> usize {
    let mut sum = 0usize;
    for item in items {
        sum = sum.saturating_add(item.grains);
    }
    sum
}

// What all items of a row pay together has at most so many bits: with one more for each item, as the parts of
// weights are rounded up, no sum passes 32 bits with a sign.
const WEIGHT_BITS: u32 = 29;

// What a number of 32 bits with a sign holds.
const MOST_PARTS: u64 = (1 << 31) - 1;

// How many of the last bits of weights are left out where they come to so much together.
fn shift_for(weight: u64) -> u32 {
    64u32
        .saturating_sub(weight.leading_zeros())
        .saturating_sub(WEIGHT_BITS)
}

/// Rows of loads: what a set of the first items pays at most, by its load in grains. A row is filled up
/// to what the items with the next one come to. The memory is kept.
#[derive(Drop)]
pub(crate) struct Rows {
    // In parts of 2^shift, rounded up for each item. Of signed numbers of 32 bits the greater is found for
    // several loads at once.
    cells: Vec<i32>,
    shift: u32,
    width: usize,
    items: usize,
    // The last load that is filled in the last row.
    last: usize,
}

// A weight in parts of 2^shift, rounded up.
fn parts_of(weight: u64, shift: u32) -> i32 {
    let whole = weight.wrapping_shr(shift);
    let left = whole.wrapping_shl(shift) < weight;
    whole.saturating_add(u64::from(left)).min(MOST_PARTS) as i32
}

impl Rows {
    /// The row of nobody.
    pub(crate) fn new(alloc: Global) -> Rows {
        Rows {
            cells: Vec::new(alloc),
            shift: 0,
            width: 0,
            items: 0,
            last: 0,
        }
    }

    /// Fills the rows for sets of some items, of at most so many grains.
    pub(crate) fn fill(&mut self, items: &[Item], loads: usize) -> Result<(), NoMemory> {
        self.width = loads.wrapping_add(1);
        self.items = items.len();
        let cells = self.items.wrapping_add(1).wrapping_mul(self.width);
        if cells > self.cells.len() {
            self.cells.resize(cells, 0)?;
        }
        self.shift = shift_for(weight_of(items));
        if let Some(first) = self.cells.first_mut() {
            *first = 0;
        }
        let mut start = 0usize;
        let mut last = 0usize;
        for item in items {
            let next = start.wrapping_add(self.width);
            if let Some((before, after)) = self.cells.split_at_mut_checked(next)
                && let Some(old) = part_mut(before, start, next)
                && let Some(new) = part_mut(after, 0, self.width)
            {
                last = add_item(
                    old,
                    new,
                    last,
                    item.grains,
                    parts_of(item.weight, self.shift),
                );
            }
            start = next;
        }
        self.last = last;
        Ok(())
    }

    // The row with so many items.
    fn row(&self, items: usize) -> &[i32] {
        let start = items.wrapping_mul(self.width);
        self.cells
            .get(start..start.wrapping_add(self.width))
            .unwrap_or(&[])
    }

    /// What a number of a row counts for: no less than its set pays.
    pub(crate) fn paid(&self, parts: i32) -> u64 {
        u64::from(parts.cast_unsigned()).wrapping_shl(self.shift)
    }

    /// The last row, as far as it's filled.
    pub(crate) fn last_row(&self) -> &[i32] {
        let row = self.row(self.items);
        row.get(..self.last.wrapping_add(1)).unwrap_or(row)
    }

    /// What no set pays more than.
    pub(crate) fn most(&self) -> u64 {
        self.last_row().last().map_or(0, |parts| self.paid(*parts))
    }

    /// Adds a set that pays the most by the rows, of the items by which they were filled.
    pub(crate) fn add_best(&self, items: &[Item], set: &mut Vec<Item>) -> Result<(), NoMemory> {
        let mut left = self.last;
        let mut rest = grains_of(items);
        for number in (0..items.len()).rev() {
            left = left.min(rest);
            let with = self.row(number.wrapping_add(1)).get(left);
            if let Some(item) = items.get(number) {
                rest = rest.saturating_sub(item.grains);
                if with != self.row(number).get(left) {
                    set.push(*item)?;
                    left = left.saturating_sub(item.grains);
                }
            }
        }
        Ok(())
    }
}
