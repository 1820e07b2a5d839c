//! Rows of loads: what a set of the first of some items pays at most, by its load in grains.

use fp_duals_nets::part_mut;

// Sets the loads of a row that are more than the items come to: no set pays more by them.
fn extend_row(row: &mut [i32], last: usize, end: usize) {
    let most = row.get(last).copied().unwrap_or(0);
    if let Some(past) = part_mut(row, last.wrapping_add(1), end) {
        for cell in past.iter_mut() {
            *cell = most;
        }
    }
}

// Copies what is paid without an item.
fn copy_row(new: &mut [i32], old: &[i32]) {
    for (to, from) in new.iter_mut().zip(old.iter()) {
        *to = *from;
    }
}

// Takes what is paid without an item or, where it is more, with it.
fn raise_row(new: &mut [i32], old: &[i32], rests: &[i32], weight: i32) {
    for ((to, from), rest) in new.iter_mut().zip(old.iter()).zip(rests.iter()) {
        *to = (*from).max(rest.wrapping_add(weight));
    }
}

/// Fills a row with one item more than another that is filled up to the load `last`, and that one
/// as far. The last load that is filled.
pub(crate) fn add_item(
    old: &mut [i32],
    new: &mut [i32],
    last: usize,
    grains: usize,
    weight: i32,
) -> usize {
    let end = last
        .wrapping_add(grains)
        .wrapping_add(1)
        .min(old.len())
        .min(new.len());
    extend_row(old, last, end);
    if let Some(old) = old.get(..end)
        && let Some(new) = part_mut(new, 0, end)
    {
        match new.split_at_mut_checked(grains) {
            Some((below, above)) => {
                copy_row(below, old);
                raise_row(above, old.get(grains..).unwrap_or(&[]), old, weight);
            }
            None => copy_row(new, old),
        }
    }
    end.saturating_sub(1)
}
