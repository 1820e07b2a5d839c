//! Lists of times that a network holds.
ghost use Rattle.std.specs.Prelude.{◌≡◌, ◌<◌, ◌≤◌, [], IfOk, insert, length, slice_index_or, vec_capacity, vec_len};
ghost use Rattle.fp_base_lists.specs.Vectors.{lists_of};

use crate::NoMemory;
use std::alloc::Global;

// The list with a number.
pub(crate) fn list_at(lists: &[Vec<u32>], number: u32) -> &[u32]
    requires { number < length lists.now }
    ensures { result.now ≡ slice_index_or (lists_of lists.now) number [] }
{
    &lists[number as usize]
}

// Puts a time into a list that has room for it.
pub(crate) fn put(list: &mut Vec<u32>, place: usize, time: u32)
    requires place { place ≤ length list.old.items }
    requires room { vec_len list.old < vec_capacity list.old }
    ensures { list.new.items ≡ insert list.old.items place time }
{
    list.insert(place, time).unwrap();
}

// Equal lists.
pub(crate) fn copied(alloc: Global, lists: &[Vec<u32>]) -> Result<Vec<Vec<u32>>, NoMemory>
    ensures { IfOk result (λ copies. lists_of copies.items ≡ lists_of lists.now) }
{
    let mut copies = Vec::with_capacity(alloc, lists.len())?;
    for list in lists {
        copies.push(list.as_slice().to_vec(alloc)?)?;
    }
    Ok(copies)
}
