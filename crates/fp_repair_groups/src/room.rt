//! Room that lists have before they grow.
ghost use Rattle.std.specs.Prelude.{◌≡◌};
ghost use Rattle.fp_base_lists.specs.Vectors.{lists_of};

use crate::NoMemory;

// Adds to the end of a list that has room for it; a list without room stays. It takes no memory.
pub(crate) fn push_in_room<T: Drop>(list: &mut Vec<T>, item: T) {
    if list.len() < list.capacity() {
        list.push_reserved(item);
    }
}

// Makes room for so many more in the list at a place, where there is one.
pub(crate) fn make_room_at<T>(
    lists: &mut Vec<Vec<T>>,
    at: usize,
    more: usize,
) -> Result<(), NoMemory>
    ensures { lists_of lists.new.items ≡ lists_of lists.old.items }
{
    if at < lists.len() {
        lists[at].reserve(more)?;
    }
    Ok(())
}
