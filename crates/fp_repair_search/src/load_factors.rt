//! How well the trucks of a departure are filled.

use crate::draws::Draws;
use fp_model::Instance;
use fp_repair_groups::Group;

// At most so many groups are compared.
const COMPARED: u32 = 4;

// How many eighths of a truck a group has room for, at most seven.
fn empty_eighths(instance: &Instance, group: &Group) -> u64 {
    let Some(arc) = instance.arcs().get(group.arc as usize) else {
        return 0;
    };
    let mut empty = 0;
    for eighths in 1..8u64 {
        let size = arc.capacity.saturating_mul(eighths).div_ceil(8);
        if group.more_trucks(size, arc.capacity) > 0 {
            break;
        }
        empty = eighths;
    }
    empty
}

// Of up to four drawn groups the one with the emptiest truck, of those with at most so many legs.
pub(crate) fn emptiest(
    instance: &Instance,
    groups: &[Group],
    most: u32,
    draws: &mut Draws,
) -> Option<usize> {
    let mut found = None;
    let mut emptiest = 0;
    for _ in 0..draws.below(COMPARED).saturating_add(1) {
        let number = draws.place(groups.len());
        if let Some(group) = groups.get(number)
            && group.count > 0
            && group.count <= most
        {
            let empty = empty_eighths(instance, group);
            if found.is_none() || empty > emptiest {
                found = Some(number);
                emptiest = empty;
            }
        }
    }
    found
}
