//! The number of the group of each leg.
ghost use Rattle.std.specs.Prelude.{◌≡◌, ◌<◌, ◌≤◌, ◌*◌, ◌^◌, Some, All, IfOk, length};
ghost use Rattle.fp_base_lists.specs.Vectors.{lists_of};
ghost use Rattle.fp_model.specs.Members.{AreGroupsOf, IsMemberOf};
ghost use Rattle.fp_dispatch.specs.Rising.{AreGroupNumbers, IsWide, place_of, set_each};

use crate::NoMemory;
use crate::places::place;
use fp_model::Member;
use std::alloc::Global;

// For each leg the number of its group, if it has one, in a table that has so many entries a route.
#[derive(Drop)]
pub(crate) struct Numbers {
    pub width: usize,
    pub table: Vec<Option<usize>>,
}

// The numbers of the groups of all legs, of which there are at most `count`. `routes` serves the contract alone.
pub(crate) fn group_numbers(
    alloc: Global,
    routes: &[Vec<u32>],
    groups: &[Vec<Member>],
    width: usize,
    count: usize,
) -> Result<Numbers, NoMemory>
    requires groups { AreGroupsOf (lists_of routes.now) (lists_of groups.now) }
    requires wide { IsWide (lists_of routes.now) width }
    requires count { count ≡ length routes.now * width }
    requires few { count < 2 ^ 32 }
    ensures width { IfOk result (λ numbers. numbers.width ≡ width) }
    ensures numbers { IfOk result (λ numbers.
        AreGroupNumbers (lists_of routes.now) (lists_of groups.now) width (length groups.now) numbers.table.items) }
    ensures long { IfOk result (λ numbers. length numbers.table.items ≡ count) }
{
    let mut table = vec![in alloc; None; count]?;
    for (number, group) in groups.iter().enumerate() {
        number_group(&mut table, width, group, number);
    }
    Ok(Numbers { width, table })
}

// Writes the number of a group at its legs.
fn number_group(table: &mut [Option<usize>], width: usize, group: &[Member], number: usize)
    requires { All (λ m. place_of width m < length table.old) group.now }
    ensures { table.new ≡ set_each width group.now (Some number) table.old }
{
    for leg in group {
        table[place(width, *leg)] = Some(number);
    }
}
