//! What a search has of a leaf of its tree, by the leaf's number.
ghost use Rattle.std.specs.Prelude.{◌≡◌, ◌<◌, ◌≤◌, IfOk, IsSomeAnd, length};
ghost use Rattle.fp_tree.specs.declared.layout.TheConstants.{MOST_SPLITS};
ghost use Rattle.fp_tree.specs.Nodes.{leaf_at, leaf_count};
ghost use Rattle.fp_session.specs.Nodes.{IsKeptAs};

use crate::NoMemory;
use crate::kept::Kept;
use crate::searches::Search;
use fp_tree::Side;
use std::alloc::Global;

// What is kept of it.
pub(crate) fn kept_at(search: &Search, number: u32) -> Kept
    requires { number < leaf_count search.now.tree }
    ensures { IsSomeAnd (leaf_at search.now.tree number) (λ l. IsKeptAs l result) }
{
    Kept {
        payload: *search.tree.payload(number),
        value: search.tree.value(number),
    }
}

// Its sides: no more than a tree may have splits.
pub(crate) fn sides_at(alloc: Global, search: &Search, number: u32) -> Result<Vec<Side>, NoMemory>
    requires { number < leaf_count search.now.tree }
    ensures sides { IfOk result (λ sides.
        IsSomeAnd (leaf_at search.now.tree number) (λ l. l.sides ≡ sides.items)) }
    ensures deep { IfOk result (λ sides. length sides.items ≤ MOST_SPLITS) }
{
    // Each side is that of a split on the way.
    let _splits = search.tree.splits();
    search.tree.leaf_sides(alloc, number)
}
