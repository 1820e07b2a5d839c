//! A leaf is divided where a shipment has several ways to go, by this, by a way or by the trucks of an arc.
ghost use Rattle.std.specs.Prelude.{None, ◌≡◌, ◌≤◌, IfOk, MatchOption, false, length};
ghost use Rattle.fp_tree.specs.declared.layout.TheConstants.{MOST_SPLITS};
ghost use Rattle.fp_session.specs.Choices.{AreKeptBelow, IsChosen, fork_by};
ghost use Rattle.fp_session.specs.Dividing.{IsSeveral, NoneSeveral, several_terminal};
ghost use Rattle.fp_session.specs.Moves.{AreNoLess, IsDivision};
ghost use Rattle.fp_session.specs.Nodes.{IsKept, IsRaisedTo};
ghost use Rattle.fp_duals_leaves.specs.Prices.{HaveGrown};
ghost use Rattle.fp_session.specs.Searches.{IsSearch, history, setting_of};

use crate::NoMemory;
use crate::branchings::Branching;
use crate::children::{child, raised};
use crate::choices::Chosen;
use crate::kept::{Below, Kept};
use crate::moves::Division;
use crate::searches::Search;
use fp_allowed::ChainEnd;
use fp_duals_leaves::Prices;
use fp_ends::{Deadline, Resources};
use fp_prices::Leaf;
use std::alloc::Global;

// A shipment whose chain ends where it has several ways to go, and the terminal where it does.
#[derive(Clone, Copy, Debug, PartialEq, Eq)]
pub(crate) struct Several {
    pub shipment: u32,
    pub terminal: u32,
}

// The terminal where a chain ends with several ways to go, if it ends so.
fn several_end(end: ChainEnd) -> Option<u32>
    ensures { result ≡ several_terminal end }
{
    match end {
        ChainEnd::Several { terminal } => Some(terminal),
        ChainEnd::Reached => None,
        ChainEnd::Stuck { .. } => None,
    }
}

// The first shipment whose chain ends where it has several ways to go, none exactly where no chain
// does.
pub(crate) fn first_several(
    alloc: Global,
    leaf: &Leaf,
    shipments: u32,
) -> Result<Option<Several>, NoMemory>
    requires { shipments ≡ length leaf.now.setting.problem.shipments }
    ensures { IfOk result (λ found. MatchOption found (NoneSeveral leaf.now shipments) (IsSeveral leaf.now)) }
{
    for shipment in 0..shipments {
        let chain = leaf.chain(alloc, shipment)?;
        match several_end(chain.end) {
            Some(terminal) => return Ok(Some(Several { shipment, terminal })),
            None => {}
        }
    }
    Ok(None)
}

// What is kept of the two leaves below a leaf of which that is kept and that is split by a branching.
// Where a trial told what is kept of them, they aren't priced again with little effort.
fn leaves_below<D: Deadline>(
    resources: &Resources<D>,
    search: &Search,
    leaf: &Leaf,
    chosen: Chosen,
    above: Kept,
    prices: &mut Prices,
) -> Result<Below, NoMemory>
    requires setting { leaf.now.setting ≡ setting_of search.now }
    requires search { IsSearch search.now prices.old }
    requires going { search.now.left ≡ None }
    requires chosen { IsChosen (history search.now prices.old) leaf.now.sides chosen }
    requires deep { length leaf.now.sides ≤ MOST_SPLITS }
    requires above { IsKept (history search.now prices.old) leaf.now.sides above.payload above.value }
    requires some { above.payload.empty ≡ false }
    ensures grown { HaveGrown search.now.instance search.now.windows prices.old prices.new }
    ensures kept { IfOk result (AreKeptBelow (history search.now prices.new) leaf.now.sides (fork_by chosen.branching)) }
    ensures no_less { IfOk result (λ below. IsRaisedTo prices.old.unit above below.first
        × IsRaisedTo prices.old.unit above below.second) }
{
    let Branching { split, tail } = chosen.branching;
    let one = split.first();
    let other = split.second(tail);
    match chosen.below {
        Some(tried) => {
            let first = raised(resources, search, leaf, one, tried.first, above, prices)?;
            let second = raised(resources, search, leaf, other, tried.second, above, prices)?;
            Ok(Below { first, second })
        }
        None => {
            let first = child(resources, search, leaf, split, one, above, prices)?;
            let second = child(resources, search, leaf, split, other, above, prices)?;
            Ok(Below { first, second })
        }
    }
}

// The division of a leaf of which this is kept, by a branching that was chosen.
pub(crate) fn division<D: Deadline>(
    resources: &Resources<D>,
    search: &Search,
    leaf: &Leaf,
    chosen: Chosen,
    above: Kept,
    prices: &mut Prices,
) -> Result<Division, NoMemory>
    requires setting { leaf.now.setting ≡ setting_of search.now }
    requires search { IsSearch search.now prices.old }
    requires going { search.now.left ≡ None }
    requires chosen { IsChosen (history search.now prices.old) leaf.now.sides chosen }
    requires deep { length leaf.now.sides ≤ MOST_SPLITS }
    requires above { IsKept (history search.now prices.old) leaf.now.sides above.payload above.value }
    requires some { above.payload.empty ≡ false }
    ensures grown { HaveGrown search.now.instance search.now.windows prices.old prices.new }
    ensures division { IfOk result (IsDivision (history search.now prices.new) leaf.now.sides) }
    ensures no_less { IfOk result (AreNoLess prices.old.unit above) }
{
    let below = leaves_below(resources, search, leaf, chosen, above, prices)?;
    Ok(Division {
        split: chosen.branching.split,
        tail: chosen.branching.tail,
        first: below.first,
        second: below.second,
    })
}
