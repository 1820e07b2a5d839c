//! What the averaged walks of a leaf use.
ghost use Rattle.fp_prices.specs.Tables.{HasKind};
ghost use Rattle.fp_duals_leaves.specs.Prices.{ArePrices};

use crate::NoMemory;
use crate::prices::Prices;
use fp_duals_nets::LentNets;
use fp_duals_spans::{AveragedUses, PaidTrucks, averaged_uses};
use fp_ends::{Deadline, Resources};
use fp_prices::{Leaf, LeafPrice};
use std::alloc::Global;

// At most so many turns: few, since the price from which walks are averaged is good already.
const TURNS: u32 = 100;

// The numbers of trucks, each at the place of its arc.
fn by_arc(alloc: Global, arcs: usize, paid: &[PaidTrucks]) -> Result<Vec<u64>, NoMemory> {
    let mut trucks = vec![in alloc; 0; arcs]?;
    for one in paid {
        if let Some(place) = trucks.get_mut(one.arc as usize) {
            *place = one.trucks;
        }
    }
    Ok(trucks)
}

/// What the averaged walks of a leaf use, in parts of [`TRUCK_PARTS`](fp_duals_spans::TRUCK_PARTS): for each
/// arc, by its number, how many trucks of it they pay for; and how much of each shipment's goes by each arc,
/// at the place of the shipment's number times the number of arcs, and the arc's number.
#[derive(Drop)]
pub struct LeafUses {
    pub trucks: Vec<u64>,
    pub ways: Vec<u64>,
}

/// What the averaged walks of a leaf use under its price, with the spans and the gifts beside the price's
/// table. The nets are those of the leaf.
///
/// Nothing is promised of the numbers: heuristics alone read them. `NoMemory` only where no memory is
/// found.
pub fn leaf_uses<D: Deadline>(
    resources: &Resources<D>,
    leaf: &Leaf,
    nets: &mut LentNets,
    price: LeafPrice,
    prices: &Prices,
) -> Result<LeafUses, NoMemory>
    requires prices { ArePrices leaf.now.setting.problem leaf.now.setting.windows prices.now }
    requires kind { HasKind prices.now.tables price.kind }
{
    let start = prices.start_at(price);
    let model = nets.within(resources.alloc, leaf)?;
    let AveragedUses { trucks, ways } = averaged_uses(resources, leaf, model, start, TURNS)?;
    let arcs = leaf.round().instance().arcs().len();
    let trucks = by_arc(resources.alloc, arcs, &trucks)?;
    Ok(LeafUses { trucks, ways })
}
