//! What a leaf promises to be worth, while a split is tried.
ghost use Rattle.fp_prices.specs.Tables.{HasKind};
ghost use Rattle.fp_duals_leaves.specs.Prices.{ArePrices};

use crate::NoMemory;
use crate::prices::Prices;
use fp_duals_nets::LentNets;
use fp_duals_spans::promised_value as promised_by;
use fp_ends::{Deadline, Resources};
use fp_prices::{Leaf, LeafPrice};

/// What a leaf promises to be worth after a short search from a price that it inherits, with the spans and the
/// gifts beside the price's table, in parts of a unit of money. The nets are those of the leaf.
///
/// Nothing is promised of the number: heuristics alone read it. `NoMemory` only where no memory is found.
pub fn promised_value<D: Deadline>(
    resources: &Resources<D>,
    leaf: &Leaf,
    nets: &mut LentNets,
    price: LeafPrice,
    prices: &Prices,
) -> Result<u128, NoMemory>
    requires prices { ArePrices leaf.now.setting.problem leaf.now.setting.windows prices.now }
    requires kind { HasKind prices.now.tables price.kind }
{
    let model = nets.within(resources.alloc, leaf)?;
    let start = prices.start_at(price);
    promised_by(resources, leaf, model, start)
}
