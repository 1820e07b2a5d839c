//! Walks of a leaf by the spans of its price.
ghost use Rattle.std.specs.Prelude.{IfOk, IfSome};
ghost use Rattle.fp_prices.specs.Tables.{HasKind};
ghost use Rattle.fp_duals_leaves.specs.Prices.{ArePrices};
ghost use Rattle.fp_duals_walks.specs.AllowedWalks.{AreAllowedWalks};

use crate::NoMemory;
use crate::prices::Prices;
use fp_duals_nets::LentNets;
use fp_duals_spans::proposed_walks;
use fp_duals_walks::are_allowed_walks;
use fp_longestarcs::TimedWalk;
use fp_prices::{Leaf, LeafPrice};
use std::alloc::Global;

/// An allowed timed walk of each shipment at a leaf, where spans stand beside the table of the
/// leaf's price and such walks are found: of least cost by these spans, and sharing trucks. Only
/// that they are allowed is promised. The nets are those of the leaf. `NoMemory` only where no
/// memory is found.
pub fn walks_by_spans(
    alloc: Global,
    leaf: &Leaf,
    nets: &mut LentNets,
    price: LeafPrice,
    prices: &Prices,
) -> Result<Option<Vec<TimedWalk>>, NoMemory>
    requires prices { ArePrices leaf.now.setting.problem leaf.now.setting.windows prices.now }
    requires kind { HasKind prices.now.tables price.kind }
    ensures { IfOk result (λ found. IfSome found (λ walks. AreAllowedWalks leaf.now walks.items)) }
{
    let start = prices.start_at(price);
    if start.spans.is_empty() {
        return Ok(None);
    }
    let walks = proposed_walks(alloc, leaf, nets.within(alloc, leaf)?, start)?;
    if are_allowed_walks(leaf, &walks) {
        Ok(Some(walks))
    } else {
        Ok(None)
    }
}
