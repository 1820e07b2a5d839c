//! A price by which a leaf is worth plainly no less than so much.
ghost use Rattle.std.specs.Prelude.{◌≡◌, None, IfOk, IfSome, false};
ghost use Rattle.fp_prices.specs.Tables.{HasKind};
ghost use Rattle.fp_duals_leaves.specs.Prices.{ArePrices, HaveGrown};

use crate::NoMemory;
use crate::prices::Prices;
use crate::pricing::bound_by;
use crate::steady_tables::steady_table;
use fp_prices::{Kind, Leaf, LeafBound, LeafPrice};
use std::alloc::Global;

// Whether a leaf is worth no less than so much by a price.
fn is_worth(
    alloc: Global,
    leaf: &Leaf,
    price: LeafPrice,
    least: u128,
    prices: &Prices,
) -> Result<bool, NoMemory>
    requires prices { ArePrices leaf.now.setting.problem leaf.now.setting.windows prices.now }
    requires kind { HasKind prices.now.tables price.kind }
{
    match bound_by(alloc, leaf, price, prices)? {
        Some(LeafBound::Value { value }) => Ok(value >= least),
        Some(LeafBound::Empty { .. }) | None => Ok(false),
    }
}

/// A plain price by a table that is added, as of the same round as a price that counts forced classes, by
/// which a leaf is worth no less than so much, where such a table is found: none where spans are sought.
///
/// Prices by tables are worth no less below the leaf, while a class that is forced there alone can make
/// the leaf below worth less. Nothing is promised of when such a table is found; where it isn't, no table
/// is added. `NoMemory` only where no memory is found.
#[tactic(auto, using(crate::proofs::GrownPrices::HaveGrown_none))]
pub fn steady_price(
    alloc: Global,
    leaf: &Leaf,
    price: LeafPrice,
    least: u128,
    prices: &mut Prices,
) -> Result<Option<LeafPrice>, NoMemory>
    requires prices { ArePrices leaf.now.setting.problem leaf.now.setting.windows prices.old }
    requires without { prices.old.unit ≡ None }
    ensures grown { HaveGrown leaf.now.setting.problem leaf.now.setting.windows
        prices.old prices.new }
    ensures kind { IfOk result (λ found. IfSome found (λ p. HasKind prices.new.tables p.kind)) }
    ensures round { IfOk result (λ found. IfSome found (λ p. p.round ≡ price.round)) }
{
    let count = prices.count();
    let table = steady_table(alloc, leaf, prices.tables(), price.kind)?;
    if !prices.push_table(alloc, leaf.round().instance(), table)? {
        return Ok(None);
    }
    let id = prices.count();
    let steady = LeafPrice {
        kind: Kind::Table { id },
        round: price.round,
        forced: false,
    };
    if is_worth(alloc, leaf, steady, least, prices)? {
        return Ok(Some(steady));
    }
    prices.cut(count);
    Ok(None)
}
