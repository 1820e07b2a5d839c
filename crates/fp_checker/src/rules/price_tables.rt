//! Whether tables of prices are in order.
ghost use Rattle.std.specs.Prelude.{◌<◌, ◌↔◌, All, AllPairs, IsTrue};
ghost use Rattle.fp_prices.specs.declared.tables.Weight.{Weight};
ghost use Rattle.fp_prices.specs.Shares.{ClassShare};
ghost use Rattle.fp_prices.specs.Tables.{AreCountable, AreTables, IsAscendingTable};
ghost use Rattle.fp_base_lists.specs.Order.{Precedes};

use crate::rules::orders::stands_before;
use fp_model::Instance;
use fp_prices::{Share, Table, Weight, check_tables};

// Whether weights stand by shipment.
fn weights_ascend(weights: &[Weight]) -> bool
    ensures { IsTrue result ↔ AllPairs (λ (v w : Weight). v.shipment < w.shipment) weights.now }
{
    for place in 1..weights.len() {
        if weights[place - 1].shipment >= weights[place].shipment {
            return false;
        }
    }
    true
}

// Whether shares stand by arc and then by point.
fn shares_ascend(shares: &[Share]) -> bool
    ensures { IsTrue result
        ↔ AllPairs (λ (s t : ClassShare). Precedes s.arc s.point t.arc t.point) shares.now }
{
    for place in 1..shares.len() {
        let (first, second) = (&shares[place - 1], &shares[place]);
        if !stands_before((first.arc, first.point), (second.arc, second.point)) {
            return false;
        }
    }
    true
}

// Whether the weights of each share stand by shipment.
fn all_weights_ascend(shares: &[Share]) -> bool
    ensures { IsTrue result
        ↔ All (λ (s : ClassShare). AllPairs (λ (v w : Weight). v.shipment < w.shipment) s.weights)
        shares.now }
{
    for share in shares {
        if !weights_ascend(share.weights.as_slice()) {
            return false;
        }
    }
    true
}

// Whether the shares and weights of a table are in order.
fn is_ascending(table: &Table) -> bool
    ensures { IsTrue result ↔ IsAscendingTable table.now }
{
    let shares = table.shares.as_slice();
    shares_ascend(shares) && all_weights_ascend(shares)
}

// Whether all tables are in order.
fn all_ascending(tables: &[Table]) -> bool
    ensures { IsTrue result ↔ All IsAscendingTable tables.now }
{
    for table in tables {
        if !is_ascending(table) {
            return false;
        }
    }
    true
}

// Whether the tables are in order and their shares keep the price rule.
pub(crate) fn are_tables(instance: &Instance, tables: &[Table]) -> bool
    requires { AreCountable instance.now tables.now }
    ensures { IsTrue result ↔ AreTables instance.now tables.now }
{
    all_ascending(tables) && check_tables(instance, tables).is_ok()
}
