//! Whether a table may be added to those of a run.
ghost use Rattle.std.specs.Prelude.{◌≡◌, ◌+◌, ◌<◌, ◌≤◌, ◌↔◌, [], ◌∷◌, All, AllPairs, IsTrue, length};
ghost use Rattle.std.specs.Bool.{OnTrue};
ghost use Rattle.fp_base_lists.specs.Order.{Precedes};
ghost use Rattle.fp_model.specs.declared.limits.TheConstants.{LATEST};
ghost use Rattle.fp_prices.specs.declared.tables.Weight.{Weight};
ghost use Rattle.fp_prices.specs.Shares.{ClassShare};
ghost use Rattle.fp_prices.specs.Tables.{IsAscendingTable};
ghost use Rattle.fp_duals.specs.declared.limits.TheConstants.{MOST_PRICE_LINES};
ghost use Rattle.fp_duals.specs.PriceLines.{line_count};
ghost use Rattle.fp_duals.specs.PriceTables.{IsFitTable, IsShareOf};

use fp_model::Instance;
use fp_model::limits::LATEST;
use fp_prices::{Share, Table, Weight, check_tables};
use std::slice;

// Whether a table of shares has at most so many price lines.
fn has_at_most(shares: &[Share], lines: u32) -> bool
    ensures { IsTrue result ↔ (line_count shares.now ≤ lines) }
{
    if lines == 0 {
        return false;
    }
    let mut left = u64::from(lines) - 1;
    for share in shares {
        let weights = share.weights.len() as u64;
        if weights >= left {
            return false;
        }
        left -= weights + 1;
    }
    true
}

// Whether weights stand by shipment.
fn weights_ascend(weights: &[Weight]) -> bool
    ensures { IsTrue result ↔ AllPairs (λ (v w : Weight). v.shipment < w.shipment) weights.now }
{
    for place in 1..weights.len() {
        if weights[place - 1].shipment >= weights[place].shipment {
            return false;
        }
    }
    true
}

// Whether one class stands before another: by its arc, and then by its point.
fn stands_before(first: &Share, second: &Share) -> bool
    ensures { IsTrue result
        ↔ Precedes first.now.arc first.now.point second.now.arc second.now.point }
{
    first.arc < second.arc || (first.arc == second.arc && first.point < second.point)
}

// Whether shares stand by arc and then by point.
fn shares_ascend(shares: &[Share]) -> bool
    ensures { IsTrue result
        ↔ AllPairs (λ (s t : ClassShare). Precedes s.arc s.point t.arc t.point) shares.now }
{
    for place in 1..shares.len() {
        if !stands_before(&shares[place - 1], &shares[place]) {
            return false;
        }
    }
    true
}

// Whether the shipments of weights exist.
fn shipments_exist(instance: &Instance, weights: &[Weight]) -> bool
    ensures { IsTrue result
        ↔ All (λ (w : Weight). w.shipment < length instance.now.shipments) weights.now }
{
    let shipments = instance.shipments().len();
    weights
        .iter()
        .all(|weight| (weight.shipment as usize) < shipments)
}

// Whether a share is of an arc and of shipments that exist, with a point that isn't too late, and
// its weights stand by shipment.
fn is_fit_share(instance: &Instance, share: &Share) -> bool
    ensures of { OnTrue result (IsShareOf instance.now share.now) }
    ensures point { OnTrue result (share.now.point ≤ LATEST) }
    ensures weights { OnTrue result
        (AllPairs (λ (v w : Weight). v.shipment < w.shipment) share.now.weights) }
{
    (share.arc as usize) < instance.arcs().len()
        && share.point <= LATEST
        && shipments_exist(instance, &share.weights)
        && weights_ascend(&share.weights)
}

// Whether each share is so.
fn are_fit_shares(instance: &Instance, shares: &[Share]) -> bool
    ensures of { OnTrue result (All (IsShareOf instance.now) shares.now) }
    ensures points { OnTrue result (All (λ (s : ClassShare). s.point ≤ LATEST) shares.now) }
    ensures weights { OnTrue result
        (All (λ (s : ClassShare). AllPairs (λ (v w : Weight). v.shipment < w.shipment) s.weights)
        shares.now) }
{
    for share in shares {
        if !is_fit_share(instance, share) {
            return false;
        }
    }
    true
}

// Whether there are shares, and at most so many price lines.
fn are_few(shares: &[Share], lines: u32) -> bool
    ensures some { OnTrue result (1 ≤ length shares.now) }
    ensures few { OnTrue result (line_count shares.now ≤ lines) }
{
    !shares.is_empty() && has_at_most(shares, lines)
}

/// Whether leaves of the instance may be priced by a table, and it has at most so many price lines:
/// it has a share, its shares and weights are in order, of arcs and shipments that exist and within
/// the price rule, and its points are no later than the latest time.
pub(crate) fn is_fit(instance: &Instance, table: &Table, lines: u32) -> bool
    requires { lines ≤ MOST_PRICE_LINES }
    ensures { OnTrue result (IsFitTable instance.now lines table.now) }
{
    let shares = table.shares.as_slice();
    if !are_few(shares, lines) {
        return false;
    }
    if !are_fit_shares(instance, shares) {
        return false;
    }
    shares_ascend(shares) && check_tables(instance, slice::from_ref(table)).is_ok()
}
