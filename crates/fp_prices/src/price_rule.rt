//! Tests tables of prices against the price rule.
ghost use Rattle.std.specs.Prelude.{◌≡◌, ◌+◌, ◌*◌, ◌-◌, ◌<◌, ◌≤◌, ◌^◌, ◌↔◌, All, IfErr, IfNone, IfSome, IsTrue, MatchOption, OnOk, length, sum_by};
ghost use Rattle.fp_model.specs.Problem.{arc_at};
ghost use Rattle.fp_prices.specs.declared.tables.Weight.{Weight};
ghost use Rattle.fp_prices.specs.Shares.{ClassShare};
ghost use Rattle.fp_prices.specs.Prices.{AllKeepRule, KeepsRule};
ghost use Rattle.fp_prices.specs.Tables.{AreCountable, BreaksRule, IsFirstBroken};

use crate::tables::{Share, Table, TableFault, Weight};
use fp_model::Instance;

// Whether all weights are together within a limit. No sum is made, so the weights may be any
// numbers.
fn are_within(limit: u128, weights: &[Weight]) -> bool
    ensures { IsTrue result ↔ (sum_by (λ (w : Weight). w.w) weights.now ≤ limit) }
{
    let mut left = limit;
    for weight in weights {
        match left.checked_sub(weight.w) {
            Some(rest) => left = rest,
            None => return false,
        }
    }
    true
}

// Whether a share of an arc that exists keeps the price rule.
fn keeps_rule(instance: &Instance, share: &Share) -> bool
    requires { share.now.arc < length instance.now.arcs }
    ensures { IsTrue result ↔ KeepsRule instance.now.scale (arc_at instance.now share.now.arc) share.now }
{
    let arc = instance.arc(share.arc);
    let limit = u128::from(instance.scale()) * u128::from(arc.truck);
    match u128::from(arc.capacity).checked_mul(share.v) {
        Some(paid) => paid <= limit && are_within(limit - paid, &share.weights),
        None => false,
    }
}

// The number of the first share that breaks the price rule.
fn first_broken(instance: &Instance, shares: &[Share]) -> Option<u32>
    requires few { length shares.now < 2 ^ 32 - 1 }
    requires arcs { All (λ (s : ClassShare). s.arc < length instance.now.arcs) shares.now }
    ensures broken { IfSome result (BreaksRule instance.now shares.now) }
    ensures none { IfNone result (All (λ (s : ClassShare). KeepsRule instance.now.scale (arc_at instance.now s.arc) s) shares.now) }
{
    for (number, share) in shares.iter().enumerate() {
        if !keeps_rule(instance, share) {
            return Some(number as u32);
        }
    }
    None
}

/// Whether all shares of all tables keep the price rule: that the weights of a share and its `v`
/// times the arc's capacity are together at most the scale times the arc's truck cost.
///
/// The shares are of arcs that exist, and there are fewer than 2^32 - 1 tables and shares in each;
/// in which order they stand isn't asked. `Err` exactly where one breaks the rule, with the first
/// one, by its table and then by its place in it. Weights and `v` may be any numbers: no sum of
/// them is made, only what they leave of the limit, which is below 2^127. Takes no memory, and time
/// that grows with the weights in all.
pub fn check_tables(instance: &Instance, tables: &[Table]) -> Result<(), TableFault>
    requires { AreCountable instance.now tables.now }
    ensures ok { OnOk result (AllKeepRule instance.now tables.now) }
    ensures err { IfErr result (IsFirstBroken instance.now tables.now) }
{
    for (place, table) in tables.iter().enumerate() {
        if let Some(share) = first_broken(instance, &table.shares) {
            return Err(TableFault {
                table: place as u32 + 1,
                share,
            });
        }
    }
    Ok(())
}
