//! The rule by which a kind prices the classes of a leaf.
ghost use Rattle.std.specs.Prelude.{ℕ, ◌≡◌, All, Bool, IfOk, List, length, map};
ghost use Rattle.fp_model.specs.declared.parts.Leg.{Leg};
ghost use Rattle.fp_model.specs.Problem.{IsValid};
ghost use Rattle.fp_longestarcs.specs.Networks.{class_count};
ghost use Rattle.fp_longestarcs.specs.Whole.{IsWholeNetwork};
ghost use Rattle.fp_prices.specs.Pricings.{IsPricing, IsRuleOf, TellsForced};
ghost use Rattle.fp_prices.specs.Rates.{rate_of};
ghost use Rattle.fp_prices.specs.Rows.{AreRowsOf};
ghost use Rattle.fp_prices.specs.Tables.{AreTables, HasKind};

use crate::NoMemory;
use crate::classes::bases::ForcedClasses;
use crate::classes::class_prices::{ClassPricing, Rule};
use crate::classes::class_users::class_users;
use crate::leaf_prices::Kind;
use crate::tables::Table;
use fp_longestarcs::Network;
use fp_model::Instance;
use fp_rows::Row;
use std::alloc::Global;

// The rule of a kind.
fn rule_of<'a>(
    alloc: Global,
    instance: &Instance,
    network: &Network,
    tables: &'a [Table],
    kind: Kind,
    rows: &[Row],
) -> Result<Rule<'a>, NoMemory>
    requires tables { AreTables instance.now tables.now }
    requires kind { HasKind tables.now kind }
    requires rows { length rows.now ≡ length instance.now.shipments }
    requires long { All (λ (row : List Bool). length row ≡ class_count network.now) rows.now }
    ensures { (allowed : ℕ → Leg → Bool) → AreRowsOf network.now allowed rows.now → IfOk result (IsRuleOf instance.now network.now tables.now allowed kind) }
{
    match kind {
        Kind::Linear => Ok(Rule::BySize),
        Kind::Even => Ok(Rule::InParts {
            users: class_users(alloc, instance, network.classes(), rows)?,
        }),
        Kind::Table { id } => {
            let table = &tables[(id - 1) as usize];
            Ok(Rule::ByShares {
                shares: &table.shares,
            })
        }
    }
}

/// The pricing of a leaf by a kind, where the rates are the linear ones of the arcs, the rows are
/// those of the shipments and `forced` has the classes that someone is forced to use.
/// `NoMemory` only where no memory is found.
pub(crate) fn class_pricing<'a>(
    alloc: Global,
    instance: &'a Instance,
    network: &'a Network,
    rates: &'a [u128],
    tables: &'a [Table],
    kind: Kind,
    rows: &[Row],
    forced: ForcedClasses,
) -> Result<ClassPricing<'a>, NoMemory>
    requires valid { IsValid instance.now }
    requires whole { IsWholeNetwork instance.now network.now }
    requires rates { rates.now ≡ map (rate_of instance.now.scale) instance.now.arcs }
    requires tables { AreTables instance.now tables.now }
    requires kind { HasKind tables.now kind }
    requires rows { length rows.now ≡ length instance.now.shipments }
    requires long { All (λ (row : List Bool). length row ≡ class_count network.now) rows.now }
    ensures same { IfOk result (λ pricing. (pricing.instance.now ≡ instance.now) × (pricing.network.now ≡ network.now) × (pricing.forced ≡ forced)) }
    ensures pricing { (allowed : ℕ → Leg → Bool) (chains : List (List Leg)) → AreRowsOf network.now allowed rows.now → TellsForced network.now chains forced.row →
        IfOk result (IsPricing tables.now allowed kind chains) }
{
    Ok(ClassPricing {
        instance,
        network,
        rates,
        rule: rule_of(alloc, instance, network, tables, kind, rows)?,
        forced,
    })
}
