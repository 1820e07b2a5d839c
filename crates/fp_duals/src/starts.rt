//! The best of the six starting prices of a leaf.
ghost use Rattle.std.specs.Prelude.{◌≡◌, ◌≤◌, ℕ, IfOk, true};
ghost use Rattle.fp_flatnet.specs.Tables.{windows_in};
ghost use Rattle.fp_longestarcs.specs.Networks.{points_in};
ghost use Rattle.fp_prices.specs.declared.leaf_prices.Kind.TheVariants.{Linear};
ghost use Rattle.fp_prices.specs.Leaves.{IsLeafValue};
ghost use Rattle.fp_prices.specs.Tables.{HasKind};

use crate::NoMemory;
use crate::tabled_leaves::TabledLeaf;
use fp_prices::{Kind, LeafBound};
use std::alloc::Global;

/// Prices of a leaf, and its value by them, in parts of a unit of money of which the instance's
/// scale makes one.
#[derive(Clone, Copy)]
pub(crate) struct Start {
    pub(crate) kind: Kind,
    pub(crate) forced: bool,
    pub(crate) value: u128,
}

impl Start {
    ghost use Rattle.fp_duals.specs.Starts.{EachMode, IsBestStart, IsNext, IsStart};

    // This start, or the prices of a kind in a mode, where the leaf has a greater value by these.
    fn or_mode(
        self,
        alloc: Global,
        tabled: &TabledLeaf,
        kind: Kind,
        forced: bool,
    ) -> Result<Start, NoMemory>
        requires kind { HasKind tabled.now.tables kind }
        requires start { IsStart tabled.now.leaf tabled.now.tables self }
        ensures next { IfOk result (IsNext tabled.now self kind) }
        ensures best { IfOk result (λ start.
            (other : ℕ) → IsLeafValue tabled.now.leaf.setting.problem
            (windows_in tabled.now.leaf.setting.windows)
            (points_in tabled.now.leaf.setting.network) tabled.now.leaf.sides tabled.now.tables
            kind forced other → other ≤ start.value) }
    {
        match tabled.bound(alloc, kind, forced)? {
            LeafBound::Value { value } if value > self.value => Ok(Start {
                kind,
                forced,
                value,
            }),
            _ => Ok(self),
        }
    }

    // This start, or the better of the prices of a kind in the two modes, where the leaf has a
    // greater value by these.
    fn or_kind(self, alloc: Global, tabled: &TabledLeaf, kind: Kind) -> Result<Start, NoMemory>
        requires kind { HasKind tabled.now.tables kind }
        requires start { IsStart tabled.now.leaf tabled.now.tables self }
        ensures next { IfOk result (IsNext tabled.now self kind) }
        ensures best { IfOk result (λ start.
            EachMode tabled.now.leaf.setting.problem
            (windows_in tabled.now.leaf.setting.windows)
            (points_in tabled.now.leaf.setting.network) tabled.now.leaf.sides tabled.now.tables
            kind (λ other. other ≤ start.value)) }
    {
        let whole = self.or_mode(alloc, tabled, kind, true)?;
        whole.or_mode(alloc, tabled, kind, false)
    }

    /// The best of the six starting prices of a leaf, one of which is this one.
    pub(crate) fn best(
        self,
        alloc: Global,
        tabled: &TabledLeaf,
        inherited: Kind,
    ) -> Result<Start, NoMemory>
        requires kind { HasKind tabled.now.tables inherited }
        requires start { IsStart tabled.now.leaf tabled.now.tables self }
        requires linear { self.kind ≡ Linear }
        requires forced { self.forced ≡ true }
        ensures { IfOk result (IsBestStart tabled.now.leaf tabled.now.tables inherited) }
    {
        let linear = self.or_mode(alloc, tabled, Kind::Linear, false)?;
        let even = linear.or_kind(alloc, tabled, Kind::Even)?;
        match inherited {
            Kind::Table { .. } => even.or_kind(alloc, tabled, inherited),
            Kind::Linear | Kind::Even => Ok(even),
        }
    }
}
