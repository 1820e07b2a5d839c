//! A leaf with the tables by which it may be priced.
ghost use Rattle.std.specs.Prelude.{IfOk};
ghost use Rattle.fp_flatnet.specs.Tables.{windows_in};
ghost use Rattle.fp_longestarcs.specs.Networks.{points_in};
ghost use Rattle.fp_prices.specs.Leaves.{IsBoundOf, IsSmallBound};
ghost use Rattle.fp_prices.specs.Tables.{HasKind};

use crate::NoMemory;
use fp_prices::{Kind, Leaf, LeafBound, Table};
use std::alloc::Global;
use std::marker::Model;

/// A leaf, and tables of prices in order and within the price rule, by which it may be priced.
#[derive(Drop)]
pub(crate) struct TabledLeaf<'l, 'r, 't> {
    pub(crate) leaf: &'l Leaf<'r>,
    pub(crate) tables: &'t [Table],
}

impl<'l, 'r, 't> Model for TabledLeaf<'l, 'r, 't> {
    ghost use Rattle.fp_prices.specs.Tables.{AreTables};
    ghost use Rattle.fp_duals.specs.Starts.{TabledModel};

    ghost Value = { TabledModel };

    ghost view = { λ x. record { leaf = x.leaf.now; tables = x.tables.now } };

    ghost invariant = { λ x. AreTables x.leaf.now.setting.problem x.tables.now };
}

impl<'l, 'r, 't> TabledLeaf<'l, 'r, 't> {
    /// The bound of the leaf by prices of a kind, where forced classes are paid whole or not.
    pub(crate) fn bound(
        &self,
        alloc: Global,
        kind: Kind,
        forced: bool,
    ) -> Result<LeafBound, NoMemory>
        requires { HasKind self.now.tables kind }
        ensures exact { IfOk result
            (IsBoundOf self.now.leaf.setting.problem (windows_in self.now.leaf.setting.windows)
            (points_in self.now.leaf.setting.network) self.now.leaf.sides self.now.tables kind
            forced) }
        ensures small { IfOk result (IsSmallBound self.now.leaf.setting.problem) }
    {
        self.leaf.bound(alloc, self.tables, kind, forced)
    }
}
