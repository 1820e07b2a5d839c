//! The ascent over the prices of a leaf.
ghost use Rattle.std.specs.Prelude.{◌≡◌, OnErr};

use crate::NoMemory;
use crate::efforts::Effort;
use crate::exact_ascent::settle;
use crate::pools::Pools;
use crate::starts::{KindPrices, Start};
use crate::subgradients::ascend;
use fp_duals_nets::{
    LeafNets, LoadCosts, SharedWalks, class_users, least_walks, loads_where, timed_walks,
};
use fp_ends::{Deadline, Resources};
use fp_longestarcs::TimedWalk;
use fp_prices::{Kind, Leaf, Table};
use std::alloc::Global;

// Among more prices than so many, as in the largest instances with wide windows, a turn of the subgradient
// ascent takes a tenth of a second and more, and the exact ascent alone comes as far.
const MOST_PARTS: usize = 1 << 20;

/// The ascent over the prices of a leaf, over its nets.
///
/// Nothing is promised of what it proposes. On a leaf where some shipment has no allowed timed walk
/// it proposes nothing of use.
#[derive(Drop)]
pub struct Ascent<'a> {
    leaf: &'a Leaf<'a>,
    model: &'a mut LeafNets,
}

impl<'a> Ascent<'a> {
    /// The ascent at a leaf, over the leaf's nets. Takes no memory.
    pub fn of(leaf: &'a Leaf<'a>, model: &'a mut LeafNets) -> Ascent<'a> {
        Ascent { leaf, model }
    }

    // The pools of the mode `forced`, with the prices from which a search starts.
    fn pools(
        &mut self,
        alloc: Global,
        prices: &KindPrices<'_>,
        forced: bool,
    ) -> Result<Pools, NoMemory> {
        let users = match prices.kind {
            Kind::Even => class_users(alloc, self.leaf)?,
            _ => Vec::new(alloc),
        };
        let model = &mut *self.model;
        let mut pools = Pools::of(alloc, model, forced)?;
        let start = Start {
            rule: prices.rule(&users),
            classes: &model.classes,
            freed: loads_where(prices.forced && !forced, &model.loads),
            unit: model.unit,
        };
        start.put_all(&mut pools, &model.nets.uses);
        Ok(pools)
    }

    // Keeps the pools of the least walks that are chosen at the prices of these pools.
    fn keep_walks(
        &mut self,
        alloc: Global,
        pools: &mut Pools,
        effort: &Effort,
    ) -> Result<(), NoMemory> {
        let shared = self.chosen_walks(alloc, effort)?;
        let model = &*self.model;
        for walk in &shared.walks {
            pools.keep_walk(&model.nets, walk);
        }
        Ok(())
    }

    // A least walk of each shipment at the costs that are set, as an effort has it.
    fn chosen_walks(&mut self, alloc: Global, effort: &Effort) -> Result<SharedWalks, NoMemory> {
        least_walks(alloc, self.model, effort.share_passes, effort.exchanges)
    }

    /// A table of prices for the mode `forced`, whether forced classes are paid whole. The search
    /// starts from the prices of a kind, which may name one of the tables, in the mode
    /// `start_forced`. `None` where it finds no table, or one of more than `lines` price lines.
    /// `NoMemory` only where no memory is found.
    ///
    /// One search over each net for each turn of the effort. Takes memory that grows with the
    /// edges of the nets.
    pub fn table<D: Deadline>(
        &mut self,
        resources: &Resources<D>,
        tables: &[Table],
        kind: Kind,
        start_forced: bool,
        forced: bool,
        effort: &Effort,
        lines: u32,
    ) -> Result<Option<Table>, NoMemory>
        ensures { OnErr result (self.new.model.now ≡ self.old.model.now) }
    {
        let base = if forced { self.model.base() } else { 0 };
        let prices = KindPrices {
            tables,
            kind,
            forced: start_forced,
        };
        let mut pools = self.pools(resources.alloc, &prices, forced)?;
        let model = &mut *self.model;
        if effort.turns > 0 && pools.parts.len() <= MOST_PARTS {
            ascend(resources, &mut model.nets, &mut pools, base, effort)?;
        }
        if effort.settle_passes > 0 {
            settle(resources, &mut pools, &mut model.nets, effort.settle_passes)?;
        }
        let shared = effort.share_passes > 0;
        pools.trim(resources.alloc, &mut model.nets, shared)?;
        if shared {
            self.keep_walks(resources.alloc, &mut pools, effort)?;
        }
        let model = &*self.model;
        pools.table(resources.alloc, &model.classes, model.unit, lines)
    }

    /// For each shipment a walk of least cost at the prices of a kind, which may name one of the
    /// tables, in the mode `forced`, chosen so that the walks share trucks. Where money is too
    /// great for 64 bits some walks may cost a little more than the least. `NoMemory` only where no
    /// memory is found.
    pub fn walks(
        &mut self,
        alloc: Global,
        tables: &[Table],
        kind: Kind,
        forced: bool,
        effort: &Effort,
    ) -> Result<Vec<TimedWalk>, NoMemory>
        ensures { OnErr result (self.new.model.now ≡ self.old.model.now) }
    {
        let prices = KindPrices {
            tables,
            kind,
            forced,
        };
        let pools = self.pools(alloc, &prices, forced)?;
        let model = &mut *self.model;
        pools.set_costs(&mut model.nets);
        let shared = self.chosen_walks(alloc, effort)?;
        timed_walks(alloc, &LoadCosts::of(self.model), &shared.walks)
    }
}
