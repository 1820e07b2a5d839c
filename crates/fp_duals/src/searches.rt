//! What proposes tables and walks for a leaf. Nothing is promised of a proposal: each is tested.
ghost use Rattle.std.specs.Prelude.{◌<◌, ◌≤◌};
ghost use Rattle.std.specs.Bool.{OnTrue};

use crate::NoMemory;
use crate::starts::Start;
use fp_allowed::ChainEnd;
use fp_duals_nets::LentNets;
use fp_duals_shares::{Ascent, Effort};
use fp_ends::{Deadline, Resources};
use fp_longestarcs::TimedWalk;
use fp_prices::{Leaf, Table};
use std::alloc::Global;

// What is known of the forced chains of a leaf.
#[derive(Clone, Copy)]
struct Chains {
    // Some shipment has a forced class.
    some_forced: bool,
    // Each chain reaches its shipment's destination, so there is one walk for each shipment.
    all_reached: bool,
}

// What is known of the forced chains of a leaf.
fn chains_of(alloc: Global, leaf: &Leaf) -> Result<Chains, NoMemory> {
    let mut chains = Chains {
        some_forced: false,
        all_reached: true,
    };
    for shipment in 0..leaf.round().instance().shipments().len() as u32 {
        let chain = leaf.chain(alloc, shipment)?;
        chains.some_forced |= !chain.classes.is_empty();
        chains.all_reached &= chain.end == ChainEnd::Reached;
    }
    Ok(chains)
}

// Whether tables or walks that share trucks are to be sought.
fn seeks(effort: &Effort) -> bool {
    effort.turns > 0 || effort.settle_passes > 0 || effort.share_passes > 0
}

/// A search for tables and walks of a leaf, with so much effort.
#[derive(Drop)]
pub(crate) struct Search<'a> {
    // None where each chain reaches its destination, so that there's nothing to seek, and where
    // nothing is to be sought.
    ascent: Option<Ascent<'a>>,
    effort: &'a Effort,
    chains: Chains,
}

impl<'a> Search<'a> {
    /// The search at a leaf, over the leaf's nets. `NoMemory` only where no memory is found.
    pub(crate) fn of(
        alloc: Global,
        leaf: &'a Leaf<'a>,
        nets: &'a mut LentNets,
        effort: &'a Effort,
    ) -> Result<Search<'a>, NoMemory> {
        let chains = chains_of(alloc, leaf)?;
        let ascent = if chains.all_reached || !seeks(effort) {
            None
        } else {
            Some(Ascent::of(leaf, nets.at(alloc, leaf)?))
        };
        Ok(Search {
            ascent,
            effort,
            chains,
        })
    }

    /// Whether the two modes differ: some class is forced.
    pub(crate) fn modes_differ(&self) -> bool {
        self.chains.some_forced
    }

    /// How many of the price lines that are left a table may have, at most all of them.
    pub(crate) fn lines(&self, left: u32) -> u32
        ensures { result ≤ left }
    {
        left / self.effort.line_part.max(1)
    }

    /// Whether a value is worth a table: it is above another by more than so many parts in 1024.
    pub(crate) fn is_worth(&self, value: u128, start: u128) -> bool
        ensures { OnTrue result (start < value) }
    {
        let least = start.saturating_mul(u128::from(self.effort.least_gain)) / 1024;
        value.saturating_sub(start) > least
    }

    /// A table for a mode from the prices of a start, where one is sought and found.
    pub(crate) fn table<D: Deadline>(
        &mut self,
        resources: &Resources<D>,
        tables: &[Table],
        start: Start,
        forced: bool,
        lines: u32,
    ) -> Result<Option<Table>, NoMemory> {
        let effort = self.effort;
        match &mut self.ascent {
            Some(ascent) if effort.turns > 0 || effort.settle_passes > 0 => ascent.table(
                resources,
                tables,
                start.kind,
                start.forced,
                forced,
                effort,
                lines,
            ),
            _ => Ok(None),
        }
    }

    /// Walks of least cost under the prices of a start that share trucks, where they are sought.
    pub(crate) fn walks(
        &mut self,
        alloc: Global,
        tables: &[Table],
        start: Start,
    ) -> Result<Vec<TimedWalk>, NoMemory> {
        let effort = self.effort;
        match &mut self.ascent {
            Some(ascent) if effort.share_passes > 0 => {
                ascent.walks(alloc, tables, start.kind, start.forced, effort)
            }
            _ => Ok(Vec::new(alloc)),
        }
    }
}
