//! What a shipment pays for the classes of an arc moves together.

use crate::NoMemory;
use fp_duals_layouts::Layout;
use std::alloc::Global;

// No group.
const NO_GROUP: u32 = u32::MAX;

/// The payers in groups: those of one shipment for single classes of one arc, and each other payer for
/// itself. A point divides a class, and what was paid for it is to be paid for both: moved each for
/// itself, they would take many turns to rise by as much.
#[derive(Drop)]
pub(crate) struct Ties {
    // The group of each payer.
    groups: Vec<u32>,
    // The sum over each group of what its payers' means have that can move, where it's gathered.
    sums: Vec<i64>,
    gathered: Vec<bool>,
    // The groups that are gathered.
    list: Vec<u32>,
}

// The arc for a single class of which a payer pays, if it's such a payer.
fn single_arc(layout: &Layout, payer: usize) -> Option<u32> {
    let span = layout.payers.get(payer)?.span;
    if span < layout.singles {
        Some(layout.spans.get(span)?.run.arc)
    } else {
        None
    }
}

impl Ties {
    /// The groups of a layout's payers. `NoMemory` only where no memory is found.
    pub(crate) fn of(alloc: Global, layout: &Layout, shipments: usize) -> Result<Ties, NoMemory> {
        let payers = layout.payers.len();
        let mut ties = Ties {
            groups: vec![in alloc; NO_GROUP; payers]?,
            sums: Vec::new(alloc),
            gathered: Vec::new(alloc),
            list: Vec::new(alloc),
        };
        for shipment in 0..shipments {
            ties.add_shipment(layout, shipment)?;
        }
        Ok(ties)
    }

    // Adds the groups of a shipment's payers, which stand by their spans and so by their arcs.
    fn add_shipment(&mut self, layout: &Layout, shipment: usize) -> Result<(), NoMemory> {
        let mut before = None;
        for payer in layout.own.group(shipment) {
            let arc = single_arc(layout, *payer);
            if arc.is_none() || arc != before {
                self.sums.push(0)?;
                self.gathered.push(false)?;
            }
            before = arc;
            if let Some(group) = self.groups.get_mut(*payer) {
                let groups = u32::try_from(self.sums.len()).unwrap_or(NO_GROUP);
                *group = groups.wrapping_sub(1);
            }
        }
        Ok(())
    }

    /// Forgets what is gathered.
    pub(crate) fn clear(&mut self) {
        for group in &self.list {
            if let Some(gathered) = self.gathered.get_mut(*group as usize) {
                *gathered = false;
            }
            if let Some(sum) = self.sums.get_mut(*group as usize) {
                *sum = 0;
            }
        }
        self.list.clear();
    }

    /// Adds the mean of a payer to the sum of its group, where it can move.
    pub(crate) fn gather(
        &mut self,
        payer: usize,
        mean: i64,
        can_move: bool,
    ) -> Result<(), NoMemory> {
        let Some(group) = self.groups.get(payer).copied() else {
            return Ok(());
        };
        if let Some(gathered) = self.gathered.get_mut(group as usize)
            && !*gathered
        {
            *gathered = true;
            self.list.push(group)?;
        }
        if can_move && let Some(sum) = self.sums.get_mut(group as usize) {
            *sum = sum.wrapping_add(mean);
        }
        Ok(())
    }

    /// The sum of a payer's group.
    pub(crate) fn sum(&self, payer: usize) -> i64 {
        let group = self.groups.get(payer).copied().unwrap_or(NO_GROUP);
        self.sums.get(group as usize).copied().unwrap_or(0)
    }

    /// The sum of the squares of all sums.
    pub(crate) fn norm(&self) -> u64 {
        let mut norm = 0u64;
        for group in &self.list {
            let sum = self.sums.get(*group as usize).copied().unwrap_or(0);
            let sum = sum.unsigned_abs();
            norm = norm.saturating_add(sum.saturating_mul(sum));
        }
        norm
    }

    /// Puts in the payers of all groups that are gathered, in their order: in which they stand by
    /// shipment within a span, so that prices and edges are gone through as they lie in memory.
    pub(crate) fn list_members(&self, payers: &mut Vec<usize>) -> Result<(), NoMemory> {
        payers.clear();
        for (payer, group) in self.groups.iter().enumerate() {
            if self.gathered.get(*group as usize).copied().unwrap_or(false) {
                payers.push(payer)?;
            }
        }
        Ok(())
    }
}
