//! Which pools a table needs, and no more than these.

use crate::NoMemory;
use crate::pools::{Payer, Pool, Pools, parts_of};
use fp_duals_ascent::find_all_needs;
use fp_duals_nets::{EdgeUse, Nets};
use std::alloc::Global;

// What a payer pays by the price that goes by size alone.
fn linear(pool: &Pool, size: u64) -> u64 {
    size.wrapping_mul(pool.rate(pool.truck))
}

// Whether some payer pays more than by size alone.
fn is_dear(pool: &Pool, payers: &[Payer], parts: &[u64]) -> bool {
    let rate = pool.rate(parts.last().copied().unwrap_or(0));
    for (payer, part) in payers.iter().zip(parts.iter()) {
        let price = payer.size.wrapping_mul(rate).saturating_add(*part);
        if payer.size > 0 && price > linear(pool, payer.size) {
            return true;
        }
    }
    false
}

impl Pools {
    /// Trims the prices to what the shipments need, with the least bulks where `least`, and keeps
    /// the pools that someone pays more than by size alone. Sets the costs.
    pub(crate) fn trim(
        &mut self,
        alloc: Global,
        nets: &mut Nets,
        least: bool,
    ) -> Result<(), NoMemory> {
        let mut needs = vec![in alloc; 0u64; nets.edges.len()]?;
        self.set_costs(nets);
        find_all_needs(nets, &mut needs);
        self.fit(&needs, least);
        self.set_costs(nets);
        for pool in self.list.iter_mut() {
            let payers: &[Payer] = parts_of(&self.payers, pool);
            pool.kept = is_dear(pool, payers, parts_of(&self.parts, pool));
        }
        Ok(())
    }

    // Keeps the pool of an edge that isn't priced by size alone.
    fn keep_used(&mut self, nets: &Nets, number: usize) {
        let (Some(edge_use), Some(edge)) = (nets.uses.get(number), nets.edges.get(number)) else {
            return;
        };
        let size = match self.payers.get(edge_use.part) {
            Some(payer) => payer.size,
            None => 0,
        };
        if let Some(pool) = self.list.get_mut(edge_use.pool as usize) {
            let by_size = edge_use.flow.wrapping_add(linear(pool, size));
            pool.kept |= edge.cost != by_size;
        }
    }

    /// Keeps the pools of the edges of a walk that aren't priced by size alone.
    pub(crate) fn keep_walk(&mut self, nets: &Nets, walk: &[usize]) {
        for number in walk {
            self.keep_used(nets, *number);
        }
    }
}
