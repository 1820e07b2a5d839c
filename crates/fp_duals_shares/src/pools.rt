//! The prices of the classes, one pool for each class that is priced.

use crate::NoMemory;
use fp_duals_nets::{ClassPool, ClassPools, Edge, LeafNets, Nets};
use std::alloc::Global;

/// A whole use of a class by one shipment, in the averaged direction.
pub(crate) const WHOLE: u64 = 1 << 12;

/// What a part of a pool's money pays for: the use of the class by one shipment, over one edge of
/// its net; or, at the pool's last part, a truck's full load.
#[derive(Clone, Copy)]
pub(crate) struct Payer {
    /// The edge, or no edge's number at the last part.
    pub edge: usize,
    pub shipment: u32,
    pub size: u64,
    /// What the freight costs over the edge.
    pub flow: u64,
    /// The size in trucks, in parts of `WHOLE`.
    pub trucks: u64,
}

/// The prices of one class. Its parts stand together: the weights of its shipments, by number, and
/// then the bulk, what the shipments pay together for a truck's full load of size. They are at most
/// the cost of a truck.
#[derive(Clone, Copy)]
pub(crate) struct Pool {
    pub class: u32,
    pub truck: u64,
    pub capacity: u64,
    pub first: usize,
    pub end: usize,
    /// Whether a walk of late went by the class, so that its prices move.
    pub moves: bool,
    /// What the parts leave of the cost of a truck.
    pub slack: u64,
    /// Whether a table has to have a share for the class.
    pub kept: bool,
}

/// The prices of all classes of a leaf but those that are free.
#[derive(Drop)]
pub(crate) struct Pools {
    pub list: Vec<Pool>,
    pub payers: Vec<Payer>,
    pub parts: Vec<u64>,
}

impl Pool {
    /// What a unit of size pays, where this is the bulk.
    pub(crate) fn rate(&self, bulk: u64) -> u64 {
        bulk / self.capacity.max(1)
    }
}

/// The parts of a pool.
pub(crate) fn parts_of<'a, T>(all: &'a [T], pool: &Pool) -> &'a [T] {
    all.get(pool.first..pool.end).unwrap_or(&[])
}

// A pool for each class that has one.
fn all_pools(alloc: Global, classes: &[ClassPool]) -> Result<Vec<Pool>, NoMemory> {
    let mut pools = Vec::with_capacity(alloc, classes.len())?;
    for pool in classes {
        pools.push(Pool {
            class: pool.class,
            truck: pool.arc.truck,
            capacity: pool.arc.capacity,
            first: pool.first,
            end: pool.end,
            moves: false,
            slack: 0,
            kept: false,
        })?;
    }
    Ok(pools)
}

// The payer for each part.
fn all_payers(alloc: Global, classes: &ClassPools) -> Result<Vec<Payer>, NoMemory> {
    let mut payers = Vec::with_capacity(alloc, classes.parts.len())?;
    for part in &classes.parts {
        let trucks = match classes.list.get(part.pool) {
            Some(pool) => trucks_of(part.size, pool.arc.capacity),
            None => 0,
        };
        payers.push(Payer {
            edge: part.edge,
            shipment: part.shipment,
            size: part.size,
            flow: part.flow,
            trucks,
        })?;
    }
    Ok(payers)
}

impl Pools {
    /// The pools of the classes of some net's edges, but for those that are forced where `forced`
    /// leaves them free. All parts are 0.
    pub(crate) fn of(alloc: Global, model: &mut LeafNets, forced: bool) -> Result<Pools, NoMemory> {
        let classes = ClassPools::of(alloc, model, forced, 1)?;
        Ok(Pools {
            list: all_pools(alloc, &classes.list)?,
            payers: all_payers(alloc, &classes)?,
            parts: vec![in alloc; 0u64; classes.parts.len()]?,
        })
    }

    /// Sets the costs of all edges.
    pub(crate) fn set_costs(&self, nets: &mut Nets) {
        for (edge, edge_use) in nets.edges.iter_mut().zip(nets.uses.iter()) {
            edge.cost = edge_use.flow;
        }
        for pool in &self.list {
            set_pool_costs(
                pool,
                parts_of(&self.payers, pool),
                parts_of(&self.parts, pool),
                &mut nets.edges,
            );
        }
    }
}

// A size in trucks of a capacity, in parts of `WHOLE`, at most 64 trucks.
fn trucks_of(size: u64, capacity: u64) -> u64 {
    let parts = u128::from(size).saturating_mul(u128::from(WHOLE)) / u128::from(capacity.max(1));
    parts.min(1 << 18) as u64
}

/// Sets the costs of a pool's edges by its parts.
pub(crate) fn set_pool_costs(pool: &Pool, payers: &[Payer], parts: &[u64], edges: &mut [Edge]) {
    let rate = pool.rate(parts.last().copied().unwrap_or(0));
    for (payer, part) in payers.iter().zip(parts.iter()) {
        if let Some(edge) = edges.get_mut(payer.edge) {
            let by_size = payer.size.wrapping_mul(rate);
            edge.cost = payer.flow.wrapping_add(*part).wrapping_add(by_size);
        }
    }
}
