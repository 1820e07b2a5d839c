//! The classes of the forced chains.

use crate::NoMemory;
use crate::classes::class_nodes::{ClassNodes, arc_of};
use crate::money::arc_money::ArcMoney;
use fp_allowed::Chain;
use fp_prices::Leaf;
use std::alloc::Global;

/// The forced chain of each shipment.
pub(crate) fn forced_chains(alloc: Global, leaf: &Leaf) -> Result<Vec<Chain>, NoMemory> {
    let mut chains = Vec::new(alloc);
    for shipment in 0..leaf.round().instance().shipments().len() as u32 {
        chains.push(leaf.chain(alloc, shipment)?)?;
    }
    Ok(chains)
}

// Adds the load of a shipment on its chain.
fn add_load(loads: &mut [u128], chain: &Chain, size: u64) {
    for class in &chain.classes {
        if let Some(load) = loads.get_mut(*class as usize) {
            *load = load.wrapping_add(u128::from(size));
        }
    }
}

/// For each of so many classes the sizes together of the shipments that are forced to use it.
pub(crate) fn forced_loads(
    alloc: Global,
    leaf: &Leaf,
    chains: &[Chain],
    classes: usize,
) -> Result<Vec<u128>, NoMemory> {
    let mut loads = vec![in alloc; 0u128; classes]?;
    let shipments = leaf.round().instance().shipments();
    for (chain, shipment) in chains.iter().zip(shipments.iter()) {
        add_load(&mut loads, chain, shipment.size);
    }
    Ok(loads)
}

/// What the trucks of the forced loads cost.
pub(crate) fn base_of(loads: &[u128], classes: &[ClassNodes], arcs: &[ArcMoney]) -> u64 {
    let mut base = 0u64;
    let mut class = 0u32;
    for load in loads {
        if *load > 0
            && let Some(arc) = arc_of(class, classes, arcs)
        {
            let load = (*load).min(u128::from(u64::MAX)) as u64;
            base = base.saturating_add(arc.truck.saturating_mul(arc.trucks(load)));
        }
        class = class.wrapping_add(1);
    }
    base
}
