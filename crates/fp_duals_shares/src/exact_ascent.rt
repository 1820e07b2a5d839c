//! The ascent in which no least cost falls: what a class's prices leave of the cost of a truck is
//! offered to one shipment after the other, and each keeps what it needs of it.

use crate::NoMemory;
use crate::pools::{Pool, Pools};
use fp_duals_ascent::{find_all_needs, find_needs};
use fp_duals_nets::{EdgeUse, Net, Nets, part_mut};
use fp_ends::{Deadline, Resources};

// Raises the costs of a net's edges by what is left in each class.
fn offer(nets: &mut Nets, net: &Net, pools: &[Pool]) {
    let uses = match nets.uses.get(net.first_edge..net.end_edge) {
        Some(uses) => uses,
        None => &[],
    };
    if let Some(edges) = part_mut(&mut nets.edges, net.first_edge, net.end_edge) {
        for (edge, edge_use) in edges.iter_mut().zip(uses.iter()) {
            if let Some(pool) = pools.get(edge_use.pool as usize) {
                edge.cost = edge.cost.wrapping_add(pool.slack);
            }
        }
    }
}

// Lets a shipment of a size keep what it needs over an edge; what the edge then costs.
fn keep(pools: &mut Pools, edge: &EdgeUse, size: u64, need: u64) -> u64 {
    let Some(pool) = pools.list.get_mut(edge.pool as usize) else {
        return edge.flow;
    };
    let bulk = pools.parts.get(pool.end.wrapping_sub(1)).copied();
    let by_size = size.wrapping_mul(pool.rate(bulk.unwrap_or(0)));
    let weight = need.saturating_sub(by_size);
    if let Some(part) = pools.parts.get_mut(edge.part) {
        pool.slack = pool.slack.wrapping_add(*part).wrapping_sub(weight);
        *part = weight;
    }
    edge.flow.wrapping_add(by_size).wrapping_add(weight)
}

// Lets the shipment of a net keep what it needs, and sets the costs of its edges.
fn keep_all(pools: &mut Pools, nets: &mut Nets, net: &Net, needs: &[u64]) {
    for number in net.first_edge..net.end_edge {
        if let (Some(edge_use), Some(edge)) = (nets.uses.get(number), nets.edges.get_mut(number)) {
            let need = needs.get(number).copied().unwrap_or(0);
            edge.cost = keep(pools, edge_use, net.size, need);
        }
    }
}

// One pass over the shipments. What their least costs come to.
fn pass(pools: &mut Pools, nets: &mut Nets, needs: &mut [u64]) -> u64 {
    let mut sum = 0u64;
    for number in 0..nets.list.len() {
        if let Some(net) = nets.list.get(number).copied() {
            offer(nets, &net, &pools.list);
            sum = sum.saturating_add(find_needs(nets, &net, needs));
            keep_all(pools, nets, &net, needs);
        }
    }
    sum
}

/// At most so many passes of the ascent in which no least cost falls; it ends before where a pass
/// gains nothing.
pub(crate) fn settle<D: Deadline>(
    resources: &Resources<D>,
    pools: &mut Pools,
    nets: &mut Nets,
    passes: u32,
) -> Result<(), NoMemory> {
    let mut needs = vec![in resources.alloc; 0u64; nets.edges.len()]?;
    pools.set_costs(nets);
    find_all_needs(nets, &mut needs);
    pools.fit(&needs, true);
    pools.set_costs(nets);
    let mut known = 0;
    for _ in 0..passes {
        let sum = pass(pools, nets, &mut needs);
        if sum <= known || resources.is_over() {
            break;
        }
        known = sum;
    }
    Ok(())
}
