//! The subgradient ascent: prices move along an averaged direction towards a level above the best
//! value, and what a class's prices come to stays within the cost of a truck.

use crate::NoMemory;
use crate::efforts::Effort;
use crate::pools::{Payer, Pool, Pools, WHOLE, parts_of, set_pool_costs};
use crate::projection::project;
use fp_duals_ascent::{Target, Way, rate};
use fp_duals_nets::{Edge, EdgeUse, Net, Nets, copy_all, last_edge, part_mut};
use fp_ends::{Deadline, Resources};
use std::alloc::Global;

// The walks' use of each part, as an average over the turns that gives the newest the most weight.
// The newest walks count `fresh` times in 64.
#[derive(Drop)]
struct Direction {
    means: Vec<u64>,
    fresh: u64,
}

impl Direction {
    // Adds the use of a class by a walk.
    fn add_use(&mut self, pools: &mut Pools, edge: &EdgeUse) {
        let Some(pool) = pools.list.get_mut(edge.pool as usize) else {
            return;
        };
        pool.moves = true;
        if let Some(mean) = self.means.get_mut(edge.part) {
            *mean = mean.wrapping_add(WHOLE.wrapping_mul(self.fresh) / 64);
        }
        let trucks = match pools.payers.get(edge.part) {
            Some(payer) => payer.trucks,
            None => 0,
        };
        if let Some(mean) = self.means.get_mut(pool.end.wrapping_sub(1)) {
            *mean = mean.wrapping_add(trucks.wrapping_mul(self.fresh) / 64);
        }
    }

    // Adds the least walk of a net whose nodes are labelled.
    fn add_walk(&mut self, pools: &mut Pools, nets: &Nets, net: &Net) {
        let edges = nets.edges_of(net);
        let uses = nets.uses_of(net);
        let mut node = net.goal;
        for _ in 0..edges.len() {
            let Some((number, tail)) = last_edge(edges, &nets.labels, node) else {
                break;
            };
            if let Some(edge) = uses.get(number) {
                self.add_use(pools, edge);
            }
            node = tail;
        }
    }

    // Finds the least walks of all nets at the costs that are set and adds them. What they cost.
    fn add_walks(&mut self, pools: &mut Pools, nets: &mut Nets) -> u64 {
        let mut sum = 0u64;
        for number in 0..nets.list.len() {
            if let Some(net) = nets.list.get(number).copied() {
                sum = sum.saturating_add(nets.label_net(&net));
                self.add_walk(pools, nets, &net);
            }
        }
        sum
    }

    // Lets the older walks count for less, and gives the squared length of the direction.
    fn age(&mut self, pools: &mut Pools) -> u64 {
        let mut norm = 0u64;
        for pool in pools.list.iter_mut() {
            if pool.moves {
                let parts = parts_of(&pools.parts, pool);
                if let Some(means) = part_mut(&mut self.means, pool.first, pool.end) {
                    norm = norm.saturating_add(age_means(pool, parts, means, self.fresh));
                }
            }
        }
        norm
    }

    // Moves all prices by `rate`, in parts of 2^20, times the direction, and sets the costs.
    fn step(&self, pools: &mut Pools, nets: &mut Nets, rate: u64) {
        for pool in &pools.list {
            if pool.moves
                && let Some(parts) = part_mut(&mut pools.parts, pool.first, pool.end)
            {
                move_parts(pool, parts, parts_of(&self.means, pool), rate);
                let payers: &[Payer] = parts_of(&pools.payers, pool);
                set_pool_costs(pool, payers, parts, &mut nets.edges);
            }
        }
    }
}

// Lets the older walks count for less in one pool, and gives the squared length of the direction,
// without what all parts have in common where no more can be spent.
fn age_means(pool: &mut Pool, parts: &[u64], means: &mut [u64], fresh: u64) -> u64 {
    let (mut sum, mut squares, mut count, mut spent) = (0u64, 0u64, 0u64, 0u64);
    for (part, mean) in parts.iter().zip(means.iter_mut()) {
        let aged = mean.wrapping_mul(fresh).wrapping_add(63) / 64;
        *mean = mean.saturating_sub(aged);
        if *part > 0 || *mean > 0 {
            count = count.wrapping_add(1);
            sum = sum.wrapping_add(*mean);
            squares = squares.wrapping_add(mean.wrapping_mul(*mean));
            spent = spent.saturating_add(*part);
        }
    }
    pool.moves = sum > 0;
    if spent < pool.truck {
        return squares;
    }
    squares.saturating_sub(sum.wrapping_mul(sum) / count.max(1))
}

// Moves the parts of a pool, within what they may come to.
fn move_parts(pool: &Pool, parts: &mut [u64], means: &[u64], rate: u64) {
    let most = u128::from(pool.truck).saturating_mul(4);
    let mut sum = 0u64;
    for (part, mean) in parts.iter_mut().zip(means.iter()) {
        let step = (u128::from(rate).saturating_mul(u128::from(*mean)) >> 20).min(most);
        *part = part.saturating_add(step.min(u128::from(u64::MAX)) as u64);
        sum = sum.saturating_add(*part);
    }
    if sum > pool.truck {
        project(parts, pool.truck);
    }
}

// Where the ascent stands: the value of the prices, the target above the best value, and the prices
// of that.
#[derive(Drop)]
struct Climb {
    direction: Direction,
    value: u64,
    target: Target,
    best_parts: Vec<u64>,
}

impl Climb {
    // At the start, from the prices as they are.
    fn of(
        alloc: Global,
        nets: &mut Nets,
        pools: &mut Pools,
        base: u64,
        effort: &Effort,
    ) -> Result<Climb, NoMemory> {
        let mut direction = Direction {
            means: vec![in alloc; 0u64; pools.parts.len()]?,
            fresh: u64::from(effort.fresh.min(64)),
        };
        pools.set_costs(nets);
        let value = direction.add_walks(pools, nets);
        let (level, least) = (effort.level, effort.least_level);
        Ok(Climb {
            direction,
            value,
            target: Target::of(value, base, level, least, effort.patience),
            best_parts: pools.parts.as_slice().to_vec(alloc)?,
        })
    }

    // Goes back to the best prices.
    fn return_to_best(&self, nets: &mut Nets, pools: &mut Pools) {
        copy_all(&mut pools.parts, &self.best_parts);
        pools.set_costs(nets);
    }

    // One turn. Whether there is more to do.
    fn turn(&mut self, nets: &mut Nets, pools: &mut Pools) -> bool {
        let norm = self.direction.age(pools);
        if norm == 0 {
            return false;
        }
        let step = rate(self.target.gap(self.value), norm);
        self.direction.step(pools, nets, step);
        self.value = self.direction.add_walks(pools, nets);
        if self.target.note(self.value) {
            copy_all(&mut self.best_parts, &pools.parts);
        }
        match self.target.come_nearer() {
            Way::On => true,
            Way::End => false,
            Way::Nearer => {
                self.return_to_best(nets, pools);
                self.value = self.direction.add_walks(pools, nets);
                true
            }
        }
    }
}

/// Moves the prices of the pools to better ones, where the bases of the mode come to `base`.
pub(crate) fn ascend<D: Deadline>(
    resources: &Resources<D>,
    nets: &mut Nets,
    pools: &mut Pools,
    base: u64,
    effort: &Effort,
) -> Result<(), NoMemory> {
    let mut climb = Climb::of(resources.alloc, nets, pools, base, effort)?;
    for _ in 0..effort.turns {
        if !climb.turn(nets, pools) || resources.is_over() {
            break;
        }
    }
    climb.return_to_best(nets, pools);
    Ok(())
}
