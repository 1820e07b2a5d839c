//! Pools that are fitted to what the shipments need.

use crate::pools::{Payer, Pool, Pools, parts_of};
use fp_duals_nets::part_mut;

// What a pool's parts come to at a rate of its bulk, where its payers need so much.
fn spent_at(pool: &Pool, payers: &[Payer], needs: &[u64], rate: u64) -> u64 {
    let mut sum = pool.capacity.saturating_mul(rate);
    for (payer, need) in payers.iter().zip(needs.iter()) {
        let weight = need.saturating_sub(payer.size.saturating_mul(rate));
        sum = sum.saturating_add(weight);
    }
    sum
}

// The least rate, up to `most`, at which a pool's parts come to the cost of a truck at most, where
// they do at `most`; and `most` elsewhere.
fn least_rate(pool: &Pool, payers: &[Payer], needs: &[u64], most: u64) -> u64 {
    if spent_at(pool, payers, needs, most) > pool.truck {
        return most;
    }
    if spent_at(pool, payers, needs, 0) <= pool.truck {
        return 0;
    }
    let (mut low, mut rate) = (0u64, most);
    for _ in 0..64 {
        let middle = low.wrapping_add(rate.saturating_sub(low) / 2);
        if middle <= low {
            break;
        }
        if spent_at(pool, payers, needs, middle) <= pool.truck {
            rate = middle;
        } else {
            low = middle;
        }
    }
    rate
}

// Puts in what the payers of a pool need, 0 for the bulk. Gives what they pay together.
fn take_needs(payers: &[Payer], parts: &mut [u64], needs: &[u64]) {
    for (payer, part) in payers.iter().zip(parts.iter_mut()) {
        *part = needs.get(payer.edge).copied().unwrap_or(0);
    }
}

// Lowers the parts of a pool by what goes by size. What they come to with the bulk.
fn take_rate(pool: &Pool, payers: &[Payer], parts: &mut [u64], rate: u64) -> u64 {
    let bulk = pool.capacity.saturating_mul(rate);
    let mut sum = bulk;
    for (payer, part) in payers.iter().zip(parts.iter_mut()) {
        *part = part.saturating_sub(payer.size.saturating_mul(rate));
        sum = sum.saturating_add(*part);
    }
    if let Some(last) = parts.last_mut() {
        *last = bulk;
    }
    sum
}

impl Pools {
    /// Fits each pool to the needs: weights and bulk become as small as they allow, the bulk as
    /// small as it can be where `least`, and as it is elsewhere.
    pub(crate) fn fit(&mut self, needs: &[u64], least: bool) {
        for pool in self.list.iter_mut() {
            let payers = parts_of(&self.payers, pool);
            if let Some(parts) = part_mut(&mut self.parts, pool.first, pool.end) {
                let most = pool.rate(parts.last().copied().unwrap_or(0));
                take_needs(payers, parts, needs);
                let rate = if least {
                    least_rate(pool, payers, parts, most)
                } else {
                    most
                };
                let spent = take_rate(pool, payers, parts, rate);
                pool.slack = pool.truck.saturating_sub(spent);
            }
        }
    }
}
