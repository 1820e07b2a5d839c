//! The table of the prices of some pools.

use crate::NoMemory;
use crate::pools::{Payer, Pool, Pools, parts_of};
use fp_duals_nets::{ClassNodes, MoneyUnit};
use fp_longestarcs::Stop;
use fp_prices::{Share, Table, Weight};
use std::alloc::Global;

// How many price lines the share of a pool makes.
fn lines_of(payers: &[Payer], parts: &[u64]) -> u64 {
    let mut lines = 1u64;
    for (payer, part) in payers.iter().zip(parts.iter()) {
        lines = lines.wrapping_add((payer.size > 0 && *part > 0) as u64);
    }
    lines
}

// The weights of a pool's payers, by shipment.
fn weights_of(
    alloc: Global,
    payers: &[Payer],
    parts: &[u64],
    unit: MoneyUnit,
) -> Result<Vec<Weight>, NoMemory> {
    let mut weights = Vec::new(alloc);
    for (payer, part) in payers.iter().zip(parts.iter()) {
        if payer.size > 0 && *part > 0 {
            weights.push(Weight {
                shipment: payer.shipment,
                w: unit.outer(*part),
            })?;
        }
    }
    Ok(weights)
}

// The share of a pool.
fn share_of(
    alloc: Global,
    pool: &Pool,
    class: Stop,
    payers: &[Payer],
    parts: &[u64],
    unit: MoneyUnit,
) -> Result<Share, NoMemory> {
    let bulk = parts.last().copied().unwrap_or(0);
    Ok(Share {
        arc: class.arc,
        point: class.point,
        v: unit.outer(pool.rate(bulk)),
        weights: weights_of(alloc, payers, parts, unit)?,
    })
}

impl Pools {
    // How many price lines the kept pools make.
    fn lines(&self) -> u64 {
        let mut lines = 0u64;
        for pool in &self.list {
            if pool.kept {
                let payers: &[Payer] = parts_of(&self.payers, pool);
                lines = lines.wrapping_add(lines_of(payers, parts_of(&self.parts, pool)));
            }
        }
        lines
    }

    /// The table of the kept pools, in order; `None` where there are none, or where it would have
    /// more than `most` price lines.
    pub(crate) fn table(
        &self,
        alloc: Global,
        classes: &[ClassNodes],
        unit: MoneyUnit,
        most: u32,
    ) -> Result<Option<Table>, NoMemory> {
        let lines = self.lines();
        if lines == 0 || lines > u64::from(most) {
            return Ok(None);
        }
        let mut shares = Vec::new(alloc);
        for pool in &self.list {
            if pool.kept
                && let Some(class) = classes.get(pool.class as usize)
            {
                let payers: &[Payer] = parts_of(&self.payers, pool);
                let parts: &[u64] = parts_of(&self.parts, pool);
                shares.push(share_of(alloc, pool, class.stop, payers, parts, unit)?)?;
            }
        }
        Ok(Some(Table { shares }))
    }
}
