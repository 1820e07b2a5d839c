//! The prices of a kind, put into pools.

use crate::pools::{Payer, Pool, Pools, parts_of};
use crate::projection::project;
use fp_duals_ascent::weight_of;
use fp_duals_nets::{ClassNodes, ClassUsers, EdgeUse, MoneyUnit, part_mut};
use fp_longestarcs::Stop;
use fp_prices::{Kind, Share, Table};

/// How a start prices the classes that it doesn't leave free.
#[derive(Clone, Copy)]
pub(crate) enum Rule<'a> {
    /// By size alone.
    BySize,
    /// In equal parts, where one truck holds all users of a class.
    InParts { users: &'a [ClassUsers] },
    /// By the shares of a table, in order.
    ByShares { shares: &'a [Share] },
}

/// Prices from which a search starts.
#[derive(Clone, Copy)]
pub(crate) struct Start<'a> {
    pub rule: Rule<'a>,
    /// The classes of the network.
    pub classes: &'a [ClassNodes],
    /// The loads of the forced classes that the start left free, and of no others.
    pub freed: &'a [u128],
    pub unit: MoneyUnit,
}

/// The prices of a kind, which may name one of the tables, where forced classes are paid whole or not.
#[derive(Clone, Copy)]
pub(crate) struct KindPrices<'a> {
    pub tables: &'a [Table],
    pub kind: Kind,
    pub forced: bool,
}

impl<'a> KindPrices<'a> {
    /// How the kind prices classes; `users` are those of the classes where it is `Even`.
    pub(crate) fn rule(&self, users: &'a [ClassUsers]) -> Rule<'a> {
        match self.kind {
            Kind::Linear => Rule::BySize,
            Kind::Even => Rule::InParts { users },
            Kind::Table { id } => Rule::ByShares {
                shares: shares_of(self.tables, id),
            },
        }
    }
}

// The shares of a table by its number, from 1; none where there is no such table.
fn shares_of(tables: &[Table], id: u32) -> &[Share] {
    match tables.get((id as usize).wrapping_sub(1)) {
        Some(table) => &table.shares,
        None => &[],
    }
}

// The share of a class among shares in order.
fn share_of<'a>(shares: &'a [Share], class: Stop) -> Option<&'a Share> {
    let Stop { arc, point } = class;
    let before = |share: &Share| share.arc < arc || share.arc == arc && share.point < point;
    let share = shares.get(shares.partition_point(before))?;
    if share.arc == arc && share.point == point {
        Some(share)
    } else {
        None
    }
}

// Puts the same into each part but the last.
fn put_equal(parts: &mut [u64], payers: &[Payer], each: u64) {
    for (part, payer) in parts.iter_mut().zip(payers.iter()) {
        *part = if payer.size > 0 { each } else { 0 };
    }
}

// Puts the weights and the bulk of a share into parts.
fn put_share(parts: &mut [u64], payers: &[Payer], pool: &Pool, share: &Share, unit: MoneyUnit) {
    for (part, payer) in parts.iter_mut().zip(payers.iter()) {
        *part = unit.inner(weight_of(&share.weights, payer.shipment));
    }
    if let Some(last) = parts.last_mut() {
        *last = unit.inner(share.v).saturating_mul(pool.capacity);
    }
}

// How many payers are forced to use the class.
fn count_forced(payers: &[Payer], uses: &[EdgeUse]) -> u64 {
    let mut count = 0u64;
    for payer in payers {
        if let Some(edge) = uses.get(payer.edge) {
            count = count.wrapping_add(edge.forced as u64);
        }
    }
    count
}

// Lets those who are forced to use a class pay for a truck in equal parts.
fn put_forced(parts: &mut [u64], payers: &[Payer], uses: &[EdgeUse], truck: u64) {
    let each = truck / count_forced(payers, uses).max(1);
    for (part, payer) in parts.iter_mut().zip(payers.iter()) {
        let forced = uses.get(payer.edge).is_some_and(|edge| edge.forced);
        *part = if forced { each } else { 0 };
    }
}

impl Start<'_> {
    // Puts the prices of a class into the parts of its pool; `false` where they go by size.
    fn put(&self, pool: &Pool, class: &ClassNodes, payers: &[Payer], parts: &mut [u64]) -> bool {
        match self.rule {
            Rule::BySize => false,
            Rule::InParts { users } => match users.get(pool.class as usize) {
                Some(users) if users.size <= u128::from(pool.capacity) => {
                    put_equal(parts, payers, pool.truck / users.count.max(1));
                    true
                }
                _ => false,
            },
            Rule::ByShares { shares } => match share_of(shares, class.stop) {
                Some(share) => {
                    put_share(parts, payers, pool, share, self.unit);
                    true
                }
                None => false,
            },
        }
    }

    // Puts the prices of a pool in.
    fn put_pool(&self, pool: &Pool, payers: &[Payer], parts: &mut [u64], uses: &[EdgeUse]) {
        let Some(class) = self.classes.get(pool.class as usize) else {
            return;
        };
        if !self.put(pool, class, payers, parts) {
            let freed = self.freed.get(pool.class as usize).copied().unwrap_or(0);
            if freed > 0 {
                put_forced(parts, payers, uses, pool.truck);
            } else if let Some(last) = parts.last_mut() {
                *last = pool.truck;
            }
        }
        project(parts, pool.truck);
    }

    /// Puts the start's prices into pools whose parts are 0. What a forced class's base paid is
    /// paid in equal parts by those who are forced.
    pub(crate) fn put_all(&self, pools: &mut Pools, uses: &[EdgeUse]) {
        for pool in &pools.list {
            if let Some(parts) = part_mut(&mut pools.parts, pool.first, pool.end) {
                self.put_pool(pool, parts_of(&pools.payers, pool), parts, uses);
            }
        }
    }
}
