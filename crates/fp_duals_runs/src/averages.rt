//! What the walks and the charged sets come to over all turns: nearly a solution of the problem
//! whose prices are sought.

use crate::NoMemory;
use fp_duals_layouts::{Charges, Layout};
use fp_duals_nets::Nets;
use std::alloc::Global;

/// A whole use.
pub(crate) const ONE: u64 = 1 << 20;

/// Averages over the turns.
#[derive(Drop)]
pub struct Averages {
    /// How much of each payer's walks uses what it pays for, in spans of single classes, in parts of
    /// `ONE`.
    pub(crate) used: Vec<u64>,
    /// The trucks of the charged sets of each span, in parts of `ONE`.
    pub(crate) trucks: Vec<u64>,
    // The least part of the newest turn, in parts of `ONE`.
    fresh: u64,
}

// Takes off a part, in parts of `ONE`.
fn lower(list: &mut [u64], part: u64) {
    for number in list.iter_mut() {
        *number = number.saturating_sub(number.wrapping_mul(part) >> 20);
    }
}

impl Averages {
    /// No turns yet; the newest will count at least half of `fresh` times in 64. Where no spans are to
    /// be joined, nothing is averaged. `NoMemory` only where no memory is found.
    pub fn of(
        alloc: Global,
        layout: &Layout,
        joins: bool,
        fresh: u32,
    ) -> Result<Averages, NoMemory> {
        let (payers, spans) = if joins {
            (layout.payers.len(), layout.spans.len())
        } else {
            (0, 0)
        };
        Ok(Averages {
            used: vec![in alloc; 0u64; payers]?,
            trucks: vec![in alloc; 0u64; spans]?,
            fresh: u64::from(fresh.min(64)).wrapping_mul(ONE / 128),
        })
    }

    /// How much of a payer's walks uses what it pays for, in a span of a single class, in parts of `ONE`.
    pub(crate) fn use_of(&self, payer: usize) -> u64 {
        self.used.get(payer).copied().unwrap_or(0)
    }

    /// Adds the walks of a turn, whose number is counted from 0, and its charged sets.
    pub fn turn(&mut self, nets: &Nets, walks: &[usize], charges: &Charges, turn: u32) {
        let part = (ONE / u64::from(turn).wrapping_add(1).max(1)).max(self.fresh);
        lower(&mut self.used, part);
        lower(&mut self.trucks, part);
        for number in walks {
            if let Some(edge) = nets.uses.get(*number)
                && let Some(used) = self.used.get_mut(edge.part)
            {
                *used = used.wrapping_add(part);
            }
        }
        for (number, all) in self.trucks.iter_mut().enumerate() {
            let trucks = charges.trucks(number).min(1 << 30);
            *all = all.wrapping_add(trucks.wrapping_mul(part));
        }
    }
}
