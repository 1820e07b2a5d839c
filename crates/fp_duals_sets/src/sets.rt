//! What sets of payers pay at most beside the money for their trucks.

use crate::NoMemory;
use crate::fills::Fills;
use crate::items::{Item, MOST_GRAINS, put_grains, sort_by_density};
use crate::reciprocals::Reciprocals;
use crate::rows::Rows;
use std::alloc::Global;

/// By what sets of payers are weighed: the capacity of a truck, the money for it, a
/// common divisor of the capacity and the sizes, and how many loads are told apart at most.
#[derive(Clone, Copy)]
pub struct Terms {
    pub capacity: u64,
    pub money: u64,
    pub grain: u64,
    pub loads: u64,
}

/// Sets of payers. The memory is kept from span to span.
#[derive(Drop)]
pub struct Sets {
    items: Vec<Item>,
    // What the items come to.
    size: u64,
    weight: u64,
    fills: Fills,
    rows: Rows,
    reciprocals: Reciprocals,
}

/// The charge of a group or a span, the trucks for the sets that are charged, and the slack
/// where nothing is charged: what all weights may rise by together so that nothing is, where that
/// is known.
#[derive(Clone, Copy)]
pub struct Finding {
    pub charge: u64,
    pub trucks: u64,
    pub slack: Option<u64>,
}

impl Finding {
    /// That of nobody, at the money of a truck.
    pub fn of_none(money: u64) -> Finding {
        Finding {
            charge: 0,
            trucks: 0,
            slack: Some(money),
        }
    }

    /// That of a span with a group more.
    pub fn with(self, other: Finding) -> Finding {
        let slack = match (self.slack, other.slack) {
            (Some(one), Some(two)) => Some(one.min(two)),
            _ => None,
        };
        Finding {
            charge: self.charge.saturating_add(other.charge),
            trucks: self.trucks.saturating_add(other.trucks),
            slack,
        }
    }
}

impl Terms {
    /// The trucks for a size, at least one.
    pub(crate) fn trucks(self, size: u64) -> u64 {
        size.div_ceil(self.capacity.max(1)).max(1)
    }

    /// The last load, in grains, that so many trucks hold.
    pub(crate) fn last_load(self, trucks: u64, grain: u64) -> u64 {
        trucks.saturating_mul(self.capacity) / grain.max(1)
    }
}

// Counts one set more in which a payer is.
fn count_payer(counts: &mut [u32], payer: usize) {
    if let Some(count) = counts.get_mut(payer) {
        *count = count.wrapping_add(1);
    }
}

impl Sets {
    /// No sets.
    pub fn new(alloc: Global) -> Sets {
        Sets {
            items: Vec::new(alloc),
            size: 0,
            weight: 0,
            fills: Fills::new(alloc),
            rows: Rows::new(alloc),
            reciprocals: Reciprocals::new(alloc),
        }
    }

    /// Leaves all out.
    pub fn clear(&mut self) {
        self.items.clear();
        self.size = 0;
        self.weight = 0;
    }

    /// Takes a payer in that pays something.
    pub fn add(&mut self, size: u64, weight: u64, payer: usize) -> Result<(), NoMemory> {
        if weight > 0 {
            self.size = self.size.saturating_add(size);
            self.weight = self.weight.saturating_add(weight);
            self.items.push(Item::new(size, weight, payer))?;
        }
        Ok(())
    }

    // The grain by which sizes up to `size` in all are counted in sets of at most a size.
    fn grain_for(&self, terms: Terms, size: u64, most: u64) -> u64 {
        let mut grain = terms.grain.max(1);
        if size / grain > MOST_GRAINS {
            grain = size.div_ceil(MOST_GRAINS).max(1);
        }
        let loads = most / grain;
        grain.saturating_mul(loads.div_ceil(terms.loads.max(1)).max(1))
    }

    // Whether sets of these are told apart by their sizes alone.
    fn is_exact(&self, terms: Terms) -> bool {
        self.size / terms.grain.max(1) <= terms.loads.min(MOST_GRAINS)
    }

    // Counts one set more for those of the set that passes its money by most. Its size.
    fn count_best(&self, counts: &mut [u32]) -> u64 {
        let mut size = 0u64;
        for item in self.fills.best() {
            count_payer(counts, item.payer);
            size = size.saturating_add(item.size);
        }
        size
    }

    // What is found truck by truck, where trucks cost something.
    fn find(&mut self, terms: Terms, counts: &mut [u32]) -> Result<Finding, NoMemory> {
        // No set with more trucks than these pays more than its money.
        let trucks = self.weight.saturating_sub(1) / terms.money.max(1);
        let most = self.size.min(trucks.saturating_mul(terms.capacity));
        let grain = self.grain_for(terms, self.size, most);
        put_grains(&mut self.items, grain, &mut self.reciprocals)?;
        sort_by_density(&mut self.items);
        let excess = self
            .fills
            .greatest_excess(&self.items, terms, trucks, grain)?;
        if excess.most > 0 {
            let size = self.count_best(counts);
            return Ok(Finding {
                charge: excess.most,
                trucks: size.div_ceil(terms.capacity.max(1)),
                slack: None,
            });
        }
        let next = terms.money.saturating_mul(trucks.saturating_add(1));
        let slack = next.saturating_sub(self.weight).min(excess.slack);
        Ok(Finding {
            charge: 0,
            trucks: 0,
            slack: self.is_exact(terms).then_some(slack),
        })
    }

    /// What the weights of some set of those who were taken in pass the money for the set's trucks
    /// by at most; and, where this isn't 0, counts one set more for the payers of such a set.
    pub fn charge(&mut self, terms: Terms, counts: &mut [u32]) -> Result<Finding, NoMemory> {
        if terms.money == 0 {
            for item in &self.items {
                count_payer(counts, item.payer);
            }
            return Ok(Finding {
                charge: self.weight,
                trucks: self.size.div_ceil(terms.capacity.max(1)),
                slack: None,
            });
        }
        match terms.money.checked_sub(self.weight) {
            Some(slack) => Ok(Finding {
                charge: 0,
                trucks: 0,
                slack: Some(slack),
            }),
            None => self.find(terms, counts),
        }
    }

    /// The most that one more payer of a size may pay beside those who were taken in, so that no
    /// charge above this one is needed.
    pub fn room(&mut self, terms: Terms, size: u64, charge: u64) -> Result<u64, NoMemory> {
        let alone = terms.trucks(size);
        let free = terms.money.saturating_mul(alone).saturating_add(charge);
        if self.weight == 0 || terms.money == 0 {
            return Ok(free.saturating_sub(self.weight));
        }
        // No set with more trucks than these leaves less.
        let trucks = alone.saturating_add(self.weight.wrapping_sub(1) / terms.money.max(1));
        let most = trucks.saturating_mul(terms.capacity);
        let grain = self
            .grain_for(terms, self.size.saturating_add(size), self.size.min(most))
            .max(1);
        let loads = most.saturating_sub(size).min(self.size) / grain;
        put_grains(&mut self.items, grain, &mut self.reciprocals)?;
        self.rows
            .fill(&self.items, loads.min(MOST_GRAINS) as usize)?;
        Ok(self.least_room(terms, size, grain, charge))
    }

    // The least that some set of the items leaves to one of a size. The most is paid at the last load of
    // each number of trucks.
    fn least_room(&self, terms: Terms, size: u64, grain: u64, charge: u64) -> u64 {
        let row = self.rows.last_row();
        let more = size / grain.max(1);
        let mut least = u64::MAX;
        let mut load = 0usize;
        for _ in 0..row.len() {
            let all = more.saturating_add(load as u64).saturating_mul(grain);
            let trucks = terms.trucks(all);
            let held = terms.last_load(trucks, grain).saturating_sub(more);
            let last = (held.min(MOST_GRAINS) as usize)
                .min(row.len().wrapping_sub(1))
                .max(load);
            let Some(weight) = row.get(last) else {
                break;
            };
            let money = terms.money.saturating_mul(trucks).saturating_add(charge);
            least = least.min(money.saturating_sub(self.rows.paid(*weight)));
            load = last.wrapping_add(1);
        }
        least
    }
}
