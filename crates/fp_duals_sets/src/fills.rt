//! The set that passes the money for its trucks by most: truck by truck, by loads of those alone about
//! whom what they pay for their size doesn't decide (S. Martello and P. Toth, "Knapsack Problems", Wiley,
//! 1990, section 2.2).

use crate::NoMemory;
use crate::items::{Fill, Gap, Item, MOST_GRAINS, weight_of};
use crate::rows::Rows;
use crate::sets::Terms;
use std::alloc::Global;
use std::mem::swap;

/// By how much the money for the trucks of some set is passed at most, and how much the money passes
/// what sets pay at least where it isn't passed.
#[derive(Clone, Copy)]
pub(crate) struct Excess {
    pub most: u64,
    pub slack: u64,
}

// What a set pays that pays more than a goal, or how much less than it all sets pay at least.
enum Found {
    More { weight: u64 },
    Less { slack: u64 },
}

/// The sets of some who pay, truck by truck. The memory is kept from one to the next.
#[derive(Drop)]
pub(crate) struct Fills {
    rows: Rows,
    // Those about whom a fill doesn't decide.
    open: Vec<Item>,
    // The set that was found last.
    found: Vec<Item>,
    // The best set so far.
    best: Vec<Item>,
}

// Those of a fill about whom it decides.
fn held(items: &[Item], fill: Fill, gap: Gap) -> Fill {
    let mut held = Fill::NONE;
    for item in items.iter().take(fill.items) {
        if !gap.leaves_open(item) {
            held = held.with(item);
        }
    }
    held
}

impl Fills {
    /// Nobody's.
    pub(crate) fn new(alloc: Global) -> Fills {
        Fills {
            rows: Rows::new(alloc),
            open: Vec::new(alloc),
            found: Vec::new(alloc),
            best: Vec::new(alloc),
        }
    }

    /// The set whose excess was found last, where it is above 0.
    pub(crate) fn best(&self) -> &[Item] {
        &self.best
    }

    // Takes those whom a gap leaves open.
    fn take_open(&mut self, items: &[Item], gap: Gap) -> Result<(), NoMemory> {
        self.open.clear();
        for item in items {
            if gap.leaves_open(item) {
                self.open.push(*item)?;
            }
        }
        Ok(())
    }

    // Takes a set: those of a fill about whom it decides, and of the others the best that the rows tell. What
    // it pays.
    fn take_best(&mut self, items: &[Item], fill: Fill, gap: Gap) -> Result<u64, NoMemory> {
        self.found.clear();
        for item in items.iter().take(fill.items) {
            if !gap.leaves_open(item) {
                self.found.push(*item)?;
            }
        }
        self.rows.add_best(&self.open, &mut self.found)?;
        Ok(weight_of(&self.found))
    }

    // Finds whether all together pay more than a goal.
    fn find_all(&mut self, items: &[Item], weight: u64, goal: u64) -> Result<Found, NoMemory> {
        if weight <= goal {
            return Ok(Found::Less {
                slack: goal - weight,
            });
        }
        self.best.clear();
        self.best.extend_from_slice(items)?;
        Ok(Found::More { weight })
    }

    // Finds whether a set for which a room has a place pays more than a goal, by the fill of the room.
    fn find(
        &mut self,
        items: &[Item],
        fill: Fill,
        room: usize,
        goal: u64,
    ) -> Result<Found, NoMemory> {
        let Some(next) = items.get(fill.items) else {
            return self.find_all(items, fill.weight, goal);
        };
        if let Err(slack) = Gap::of(fill, next, room, goal) {
            return Ok(Found::Less { slack });
        }
        // A set is known that pays so much: it has to be found, or one that pays more.
        let known = fill.completed(items, room).saturating_sub(1);
        let Ok(gap) = Gap::of(fill, next, room, goal.max(known)) else {
            return Ok(Found::Less { slack: 0 });
        };
        let held = held(items, fill, gap);
        let Some(left) = room.checked_sub(held.grains) else {
            return Ok(Found::Less { slack: 0 });
        };
        self.take_open(items, gap)?;
        self.rows.fill(&self.open, left)?;
        if held.weight.saturating_add(self.rows.most()) <= goal {
            return Ok(Found::Less { slack: 0 });
        }
        let weight = self.take_best(items, fill, gap)?;
        if weight <= goal {
            return Ok(Found::Less { slack: 0 });
        }
        swap(&mut self.best, &mut self.found);
        Ok(Found::More { weight })
    }

    /// The greatest excess of sets for up to so many trucks, whose loads are counted by a grain. Those
    /// who pay stand by what they pay for a grain, the most first. The most is paid at the last load of
    /// each number of trucks.
    pub(crate) fn greatest_excess(
        &mut self,
        items: &[Item],
        terms: Terms,
        trucks: u64,
        grain: u64,
    ) -> Result<Excess, NoMemory> {
        let mut excess = Excess {
            most: 0,
            slack: u64::MAX,
        };
        let mut fill = Fill::NONE;
        let mut load = 0u64;
        for _ in 0..=MOST_GRAINS {
            let number = terms.trucks(load.saturating_mul(grain));
            if number > trucks || fill.items == items.len() {
                break;
            }
            let room = terms.last_load(number, grain).min(MOST_GRAINS).max(load);
            fill = fill.grown(items, room as usize);
            let money = terms.money.saturating_mul(number);
            let goal = money.saturating_add(excess.most);
            match self.find(items, fill, room as usize, goal)? {
                Found::More { weight } => excess.most = weight.saturating_sub(money),
                Found::Less { slack } => excess.slack = excess.slack.min(slack),
            }
            load = room.wrapping_add(1);
        }
        Ok(excess)
    }
}
