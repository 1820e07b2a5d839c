//! How the times of groups change where a few shipments are taken out or put in.
//!
//! The least time of a group is the length of a longest path that ends there, so after a removal
//! the groups are looked at in the order of the times that they had (as I. Katriel and P. Van
//! Hentenryck, "Maintaining Longest Paths in Cyclic Graphs", 2005), and those alone that can
//! change.

use crate::NoMemory;
use crate::groups::{Group, GroupedLeg};
use crate::solutions::{Place, Solution};
use std::alloc::Global;
use std::cmp::Reverse;
use std::collections::BinaryHeap;

/// The groups whose times may change since shipments were taken out or put in. Where no memory is
/// found to note one, the times of all groups are found anew instead, which takes longer.
#[derive(Drop)]
pub struct TimeChanges {
    // After a removal the groups with their old times, the least or the greatest first.
    soonest: BinaryHeap<Reverse<(u32, usize)>>,
    latest: BinaryHeap<(u32, usize)>,
    // After a shipment was put in, in any order.
    waiting: Vec<usize>,
    // Whether a group couldn't be noted that a leg has left.
    is_lost: bool,
}

// The leg at a place and the one after it.
fn with_next(routes: &[Vec<GroupedLeg>], place: Place) -> Option<(GroupedLeg, GroupedLeg)> {
    let route = routes.get(place.shipment)?;
    let next = route.get(place.leg.saturating_add(1))?;
    Some((*route.get(place.leg)?, *next))
}

// The leg before a place and the one at it.
fn with_last(routes: &[Vec<GroupedLeg>], place: Place) -> Option<(GroupedLeg, GroupedLeg)> {
    let route = routes.get(place.shipment)?;
    let last = route.get(place.leg.checked_sub(1)?)?;
    Some((*last, *route.get(place.leg)?))
}

// The least time of a group, 0 where there is none.
fn early_of(groups: &[Group], group: usize) -> u32 {
    groups.get(group).map_or(0, |found| found.early)
}

// The greatest time of a group, 0 where there is none.
fn late_of(groups: &[Group], group: usize) -> u32 {
    groups.get(group).map_or(0, |found| found.late)
}

// The places of a group, the routes that they lie on, and all groups, whose times may change.
fn parts_of(solution: &mut Solution, group: usize) -> (&[Place], &[Vec<GroupedLeg>], &mut [Group]) {
    let places = match solution.members.get(group) {
        Some(places) => places.as_slice(),
        None => &[],
    };
    (places, &solution.routes, &mut solution.groups)
}

// The least time at which the legs of some places can all leave, by the legs before them.
fn least_time(solution: &Solution, places: &[Place]) -> u32 {
    let mut least = 0;
    for place in places {
        if let Some(leg) = solution.leg(*place) {
            least = least.max(leg.lo);
        }
        if let Some((last, _)) = with_last(&solution.routes, *place) {
            let ready = early_of(&solution.groups, last.group).saturating_add(last.step);
            least = least.max(ready);
        }
    }
    least
}

// The greatest time at which the legs of some places can all leave, by the legs after them.
fn greatest_time(solution: &Solution, places: &[Place]) -> u32 {
    let mut greatest = u32::MAX;
    for place in places {
        if let Some(leg) = solution.leg(*place) {
            greatest = greatest.min(leg.hi);
        }
        if let Some((leg, next)) = with_next(&solution.routes, *place) {
            let left = late_of(&solution.groups, next.group).saturating_sub(leg.step);
            greatest = greatest.min(left);
        }
    }
    greatest
}

impl TimeChanges {
    /// Nothing to look at. It takes no memory.
    pub fn new(alloc: Global) -> TimeChanges {
        TimeChanges {
            soonest: BinaryHeap::new(alloc),
            latest: BinaryHeap::new(alloc),
            waiting: Vec::new(alloc),
            is_lost: false,
        }
    }

    /// Notes that a leg has left a group, before any times are widened.
    pub fn note_left(&mut self, groups: &[Group], group: usize) {
        if self.push_left(groups, group).is_err() {
            self.is_lost = true;
        }
    }

    // Notes that a leg has left a group, with the times that it had.
    fn push_left(&mut self, groups: &[Group], group: usize) -> Result<(), NoMemory> {
        self.soonest
            .push(Reverse((early_of(groups, group), group)))?;
        self.latest.push((late_of(groups, group), group))?;
        Ok(())
    }

    /// Widens the times of the groups as the legs let them that were noted to have left.
    pub fn widen(&mut self, solution: &mut Solution) {
        if self.is_lost || self.widen_noted(solution).is_err() {
            self.forget();
            solution.set_times();
        }
    }

    // Widens the times of the groups that are noted, and of those after and before them.
    fn widen_noted(&mut self, solution: &mut Solution) -> Result<(), NoMemory> {
        self.widen_least(solution)?;
        self.widen_greatest(solution)
    }

    // Notes no group any more.
    fn forget(&mut self) {
        self.soonest.clear();
        self.latest.clear();
        self.waiting.clear();
        self.is_lost = false;
    }

    // Lets the least times fall.
    fn widen_least(&mut self, solution: &mut Solution) -> Result<(), NoMemory> {
        for _ in 0..u32::MAX {
            let Some(Reverse((was, group))) = self.soonest.pop() else {
                return Ok(());
            };
            let early = least_time(solution, solution.places(group));
            if early != was && early_of(&solution.groups, group) == was {
                solution.set_early(group, early);
                self.push_after(solution, group, was)?;
            }
        }
        Ok(())
    }

    // Notes the groups that left as early as a group before them let them, at the time that it had.
    fn push_after(&mut self, solution: &Solution, group: usize, was: u32) -> Result<(), NoMemory> {
        for place in solution.places(group) {
            if let Some((leg, next)) = with_next(&solution.routes, *place) {
                let early = early_of(&solution.groups, next.group);
                if early == was.saturating_add(leg.step) {
                    self.soonest.push(Reverse((early, next.group)))?;
                }
            }
        }
        Ok(())
    }

    // Lets the greatest times rise.
    fn widen_greatest(&mut self, solution: &mut Solution) -> Result<(), NoMemory> {
        for _ in 0..u32::MAX {
            let Some((was, group)) = self.latest.pop() else {
                return Ok(());
            };
            let late = greatest_time(solution, solution.places(group));
            if late != was && late_of(&solution.groups, group) == was {
                solution.set_late(group, late);
                self.push_before(solution, group, was)?;
            }
        }
        Ok(())
    }

    // Notes the groups that left as late as a group after them let them, at the time that it had.
    fn push_before(&mut self, solution: &Solution, group: usize, was: u32) -> Result<(), NoMemory> {
        for place in solution.places(group) {
            if let Some((last, _)) = with_last(&solution.routes, *place) {
                let late = late_of(&solution.groups, last.group);
                if late.saturating_add(last.step) == was {
                    self.latest.push((late, last.group))?;
                }
            }
        }
        Ok(())
    }

    /// Narrows the times of the groups after a shipment was put in. Answers whether there are any:
    /// else some are narrowed, and those of before have to be loaded.
    pub fn narrow(&mut self, solution: &mut Solution, shipment: usize) -> bool {
        match self.narrow_after(solution, shipment) {
            Ok(has_times) => has_times,
            Err(_) => {
                self.forget();
                solution.set_times()
            }
        }
    }

    // Narrows the times of the groups after and before those of a shipment's legs.
    fn narrow_after(&mut self, solution: &mut Solution, shipment: usize) -> Result<bool, NoMemory> {
        self.wait_for(solution, shipment)?;
        if !self.raise_waiting(solution)? {
            return Ok(false);
        }
        self.wait_for(solution, shipment)?;
        self.lower_waiting(solution)?;
        Ok(true)
    }

    // Notes the groups of a shipment's legs alone.
    fn wait_for(&mut self, solution: &Solution, shipment: usize) -> Result<(), NoMemory> {
        self.waiting.clear();
        if let Some(route) = solution.routes.get(shipment) {
            for leg in route {
                self.waiting.push(leg.group)?;
            }
        }
        Ok(())
    }

    // Raises the least times of the groups after those that wait. Answers whether none passes its
    // greatest time.
    fn raise_waiting(&mut self, solution: &mut Solution) -> Result<bool, NoMemory> {
        for _ in 0..u32::MAX {
            let Some(group) = self.waiting.pop() else {
                return Ok(true);
            };
            let early = early_of(&solution.groups, group);
            if early > late_of(&solution.groups, group) {
                return Ok(false);
            }
            self.raise_after(solution, group, early)?;
        }
        Ok(false)
    }

    // Raises the least times of the groups after one that leaves at a time or later.
    fn raise_after(
        &mut self,
        solution: &mut Solution,
        group: usize,
        early: u32,
    ) -> Result<(), NoMemory> {
        let (places, routes, groups) = parts_of(solution, group);
        for place in places {
            if let Some((leg, next)) = with_next(routes, *place)
                && let Some(found) = groups.get_mut(next.group)
            {
                let ready = early.saturating_add(leg.step);
                if found.early < ready {
                    found.early = ready;
                    self.waiting.push(next.group)?;
                }
            }
        }
        Ok(())
    }

    // Lowers the greatest times of the groups before those that wait.
    fn lower_waiting(&mut self, solution: &mut Solution) -> Result<(), NoMemory> {
        for _ in 0..u32::MAX {
            let Some(group) = self.waiting.pop() else {
                return Ok(());
            };
            let late = late_of(&solution.groups, group);
            self.lower_before(solution, group, late)?;
        }
        Ok(())
    }

    // Lowers the greatest times of the groups before one that leaves at a time or earlier.
    fn lower_before(
        &mut self,
        solution: &mut Solution,
        group: usize,
        late: u32,
    ) -> Result<(), NoMemory> {
        let (places, routes, groups) = parts_of(solution, group);
        for place in places {
            if let Some((last, _)) = with_last(routes, *place)
                && let Some(found) = groups.get_mut(last.group)
            {
                let left = late.saturating_sub(last.step);
                if found.late > left {
                    found.late = left;
                    self.waiting.push(last.group)?;
                }
            }
        }
        Ok(())
    }
}
