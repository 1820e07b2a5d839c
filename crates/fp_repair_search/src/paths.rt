//! The path of least added cost for a shipment beside the groups of the others.

use crate::NoMemory;
use crate::labels::{Label, Labels};
use fp_model::{Instance, Shipment};
use fp_repair_groups::{Group, PARTS, PathLeg, UsableArc, UsableArcs};
use std::alloc::Global;

// What a search for paths needs: its labels, the groups by their arcs, for each arc how many parts
// of a truck's cost count by trucks and not by load, and the path found.
#[derive(Drop)]
pub(crate) struct Paths {
    labels: Labels,
    // For each arc its last group, and for each group the one before it on its arc.
    last: Vec<Option<usize>>,
    before: Vec<Option<usize>>,
    pub belief: Vec<u32>,
    pub path: Vec<PathLeg>,
}

// A label that is looked at, with its cost and its number, and an arc by which to go on from it, at
// what time at the earliest, and at what cost without trucks.
#[derive(Clone, Copy)]
struct Onward {
    label: Label,
    number: usize,
    place: usize,
    arc: UsableArc,
    from: u32,
    base: u128,
}

impl Paths {
    // A search over an instance.
    pub(crate) fn new(alloc: Global, instance: &Instance) -> Result<Paths, NoMemory> {
        let arcs = instance.arcs().len();
        Ok(Paths {
            labels: Labels::new(alloc, instance.terminals().len())?,
            last: vec![in alloc; None; arcs]?,
            before: Vec::new(alloc),
            belief: vec![in alloc; PARTS; arcs]?,
            path: Vec::new(alloc),
        })
    }

    // Lists the groups by their arcs.
    pub(crate) fn list_groups(&mut self, groups: &[Group]) -> Result<(), NoMemory> {
        for last in self.last.iter_mut() {
            *last = None;
        }
        self.before.clear();
        for (number, group) in groups.iter().enumerate() {
            if group.count > 0 {
                self.list_group(number, group.arc)?;
            }
        }
        Ok(())
    }

    // Lists a group of an arc that isn't listed.
    pub(crate) fn list_group(&mut self, number: usize, arc: u32) -> Result<(), NoMemory> {
        for _ in self.before.len()..number.saturating_add(1) {
            self.before.push(None)?;
        }
        if let Some(last) = self.last.get_mut(arc as usize)
            && let Some(before) = self.before.get_mut(number)
        {
            *before = *last;
            *last = Some(number);
        }
        Ok(())
    }

    // Finds the path of least added cost for a shipment that is out. `shift` allows that a group
    // leaves later for it. Answers whether there is one.
    pub(crate) fn find(
        &mut self,
        instance: &Instance,
        usable: &UsableArcs,
        groups: &[Group],
        shipment: &Shipment,
        shift: bool,
    ) -> Result<bool, NoMemory> {
        let origin = Label::origin(shipment.from, shipment.release);
        self.labels.begin(origin)?;
        for _ in 0..u32::MAX {
            let Some((cost, number, label)) = self.labels.next() else {
                return Ok(false);
            };
            if label.terminal == shipment.to {
                self.labels.trace(number, &mut self.path)?;
                return Ok(true);
            }
            let (first, end) = usable.leaving(label.terminal);
            for place in first..end {
                if let Some(onward) = self.onward(usable, place, cost, number, label) {
                    self.open(&onward)?;
                    self.join(instance, groups, shipment.size, &onward, shift)?;
                }
            }
        }
        Ok(false)
    }

    // The usable arc at a place as a way on from a label, if it is one.
    fn onward(
        &self,
        usable: &UsableArcs,
        place: usize,
        cost: u128,
        number: usize,
        label: Label,
    ) -> Option<Onward> {
        let arc = *usable.arcs.get(place)?;
        let from = label.time.max(arc.lo);
        if from > arc.hi || label.has_met(arc.to) {
            return None;
        }
        let doubt = PARTS.saturating_sub(self.believed(arc.number));
        let by_load = arc.share.saturating_mul(u128::from(doubt));
        Some(Onward {
            label,
            number,
            place,
            arc,
            from,
            base: cost.saturating_add(arc.freight).saturating_add(by_load),
        })
    }

    // How many parts of a truck's cost on an arc count by trucks.
    fn believed(&self, arc: u32) -> u32 {
        self.belief.get(arc as usize).copied().unwrap_or(PARTS)
    }

    // Goes on in a group of its own. It costs one part more, so that ties go to groups.
    fn open(&mut self, onward: &Onward) -> Result<(), NoMemory> {
        let arc = &onward.arc;
        let time = onward.from.saturating_add(arc.step);
        let trucks = arc
            .alone
            .saturating_mul(u128::from(self.believed(arc.number)));
        let leg = PathLeg {
            usable: onward.place,
            group: None,
        };
        let label = onward.label.after(onward.number, leg, arc.to, time);
        self.labels.push(onward.base.saturating_add(trucks).saturating_add(1), label)
    }

    // Goes on in each group that can take the shipment along.
    fn join(
        &mut self,
        instance: &Instance,
        groups: &[Group],
        size: u64,
        onward: &Onward,
        shift: bool,
    ) -> Result<(), NoMemory> {
        let mut at = self.last.get(onward.arc.number as usize).copied().flatten();
        for _ in 0..groups.len() {
            let Some(number) = at else {
                return Ok(());
            };
            if let Some(group) = groups.get(number) {
                self.join_one(instance, number, group, size, onward, shift)?;
            }
            at = self.before.get(number).copied().flatten();
        }
        Ok(())
    }

    // Goes on in a group, if it can take the shipment along.
    fn join_one(
        &mut self,
        instance: &Instance,
        number: usize,
        group: &Group,
        size: u64,
        onward: &Onward,
        shift: bool,
    ) -> Result<(), NoMemory> {
        let leave = onward.from.max(group.early);
        let late = leave > onward.arc.hi || leave > group.late;
        let shifts = leave > group.early && !shift;
        let time = leave.saturating_add(onward.arc.step);
        if late || shifts || !self.labels.can_add(onward.base, onward.arc.to, time) {
            return Ok(());
        }
        let Some(arc) = instance.arcs().get(onward.arc.number as usize) else {
            return Ok(());
        };
        let more = u128::from(group.more_trucks(size, arc.capacity));
        let trucks = more
            .saturating_mul(u128::from(arc.truck))
            .saturating_mul(u128::from(self.believed(onward.arc.number)));
        let leg = PathLeg {
            usable: onward.place,
            group: Some(number),
        };
        let label = onward.label.after(onward.number, leg, onward.arc.to, time);
        self.labels.push(onward.base.saturating_add(trucks), label)
    }
}
