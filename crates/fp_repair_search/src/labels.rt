//! The labels of a search for a path: where a shipment can be, when, and at what added cost.

use crate::NoMemory;
use fp_repair_groups::PathLeg;
use std::alloc::Global;
use std::cmp::Reverse;
use std::collections::BinaryHeap;

// That a shipment can leave a terminal at a time, after the leg by which it came and the label
// before it, having met the terminals of the bits of `met`.
#[derive(Clone, Copy)]
pub(crate) struct Label {
    pub terminal: u32,
    pub time: u32,
    pub met: u128,
    pub came: Option<(usize, PathLeg)>,
}

// The bit of a terminal.
fn bit(terminal: u32) -> u128 {
    1u128.wrapping_shl(terminal)
}

impl Label {
    // A shipment at its origin.
    pub(crate) fn origin(terminal: u32, time: u32) -> Label {
        Label {
            terminal,
            time,
            met: bit(terminal),
            came: None,
        }
    }

    // Whether the shipment has met a terminal.
    pub(crate) fn has_met(&self, terminal: u32) -> bool {
        self.met & bit(terminal) != 0
    }

    // The label after a leg from this one, which has the number `at`.
    pub(crate) fn after(&self, at: usize, leg: PathLeg, to: u32, time: u32) -> Label {
        Label {
            terminal: to,
            time,
            met: self.met | bit(to),
            came: Some((at, leg)),
        }
    }
}

// What is known of a terminal: the earliest time of a label that was looked at, and the cost and
// the time of the cheapest label.
#[derive(Clone, Copy)]
struct Known {
    earliest: u32,
    cost: u128,
    time: u32,
}

// Nothing known.
const NOTHING: Known = Known {
    earliest: u32::MAX,
    cost: u128::MAX,
    time: u32::MAX,
};

// The labels, a queue of them by cost and then by time, and what is known of each terminal.
#[derive(Drop)]
pub(crate) struct Labels {
    all: Vec<Label>,
    queue: BinaryHeap<Reverse<(u128, u32, usize)>>,
    known: Vec<Known>,
}

impl Labels {
    // No labels, for so many terminals.
    pub(crate) fn new(alloc: Global, terminals: usize) -> Result<Labels, NoMemory> {
        Ok(Labels {
            all: Vec::new(alloc),
            queue: BinaryHeap::new(alloc),
            known: vec![in alloc; NOTHING; terminals]?,
        })
    }

    // Begins anew with one label.
    pub(crate) fn begin(&mut self, label: Label) -> Result<(), NoMemory> {
        self.all.clear();
        self.queue.clear();
        for known in self.known.iter_mut() {
            *known = NOTHING;
        }
        self.push(0, label)
    }

    // Whether a label at a cost would be added: if it is earlier than each that was looked at at its
    // terminal, and earlier or cheaper than the cheapest.
    pub(crate) fn can_add(&self, cost: u128, terminal: u32, time: u32) -> bool {
        match self.known.get(terminal as usize) {
            Some(known) => time < known.earliest && (cost < known.cost || time < known.time),
            None => false,
        }
    }

    // Adds a label at a cost, if it can be.
    pub(crate) fn push(&mut self, cost: u128, label: Label) -> Result<(), NoMemory> {
        if !self.can_add(cost, label.terminal, label.time) {
            return Ok(());
        }
        if let Some(known) = self.known.get_mut(label.terminal as usize)
            && cost <= known.cost
        {
            known.cost = cost;
            known.time = label.time;
        }
        let number = self.all.len();
        self.queue.push(Reverse((cost, label.time, number)))?;
        self.all.push(label)?;
        Ok(())
    }

    // The next label to look at, by cost, with its cost and its number.
    pub(crate) fn next(&mut self) -> Option<(u128, usize, Label)> {
        for _ in 0..u32::MAX {
            let Some(Reverse((cost, time, number))) = self.queue.pop() else {
                return None;
            };
            let Some(label) = self.all.get(number).copied() else {
                return None;
            };
            if let Some(known) = self.known.get_mut(label.terminal as usize)
                && time < known.earliest
            {
                known.earliest = time;
                return Some((cost, number, label));
            }
        }
        None
    }

    // Writes the path to a label.
    pub(crate) fn trace(&self, number: usize, path: &mut Vec<PathLeg>) -> Result<(), NoMemory> {
        path.clear();
        let mut here = number;
        for _ in 0..self.all.len() {
            let Some((before, leg)) = self.all.get(here).and_then(|label| label.came) else {
                break;
            };
            path.push(leg)?;
            here = before;
        }
        path.reverse();
        Ok(())
    }
}
