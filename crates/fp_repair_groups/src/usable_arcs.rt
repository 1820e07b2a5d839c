//! The arcs that each shipment can use, with their windows and what it would pay for them.

ghost use Rattle.fp_flatnet.specs.Belonging.{BelongsTo};

use crate::NoMemory;
use fp_flatnet::Windows;
use fp_model::{Arc, Instance};
use std::alloc::Global;

/// So many parts has a unit of money where costs are counted in parts.
pub const PARTS: u32 = 16;

/// An arc that a shipment can use, at the times from `lo` to `hi`, in the input's unit of time.
#[derive(Clone, Copy)]
pub struct UsableArc {
    /// The number of the arc.
    pub number: u32,
    /// The terminal that it leads to.
    pub to: u32,
    /// The first time of the window.
    pub lo: u32,
    /// The last time of the window.
    pub hi: u32,
    /// So long after it left by the arc the shipment can leave the next terminal.
    pub step: u32,
    /// What the shipment's flow costs, in [`PARTS`] of the unit of money.
    pub freight: u128,
    /// What trucks for the shipment alone cost, in the unit of money.
    pub alone: u128,
    /// What its share of full trucks costs, by its size, in the unit of money, rounded down.
    pub share: u128,
}

/// The arcs that one shipment can use, by their tails.
#[derive(Drop)]
pub struct UsableArcs {
    // Where the arcs of each tail begin in `arcs`, and at last where those of the last one end.
    starts: Vec<usize>,
    /// The arcs in the order of their tails.
    pub arcs: Vec<UsableArc>,
}

impl UsableArcs {
    /// Where the arcs that leave a terminal begin in `arcs` and end; nowhere for a terminal that
    /// isn't there.
    pub fn leaving(&self, terminal: u32) -> (usize, usize) {
        let at = terminal as usize;
        match (self.starts.get(at), self.starts.get(at + 1)) {
            (Some(first), Some(end)) => (*first, *end),
            _ => (0, 0),
        }
    }

    // The usable arc with the number of an arc.
    pub(crate) fn with_number(&self, number: u32) -> Option<UsableArc> {
        for arc in &self.arcs {
            if arc.number == number {
                return Some(*arc);
            }
        }
        None
    }
}

// How many trucks hold a load.
pub(crate) fn trucks_for(load: u64, capacity: u64) -> u64 {
    if capacity == 0 {
        return 0;
    }
    load.div_ceil(capacity)
}

// An arc as a shipment of a size can use it within its window.
fn usable(arc: &Arc, number: u32, step: u32, size: u64, window: (u32, u32)) -> UsableArc {
    let truck = u128::from(arc.truck);
    let full = truck.saturating_mul(u128::from(size));
    let freight = u128::from(arc.freight).saturating_mul(u128::from(size));
    UsableArc {
        number,
        to: arc.to,
        lo: window.0,
        hi: window.1,
        step,
        freight: freight.saturating_mul(u128::from(PARTS)),
        alone: truck.saturating_mul(u128::from(trucks_for(size, arc.capacity))),
        share: full.checked_div(u128::from(arc.capacity)).unwrap_or(full),
    }
}

// Adds those of some arcs that a shipment can use.
fn push_usable(
    list: &mut Vec<UsableArc>,
    instance: &Instance,
    windows: &Windows,
    shipment: u32,
    numbers: &[u32],
) -> Result<(), NoMemory>
    requires { BelongsTo instance.now windows.now }
{
    let Some(carried) = instance.shipments().get(shipment as usize) else {
        return Ok(());
    };
    for number in numbers {
        if let Some(arc) = instance.arcs().get(*number as usize)
            && let Some(window) = windows.window(shipment, *number)
        {
            let step = instance.step(*number);
            list.push(usable(arc, *number, step, carried.size, window))?;
        }
    }
    Ok(())
}

// The arcs that a shipment can use, where the arcs that leave each terminal are known.
fn usable_arcs(
    alloc: Global,
    instance: &Instance,
    windows: &Windows,
    shipment: u32,
    leaving: &[Vec<u32>],
) -> Result<UsableArcs, NoMemory>
    requires { BelongsTo instance.now windows.now }
{
    let mut starts = Vec::with_capacity(alloc, leaving.len() + 1)?;
    let mut arcs = Vec::new(alloc);
    for numbers in leaving {
        starts.push(arcs.len())?;
        push_usable(&mut arcs, instance, windows, shipment, numbers)?;
    }
    starts.push(arcs.len())?;
    Ok(UsableArcs { starts, arcs })
}

// For each terminal the numbers of the arcs that leave it.
fn leaving(alloc: Global, instance: &Instance) -> Result<Vec<Vec<u32>>, NoMemory> {
    let mut lists = Vec::with_capacity(alloc, instance.terminals().len())?;
    for _terminal in instance.terminals() {
        lists.push(Vec::new(alloc))?;
    }
    for (number, arc) in instance.arcs().iter().enumerate() {
        if let Some(list) = lists.get_mut(arc.from as usize) {
            list.push(number as u32)?;
        }
    }
    Ok(lists)
}

/// For each shipment the arcs that it can use: those with a window. `NoMemory` only where no memory
/// is found.
pub fn all_usable_arcs(
    alloc: Global,
    instance: &Instance,
    windows: &Windows,
) -> Result<Vec<UsableArcs>, NoMemory>
    requires { BelongsTo instance.now windows.now }
{
    let leaving = leaving(alloc, instance)?;
    let count = instance.shipments().len();
    let mut all = Vec::with_capacity(alloc, count)?;
    for shipment in 0..count as u32 {
        all.push(usable_arcs(alloc, instance, windows, shipment, &leaving)?)?;
    }
    Ok(all)
}
