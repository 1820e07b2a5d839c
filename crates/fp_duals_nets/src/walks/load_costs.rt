//! What loads cost in trucks and freight, and how a shipment that goes again is guided by it.

use crate::classes::class_nodes::{ClassNodes, arc_of};
use crate::leaf_nets::LeafNets;
use crate::money::arc_money::ArcMoney;
use crate::nets::least_walks::FAR;
use crate::nets::shipment_nets::{EdgeUse, Net, Nets};
use fp_longestarcs::Stop;

/// All parts of a truck's cost.
pub const ALL_PARTS: u64 = 16;

/// The most that an edge costs: less than a node that isn't reached, so that no sum of both wraps.
const DEAREST: u64 = FAR - 1;

/// What decides the cost of loads: what edges stand for, and what their arcs cost.
#[derive(Clone, Copy)]
pub struct LoadCosts<'a> {
    pub nets: &'a Nets,
    pub classes: &'a [ClassNodes],
    pub arcs: &'a [ArcMoney],
}

// What the trucks cost that a size needs besides those of a load.
fn more_trucks(arc: ArcMoney, load: u64, size: u64) -> u64 {
    let trucks = arc.trucks(load.saturating_add(size));
    let more = trucks.saturating_sub(arc.trucks(load));
    arc.truck.saturating_mul(more)
}

impl<'a> LoadCosts<'a> {
    /// The costs over the nets of a leaf.
    pub fn of(model: &'a LeafNets) -> LoadCosts<'a> {
        LoadCosts {
            nets: &model.nets,
            classes: &model.classes,
            arcs: &model.arcs,
        }
    }

    /// The net of a shipment.
    pub fn net(&self, shipment: usize) -> Option<Net> {
        self.nets.list.get(shipment).copied()
    }

    /// The size of a shipment.
    pub fn size(&self, shipment: usize) -> u64 {
        match self.nets.list.get(shipment) {
            Some(net) => net.size,
            None => 0,
        }
    }

    /// The class of an edge, by the edge's number; `None` where it's for waiting.
    pub fn class(&self, number: usize) -> Option<ClassNodes> {
        let edge = self.nets.uses.get(number)?;
        self.classes.get(edge.class as usize).copied()
    }

    /// The number of the edge of a net that stands for a class.
    pub(crate) fn edge_at(&self, net: &Net, stop: Stop) -> Option<usize> {
        let mut number = net.first_edge;
        for _ in 0..self.nets.uses_of(net).len() {
            if let Some(class) = self.class(number)
                && class.stop == stop
            {
                return Some(number);
            }
            number = number.wrapping_add(1);
        }
        None
    }

    /// What an edge is to cost a size that looks for a walk at these loads: freight and, of the
    /// sixteen parts of what trucks cost, so many for each truck that is needed besides, and the
    /// rest by size alone.
    pub(crate) fn guide(&self, loads: &[u64], edge: &EdgeUse, size: u64, parts: u64) -> u64 {
        let Some(arc) = arc_of(edge.class, self.classes, self.arcs) else {
            return 0;
        };
        let load = loads.get(edge.class as usize).copied().unwrap_or(0);
        let whole = more_trucks(arc, load, size).saturating_mul(parts);
        let rest = ALL_PARTS.saturating_sub(parts);
        let linear = arc.linear(size).saturating_mul(rest);
        let trucks = whole.saturating_add(linear) / ALL_PARTS;
        trucks.saturating_add(edge.flow).min(DEAREST)
    }

    // What the edge with a number stands for, and what its arc costs; `None` where it's for waiting.
    fn use_of(&self, number: usize) -> Option<(EdgeUse, ArcMoney)> {
        let edge = *self.nets.uses.get(number)?;
        let arc = arc_of(edge.class, self.classes, self.arcs)?;
        Some((edge, arc))
    }

    /// Adds a size to the load of an edge's class. What it adds to the cost.
    pub(crate) fn load(&self, loads: &mut [u64], number: usize, size: u64) -> u64 {
        let Some((edge, arc)) = self.use_of(number) else {
            return 0;
        };
        let Some(load) = loads.get_mut(edge.class as usize) else {
            return 0;
        };
        let added = more_trucks(arc, *load, size);
        *load = load.saturating_add(size);
        added.saturating_add(edge.flow)
    }

    /// Takes a size from the load of an edge's class. What it saves.
    pub(crate) fn unload(&self, loads: &mut [u64], number: usize, size: u64) -> u64 {
        let Some((edge, arc)) = self.use_of(number) else {
            return 0;
        };
        let Some(load) = loads.get_mut(edge.class as usize) else {
            return 0;
        };
        *load = load.saturating_sub(size);
        more_trucks(arc, *load, size).saturating_add(edge.flow)
    }
}
