//! The parts of an instance and of a plan: arcs, shipments, legs, and what names a leg.
ghost use Rattle.std.specs.Prelude.{◌≡◌, IfOk};

use crate::NoMemory;
use crate::names::Name;
use std::alloc::Global;

/// A directed arc of the flat network, from the terminal `from` to the terminal `to`.
///
/// `time` is its travel time, 1 to 100,000. `capacity` is what one truck holds, in the unit of
/// sizes, 1 to 10^18. `truck` is the cost of one truck and `freight` the cost of one unit of size,
/// each 0 to 10^18.
#[derive(Clone, Copy)]
pub struct Arc {
    pub from: u32,
    pub to: u32,
    pub time: u32,
    pub capacity: u64,
    pub truck: u64,
    pub freight: u64,
}

/// What has to go, unsplit, from the terminal `from` to the terminal `to` (a commodity of Boland,
/// Hewitt, Marshall and Savelsbergh 2017, section 2).
///
/// `size` is 1 to 10^18. It can leave at `release` or later, and must have arrived by `due`, with
/// `release <= due <= 100,000`.
#[derive(Drop)]
pub struct Shipment {
    pub name: Name,
    pub from: u32,
    pub to: u32,
    pub size: u64,
    pub release: u32,
    pub due: u32,
}

impl Shipment {
    // An equal shipment.
    pub(crate) fn copy(&self, alloc: Global) -> Result<Shipment, NoMemory>
        ensures { IfOk result (λ s. s ≡ self.now) }
    {
        Ok(Shipment {
            name: self.name.copy(alloc)?,
            from: self.from,
            to: self.to,
            size: self.size,
            release: self.release,
            due: self.due,
        })
    }
}

/// An arc by its number, and the time at which it is left.
#[derive(Clone, Copy, PartialEq, Eq)]
pub struct Leg {
    pub arc: u32,
    pub depart: u32,
}

/// A leg, named by the number of its shipment and its place, from 0, in the shipment's route.
#[derive(Clone, Copy, PartialEq, Eq)]
pub struct Member {
    pub shipment: u32,
    pub leg: u32,
}
