//! Instances: what a planner is given.
ghost use Rattle.std.specs.Prelude.{ℕ, ◌≡◌, ◌<◌, ◌≤◌, ◌^◌, ◌↔◌, All, IfOk, IsTrue, length};
ghost use Rattle.fp_model.specs.Numbered.{shipment_at};
ghost use Rattle.fp_model.specs.Routes.{step};
ghost use Rattle.fp_model.specs.Problem.{IsArcWithin, IsShipmentWithin, IsValid, arc_at, hold_at, horizon as horizon_of, weight_at};

use crate::NoMemory;
use crate::limits::{GREATEST_SCALE, LONGEST_STEP, MOST_TIMED_NODES, SCALE};
use crate::names::Name;
use crate::parts::{Arc, Shipment};
use crate::weights::total_alone;
use std::alloc::Global;
use std::marker::Model;

/// What a planner is given: terminals with their holds, arcs, shipments, and the scale of prices.
///
/// An instance is valid: the limits hold, there is one hold per terminal, names of terminals
/// differ, names of shipments differ, the ends of each arc and of each shipment differ, no two arcs
/// have the same ordered ends, no shipment is released after it is due, and the weight and the
/// scale are within their limits. Contracts see an instance as the record of its parts, and each
/// call that reads one says that it is valid.
#[derive(Drop)]
pub struct Instance {
    terminals: Vec<Name>,
    holds: Vec<u32>,
    arcs: Vec<Arc>,
    shipments: Vec<Shipment>,
    scale: u32,
}

impl Model for Instance {
    ghost use Rattle.fp_model.specs.Problem.{Problem, IsValid};

    ghost Value = { Problem };

    ghost view = { λ i. record {
      terminals = i.terminals.items;
      holds = i.holds.items;
      arcs = i.arcs.items;
      shipments = i.shipments.items;
      scale = i.scale;
    } };

    ghost invariant = { λ i. IsValid (record {
      terminals = i.terminals.items;
      holds = i.holds.items;
      arcs = i.arcs.items;
      shipments = i.shipments.items;
      scale = i.scale;
    }) };
}

impl Instance {
    /// The instance with these parts, at the scale of 1,000,000. `holds` has one hold, 0 to 1,000,
    /// for each terminal.
    pub fn new(
        terminals: Vec<Name>,
        holds: Vec<u32>,
        arcs: Vec<Arc>,
        shipments: Vec<Shipment>,
    ) -> Instance
        requires { IsValid (record {
          terminals = terminals.items;
          holds = holds.items;
          arcs = arcs.items;
          shipments = shipments.items;
          scale = SCALE;
        }) }
        ensures { result ≡ record {
          terminals = terminals.items;
          holds = holds.items;
          arcs = arcs.items;
          shipments = shipments.items;
          scale = SCALE;
        } }
    {
        Instance {
            terminals,
            holds,
            arcs,
            shipments,
            scale: SCALE as u32,
        }
    }

    /// The same instance at another scale, 1 to 1,000,000,000, that fits it (`fits`). Takes no
    /// memory.
    pub fn with_scale(self, scale: u32) -> Instance
        requires range { (1 ≤ scale) × (scale ≤ GREATEST_SCALE) }
        requires fits { weight_at scale self.arcs self.shipments < 2 ^ 127 }
        ensures { result ≡ record self { scale = scale } }
    {
        Instance { scale, ..self }
    }

    /// Whether a scale fits: whether the weight at it is below `2^127`. Any number may be asked
    /// for. Takes no memory.
    pub fn fits(&self, scale: u32) -> bool
        ensures fits { IsTrue result ↔ (weight_at scale self.now.arcs self.now.shipments < 2 ^ 127) }
        ensures valid { IsValid self.now }
    {
        scale_fits(scale, self.arcs(), self.shipments())
    }

    /// The scale of prices, 1 to 1,000,000,000.
    pub fn scale(&self) -> u32
        ensures same { result ≡ self.now.scale }
        ensures valid { IsValid self.now }
    {
        self.scale
    }

    /// The names of the terminals.
    pub fn terminals(&self) -> &[Name]
        ensures same { result.now ≡ self.now.terminals }
        ensures valid { IsValid self.now }
    {
        &self.terminals
    }

    /// The holds of the terminals, in the input's unit of time.
    pub fn holds(&self) -> &[u32]
        ensures same { result.now ≡ self.now.holds }
        ensures valid { IsValid self.now }
    {
        &self.holds
    }

    /// How long a shipment is held at a terminal that it passes through, 0 to 1,000.
    pub fn hold(&self, terminal: u32) -> u32
        requires { terminal < length self.now.terminals }
        ensures same { result ≡ hold_at self.now terminal }
        ensures valid { IsValid self.now }
    {
        self.holds()[terminal as usize]
    }

    /// The arcs.
    pub fn arcs(&self) -> &[Arc]
        ensures same { result.now ≡ self.now.arcs }
        ensures valid { IsValid self.now }
    {
        &self.arcs
    }

    /// The arc with a number.
    pub fn arc(&self, number: u32) -> Arc
        requires { number < length self.now.arcs }
        ensures same { result ≡ arc_at self.now number }
        ensures valid { IsValid self.now }
    {
        self.arcs()[number as usize]
    }

    /// The step of the arc with a number: its travel time and the hold of its head. So long after
    /// it left by the arc a shipment can leave the next terminal.
    pub fn step(&self, arc: u32) -> u32
        requires { arc < length self.now.arcs }
        ensures same { result ≡ step self.now arc }
        ensures short { result ≤ LONGEST_STEP }
        ensures valid { IsValid self.now }
    {
        let taken = self.arc(arc);
        taken.time + self.hold(taken.to)
    }

    /// The shipments.
    pub fn shipments(&self) -> &[Shipment]
        ensures same { result.now ≡ self.now.shipments }
        ensures valid { IsValid self.now }
    {
        &self.shipments
    }

    /// The shipment with a number.
    pub fn shipment(&self, number: u32) -> &Shipment
        requires { number < length self.now.shipments }
        ensures same { result.now ≡ shipment_at self.now number }
        ensures valid { IsValid self.now }
    {
        &self.shipments()[number as usize]
    }

    /// The greatest due time, 0 without shipments.
    pub fn horizon(&self) -> u32
        ensures same { result ≡ horizon_of self.now.shipments }
        ensures valid { IsValid self.now }
    {
        greatest_due(self.shipments())
    }

    /// An equal instance, with its scale. `NoMemory` only where no memory is found.
    pub fn copy(&self, alloc: Global) -> Result<Instance, NoMemory>
        ensures { IfOk result (λ i. i ≡ self.now) }
    {
        let mut terminals = Vec::new(alloc);
        for name in &self.terminals {
            terminals.push(name.copy(alloc)?)?;
        }
        let mut shipments = Vec::new(alloc);
        for shipment in &self.shipments {
            shipments.push(shipment.copy(alloc)?)?;
        }
        Ok(Instance {
            terminals,
            holds: self.holds.as_slice().to_vec(alloc)?,
            arcs: self.arcs.as_slice().to_vec(alloc)?,
            shipments,
            scale: self.scale,
        })
    }
}

// Whether the weight at a scale is below 2^127.
fn scale_fits(scale: u32, arcs: &[Arc], shipments: &[Shipment]) -> bool
    requires arcs { All IsArcWithin arcs.now }
    requires shipments { All IsShipmentWithin shipments.now }
    requires weight { weight_at SCALE arcs.now shipments.now < 2 ^ 127 }
    ensures { IsTrue result ↔ (weight_at scale arcs.now shipments.now < 2 ^ 127) }
{
    let price = u128::from(scale) * u128::from(MOST_TIMED_NODES);
    match total_alone(arcs, shipments) {
        Some(total) => match price.checked_mul(total) {
            Some(weight) => weight < 1 << 127,
            None => false,
        },
        None => false,
    }
}

// The greatest due time, 0 without shipments.
fn greatest_due(shipments: &[Shipment]) -> u32
    ensures { result ≡ horizon_of shipments.now }
{
    let mut most = 0;
    for shipment in shipments {
        if shipment.due > most {
            most = shipment.due;
        }
    }
    most
}
