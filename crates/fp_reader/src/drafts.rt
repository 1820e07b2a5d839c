//! What the records so far have given.
ghost use Rattle.std.specs.Prelude.{◌≡◌, ◌≤◌, ◌<◌, ◌^◌, ◌↔◌, length, false, nat_le, IfOk, IfSome, IsNone};
ghost use Rattle.fp_model.specs.declared.limits.TheConstants.{GREATEST_HOLD, MOST_ARCS, MOST_SHIPMENTS, MOST_TERMINALS};
ghost use Rattle.fp_model.specs.Names.{IsName};
ghost use Rattle.fp_model.specs.Problem.{IsArc, IsShipment, weight};
ghost use Rattle.fp_reader.specs.Faults.{has_arc};
ghost use Rattle.fp_records_fields.specs.Indexes.{entries_of, shipment_names};
ghost use Rattle.fp_records_fields.specs.Names.{is_taken, number_of};
ghost use Rattle.fp_reader.specs.Parts.{nothing_read, with_arc, with_shipment, with_terminal};

use crate::NoMemory;
use fp_model::limits::{MOST_ARCS, MOST_SHIPMENTS, MOST_TERMINALS};
use fp_model::{Arc, Instance, Name, Shipment, weight};
use fp_records_fields::Index;
use std::alloc::Global;
use std::marker::Model;

/// The parts that the records so far have given, with the index of their names and ends. The parts
/// are sound: all that an instance has to be, but for its weight. Contracts see a draft as its
/// parts.
#[derive(Drop)]
pub struct Draft<'a> {
    terminals: Vec<Name>,
    holds: Vec<u32>,
    arcs: Vec<Arc>,
    shipments: Vec<Shipment>,
    index: Index<'a>,
}

impl<'a> Model for Draft<'a> {
    ghost use Rattle.fp_model.specs.Problem.{Problem};
    ghost use Rattle.fp_reader.specs.Drafts.{IsIndexed, parts_of};

    ghost Value = { Problem };

    ghost view = { parts_of };

    ghost invariant = { λ d. IsIndexed (parts_of d) d.index };
}

impl<'a> Draft<'a> {
    /// Nothing read yet.
    pub fn new(alloc: Global) -> Draft<'a>
        ensures { result ≡ nothing_read }
    {
        Draft {
            terminals: Vec::new(alloc),
            holds: Vec::new(alloc),
            arcs: Vec::new(alloc),
            shipments: Vec::new(alloc),
            index: Index::new(alloc),
        }
    }

    /// The number of the terminal with a name, if there is one.
    pub fn terminal(&self, name: &[u8]) -> Option<u32>
        ensures number { result ≡ number_of self.now.terminals name.now }
        ensures within { IfSome result (λ i. i < length self.now.terminals) }
    {
        self.index.terminal(name)
    }

    /// Whether a terminal has the name.
    pub fn has_terminal(&self, name: &[u8]) -> bool
        ensures { result ≡ is_taken self.now.terminals name.now }
    {
        self.index.has_terminal(name)
    }

    /// Whether a shipment has the name.
    pub fn has_shipment(&self, name: &[u8]) -> bool
        ensures { result ≡ is_taken (shipment_names self.now.shipments) name.now }
    {
        self.index.has_shipment(name)
    }

    /// Whether an arc goes from the one terminal to the other.
    pub fn has_arc(&self, from: u32, to: u32) -> bool
        ensures { result ≡ has_arc self.now from to }
    {
        self.index.has_arc(from, to)
    }

    /// Whether there are as many terminals as there may be.
    pub fn is_full_of_terminals(&self) -> bool
        ensures { result ≡ nat_le MOST_TERMINALS (length self.now.terminals) }
    {
        self.terminals.len() >= MOST_TERMINALS
    }

    /// Whether there are as many arcs as there may be.
    pub fn is_full_of_arcs(&self) -> bool
        ensures { result ≡ nat_le MOST_ARCS (length self.now.arcs) }
    {
        self.arcs.len() >= MOST_ARCS
    }

    /// Whether there are as many shipments as there may be.
    pub fn is_full_of_shipments(&self) -> bool
        ensures { result ≡ nat_le MOST_SHIPMENTS (length self.now.shipments) }
    {
        self.shipments.len() >= MOST_SHIPMENTS
    }

    /// The draft with one more terminal, and its hold. Fails only where no memory is found.
    pub fn with_terminal(
        self,
        alloc: Global,
        name: &'a [u8],
        hold: u32,
    ) -> Result<Draft<'a>, NoMemory>
        requires name { IsName name.now }
        requires fresh { is_taken self.terminals name.now ≡ false }
        requires room { length self.terminals < MOST_TERMINALS }
        requires hold { hold ≤ GREATEST_HOLD }
        ensures { IfOk result (λ d. d ≡ with_terminal self.entry name.entry.now hold) }
    {
        let mut index = self.index;
        index.add_terminal(name)?;
        let mut terminals = self.terminals;
        terminals.push(Name::new(alloc, name)?)?;
        let mut holds = self.holds;
        holds.push(hold)?;
        Ok(Draft {
            terminals,
            holds,
            index,
            ..self
        })
    }

    /// The draft with one more arc. Fails only where no memory is found.
    pub fn with_arc(self, arc: Arc) -> Result<Draft<'a>, NoMemory>
        requires arc { IsArc (length self.terminals) arc }
        requires fresh { has_arc self arc.from arc.to ≡ false }
        requires room { length self.arcs < MOST_ARCS }
        ensures { IfOk result (λ d. d ≡ with_arc self.entry arc) }
    {
        let mut index = self.index;
        index.add_arc(arc.from, arc.to)?;
        let mut arcs = self.arcs;
        arcs.push(arc)?;
        Ok(Draft {
            arcs,
            index,
            ..self
        })
    }

    /// The draft with one more shipment, whose name is this one. Fails only where no memory is
    /// found.
    pub fn with_shipment(self, name: &'a [u8], shipment: Shipment) -> Result<Draft<'a>, NoMemory>
        requires name { shipment.name ≡ name.now }
        requires shipment { IsShipment (length self.terminals) shipment }
        requires fresh { is_taken (shipment_names self.shipments) name.now ≡ false }
        requires room { length self.shipments < MOST_SHIPMENTS }
        ensures { IfOk result (λ d. d ≡ with_shipment self.entry shipment) }
    {
        let mut index = self.index;
        index.add_shipment(name)?;
        let mut shipments = self.shipments;
        shipments.push(shipment)?;
        Ok(Draft {
            shipments,
            index,
            ..self
        })
    }

    /// The instance of the parts with its index; `None` exactly where their weight is above the
    /// limit.
    pub fn into_instance(self) -> Option<(Instance, Index<'a>)>
        ensures some { IfSome result (λ r. (r.0 ≡ self.entry) × (r.1 ≡ entries_of self.entry)) }
        ensures none { IsNone result ↔ (2 ^ 127 ≤ weight self.entry.arcs self.entry.shipments) }
    {
        weight(&self.arcs, &self.shipments)?;
        let instance = Instance::new(self.terminals, self.holds, self.arcs, self.shipments);
        Some((instance, self.index))
    }
}
