//! The names of an instance and the ends of its arcs, looked up by hashing.
ghost use Rattle.std.specs.Prelude.{◌≡◌, ◌≢◌, ◌<◌, ◌++◌, ◌∷◌, [], AllPairs, length, false, IfOk, IfSome, OnErr, OnOk};
ghost use Rattle.fp_model.specs.declared.limits.TheConstants.{MOST_ARCS, MOST_SHIPMENTS, MOST_TERMINALS};
ghost use Rattle.fp_model.specs.declared.parts.Shipment.{Shipment};
ghost use Rattle.fp_model.specs.Problem.{EndsDiffer};
ghost use Rattle.fp_records_fields.specs.Indexes.{arc_ends, ends_number, entries_of, has_ends, no_entries, shipment_names};
ghost use Rattle.fp_records_fields.specs.Names.{is_taken, number_of};

use crate::NoMemory;
use crate::numbering::Names;
use fp_model::{Arc, Instance, Name, Shipment};
use indexmap::IndexSet;
use std::alloc::Global;
use std::marker::Model;

/// The names of terminals, the names of shipments and the ordered ends of arcs, each numbered in
/// the order in which they came, and no more of them than an instance may have. Contracts see an
/// index as these three lists.
#[derive(Drop)]
pub struct Index<'a> {
    terminals: Names<'a>,
    shipments: Names<'a>,
    ends: IndexSet<(u32, u32)>,
}

impl<'a> Model for Index<'a> {
    ghost use Rattle.fp_records_fields.specs.Indexes.{AreWithinLimits, Entries, held_entries};

    ghost Value = { Entries };

    ghost view = { held_entries };

    ghost invariant = { λ i. AreWithinLimits (held_entries i) };
}

// The names of terminals.
fn terminal_names(alloc: Global, terminals: &[Name]) -> Result<Names<'_>, NoMemory>
    requires { AllPairs (λ m n. m ≢ n) terminals.now }
    ensures { IfOk result (λ names. names ≡ terminals.now) }
{
    let mut names = Names::new(alloc);
    for terminal in terminals {
        names.add(terminal.bytes())?;
    }
    Ok(names)
}

// The names of shipments.
fn shipment_names(alloc: Global, shipments: &[Shipment]) -> Result<Names<'_>, NoMemory>
    requires { AllPairs (λ (s t : Shipment). s.name ≢ t.name) shipments.now }
    ensures { IfOk result (λ names. names ≡ shipment_names shipments.now) }
{
    let mut names = Names::new(alloc);
    for shipment in shipments {
        names.add(shipment.name.bytes())?;
    }
    Ok(names)
}

// The ordered ends of arcs.
fn arc_ends(alloc: Global, arcs: &[Arc]) -> Result<IndexSet<(u32, u32)>, NoMemory>
    requires { AllPairs EndsDiffer arcs.now }
    ensures { IfOk result (λ ends. ends.keys ≡ arc_ends arcs.now) }
{
    let mut ends = IndexSet::new(alloc);
    for arc in arcs {
        ends.insert((arc.from, arc.to))?;
    }
    Ok(ends)
}

impl<'a> Index<'a> {
    /// An index without entries.
    pub fn new(alloc: Global) -> Index<'a>
        ensures { result ≡ no_entries }
    {
        Index {
            terminals: Names::new(alloc),
            shipments: Names::new(alloc),
            ends: IndexSet::new(alloc),
        }
    }

    /// The index of an instance. Fails only where no memory is found.
    pub fn of(alloc: Global, instance: &'a Instance) -> Result<Index<'a>, NoMemory>
        ensures { IfOk result (λ i. i ≡ entries_of instance.entry.now) }
    {
        Ok(Index {
            terminals: terminal_names(alloc, instance.terminals())?,
            shipments: shipment_names(alloc, instance.shipments())?,
            ends: arc_ends(alloc, instance.arcs())?,
        })
    }

    /// The number of the terminal with a name, if there is one.
    pub fn terminal(&self, name: &[u8]) -> Option<u32>
        ensures number { result ≡ number_of self.now.terminals name.now }
        ensures within { IfSome result (λ i. i < length self.now.terminals) }
    {
        let number = self.terminals.find(name)?;
        Some(number as u32)
    }

    /// The number of the shipment with a name, if there is one.
    pub fn shipment(&self, name: &[u8]) -> Option<u32>
        ensures number { result ≡ number_of self.now.shipments name.now }
        ensures within { IfSome result (λ i. i < length self.now.shipments) }
    {
        let number = self.shipments.find(name)?;
        Some(number as u32)
    }

    /// The number of the arc from one terminal to another, if there is one.
    pub fn arc(&self, from: u32, to: u32) -> Option<u32>
        ensures { result ≡ ends_number self.now.ends from to }
    {
        let number = self.ends.get_index_of(&(from, to))?;
        Some(number as u32)
    }

    /// Whether a terminal has the name.
    pub fn has_terminal(&self, name: &[u8]) -> bool
        ensures { result ≡ is_taken self.now.terminals name.now }
    {
        self.terminals.has(name)
    }

    /// Whether a shipment has the name.
    pub fn has_shipment(&self, name: &[u8]) -> bool
        ensures { result ≡ is_taken self.now.shipments name.now }
    {
        self.shipments.has(name)
    }

    /// Whether an arc goes from one terminal to another.
    pub fn has_arc(&self, from: u32, to: u32) -> bool
        ensures { result ≡ has_ends self.now.ends from to }
    {
        self.ends.contains(&(from, to))
    }

    /// Adds the name of one more terminal. After an `Err`, which comes only where no memory is
    /// found, the entries are as before.
    pub fn add_terminal(&mut self, name: &'a [u8]) -> Result<(), NoMemory>
        requires fresh { is_taken self.old.terminals name.now ≡ false }
        requires room { length self.old.terminals < MOST_TERMINALS }
        ensures ok { OnOk result (self.new ≡ record self.old { terminals = self.old.terminals ++ name.entry.now ∷ [] }) }
        ensures err { OnErr result (self.new ≡ self.old) }
    {
        self.terminals.add(name)
    }

    /// Adds the name of one more shipment. After an `Err`, which comes only where no memory is
    /// found, the entries are as before.
    pub fn add_shipment(&mut self, name: &'a [u8]) -> Result<(), NoMemory>
        requires fresh { is_taken self.old.shipments name.now ≡ false }
        requires room { length self.old.shipments < MOST_SHIPMENTS }
        ensures ok { OnOk result (self.new ≡ record self.old { shipments = self.old.shipments ++ name.entry.now ∷ [] }) }
        ensures err { OnErr result (self.new ≡ self.old) }
    {
        self.shipments.add(name)
    }

    /// Adds the ends of one more arc. After an `Err`, which comes only where no memory is found,
    /// the entries are as before.
    pub fn add_arc(&mut self, from: u32, to: u32) -> Result<(), NoMemory>
        requires fresh { has_ends self.old.ends from to ≡ false }
        requires room { length self.old.ends < MOST_ARCS }
        ensures ok { OnOk result (self.new ≡ record self.old { ends = self.old.ends ++ (from, to) ∷ [] }) }
        ensures err { OnErr result (self.new ≡ self.old) }
    {
        self.ends.insert((from, to))?;
        Ok(())
    }
}
