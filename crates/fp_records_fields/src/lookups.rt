//! The shipments, terminals and arcs of an instance, looked up by the names in a record.
ghost use Rattle.std.specs.Prelude.{◌≡◌, ◌^◌, false, true, nat_lt, MatchOption};
ghost use Rattle.fp_model.specs.Problem.{weight_at};
ghost use Rattle.fp_records_fields.specs.Indexes.{entries_of};
ghost use Rattle.fp_records_fields.specs.NamedParts.{arc_in, arc_named, lacks_arc, lacks_shipment, lacks_terminal, shipment_in, shipment_named, terminal_in, terminal_named};

use crate::fields::field_at;
use crate::indexes::Index;
use fp_model::Instance;
use fp_records::Record;
use std::marker::Model;

/// An instance with its index. Contracts see it as the instance.
#[derive(Drop)]
pub struct Lookup<'a> {
    instance: &'a Instance,
    index: &'a Index<'a>,
}

impl<'a> Model for Lookup<'a> {
    ghost use Rattle.std.specs.Prelude.{◌≡◌};
    ghost use Rattle.fp_model.specs.Problem.{Problem};
    ghost use Rattle.fp_records_fields.specs.Indexes.{entries_of};

    ghost Value = { Problem };

    ghost view = { λ l. l.instance.now };

    ghost invariant = { λ l. l.index.now ≡ entries_of l.instance.now };
}

impl<'a> Lookup<'a> {
    /// An instance with its index.
    pub fn new(instance: &'a Instance, index: &'a Index<'a>) -> Lookup<'a>
        requires { index.now ≡ entries_of instance.now }
        ensures { result ≡ instance.entry.now }
    {
        Lookup { instance, index }
    }

    /// The number of the terminal with a name, if there is one.
    pub fn terminal(&self, name: &[u8]) -> Option<u32>
        ensures { result ≡ terminal_named self.now name.now }
    {
        self.index.terminal(name)
    }

    /// The number of the shipment with a name, if there is one.
    pub fn shipment(&self, name: &[u8]) -> Option<u32>
        ensures { result ≡ shipment_named self.now name.now }
    {
        self.index.shipment(name)
    }

    /// The number of the arc from the terminal with one name to that with another, if there is one.
    pub fn arc(&self, from: &[u8], to: &[u8]) -> Option<u32>
        ensures { result ≡ arc_named self.now from.now to.now }
    {
        let from = self.index.terminal(from)?;
        let to = self.index.terminal(to)?;
        self.index.arc(from, to)
    }

    /// The terminal that the field at a place names, if it names one.
    pub fn terminal_at(&self, line: &Record, place: usize) -> Option<u32>
        ensures { MatchOption result (lacks_terminal self.now line.now place ≡ true)
            (λ n. (lacks_terminal self.now line.now place ≡ false) × (n ≡ terminal_in self.now line.now place)) }
    {
        self.terminal(field_at(line, place))
    }

    /// The shipment that the field at a place names, if it names one.
    pub fn shipment_at(&self, line: &Record, place: usize) -> Option<u32>
        ensures { MatchOption result (lacks_shipment self.now line.now place ≡ true)
            (λ n. (lacks_shipment self.now line.now place ≡ false) × (n ≡ shipment_in self.now line.now place)) }
    {
        self.shipment(field_at(line, place))
    }

    /// The arc whose ends the fields at two places name, if there is one.
    pub fn arc_at(&self, line: &Record, from: usize, to: usize) -> Option<u32>
        ensures { MatchOption result (lacks_arc self.now line.now from to ≡ true)
            (λ n. (lacks_arc self.now line.now from to ≡ false) × (n ≡ arc_in self.now line.now from to)) }
    {
        self.arc(field_at(line, from), field_at(line, to))
    }

    /// Whether a scale of prices fits the instance: whether the weight at it is below `2^127`.
    pub fn fits(&self, scale: u32) -> bool
        ensures { result ≡ nat_lt (weight_at scale self.now.arcs self.now.shipments) (2 ^ 127) }
    {
        self.instance.fits(scale)
    }
}
