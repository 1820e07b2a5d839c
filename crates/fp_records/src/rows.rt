//! Rows of fields that lie one after the other, in three blocks of memory whatever their number.

ghost use Rattle.std.specs.Prelude.{◌≡◌, ◌<◌, ◌++◌, ◌∷◌, [], length, get_or, slice_get, Some, OnOk, OnErr};
ghost use Rattle.csv.specs.Records.{last_end, prev};
ghost use Rattle.fp_records.specs.Fields.{is_empty};

use crate::NoMemory;
use std::alloc::Global;
use std::marker::Model;

/// Rows of fields. Contracts see the rows that have ended, and the fields after them.
#[derive(Drop)]
pub(crate) struct Rows {
    text: Vec<u8>,
    field_ends: Vec<usize>,
    row_ends: Vec<usize>,
}

impl Model for Rows {
    ghost use Rattle.fp_records.specs.Rows.{AreWithin, Listing, listing_of};

    ghost Value = { Listing };

    ghost view = { listing_of };

    ghost invariant = { AreWithin };
}

// Where the part at a place starts.
fn start_of(ends: &[usize], at: usize) -> usize
    requires { at < length ends.now }
    ensures { result ≡ prev 0 ends.now at }
{
    if at == 0 { 0 } else { ends[at - 1] }
}

// Where the part at a place starts and ends.
fn bounds(ends: &[usize], at: usize) -> (usize, usize)
    requires { at < length ends.now }
    ensures start { result.0 ≡ prev 0 ends.now at }
    ensures end { result.1 ≡ get_or ends.now at 0 }
{
    (start_of(ends, at), ends[at])
}

// The last of the places, or 0 where there is none.
fn last_of(ends: &[usize]) -> usize
    ensures { result ≡ last_end 0 ends.now }
{
    if ends.is_empty() {
        0
    } else {
        ends[ends.len() - 1]
    }
}

impl Rows {
    /// No rows yet.
    pub(crate) fn new(alloc: Global) -> Rows
        ensures { result ≡ record { ended = []; begun = [] } }
    {
        Rows {
            text: Vec::new(alloc),
            field_ends: Vec::new(alloc),
            row_ends: Vec::new(alloc),
        }
    }

    /// Takes memory for so many more fields.
    ///
    /// # Errors
    /// `NoMemory` only where no memory is found.
    pub(crate) fn reserve(&mut self, fields: usize) -> Result<(), NoMemory>
        ensures { self.new ≡ self.old }
    {
        self.field_ends.reserve(fields)?;
        Ok(())
    }

    /// Adds a field to the row at hand.
    ///
    /// # Errors
    /// `NoMemory` only where no memory is found. The rows are as before then.
    pub(crate) fn push_field(&mut self, field: &[u8]) -> Result<(), NoMemory>
        ensures ok { OnOk result (self.new ≡ record { ended = self.old.ended; begun = self.old.begun ++ (field.now ∷ []) }) }
        ensures err { OnErr result (self.new ≡ self.old) }
    {
        let before = self.text.len();
        self.text.extend_from_slice(field)?;
        match self.field_ends.push(self.text.len()) {
            Ok(()) => Ok(()),
            Err(e) => {
                self.text.truncate(before);
                Err(e.into())
            }
        }
    }

    /// Ends the row at hand.
    ///
    /// # Errors
    /// `NoMemory` only where no memory is found. The rows are as before then.
    pub(crate) fn end_row(&mut self) -> Result<(), NoMemory>
        ensures ok { OnOk result (self.new ≡ record { ended = self.old.ended ++ (self.old.begun ∷ []); begun = [] }) }
        ensures err { OnErr result (self.new ≡ self.old) }
    {
        self.row_ends.push(self.field_ends.len())?;
        Ok(())
    }

    /// Whether the row at hand has no field.
    pub(crate) fn is_at_start(&self) -> bool
        ensures { result ≡ is_empty self.now.begun }
    {
        self.field_ends.len() - last_of(&self.row_ends) == 0
    }

    /// How many rows have ended.
    pub(crate) fn len(&self) -> usize
        ensures { result ≡ length self.now.ended }
    {
        self.row_ends.len()
    }

    /// How many fields the row at a place has.
    pub(crate) fn row_len(&self, at: usize) -> usize
        requires { at < length self.now.ended }
        ensures { result ≡ length (get_or self.now.ended at []) }
    {
        let (start, end) = bounds(&self.row_ends, at);
        end - start
    }

    /// The field at a place of the row at a place.
    pub(crate) fn field(&self, at: usize, place: usize) -> &[u8]
        requires row { at < length self.now.ended }
        requires field { place < length (get_or self.now.ended at []) }
        ensures { slice_get (get_or self.now.ended at []) place ≡ Some result.now }
    {
        let (first, _) = bounds(&self.row_ends, at);
        let (start, end) = bounds(&self.field_ends, first + place);
        &self.text[start..end]
    }
}
