//! The records of a text.

ghost use Rattle.std.specs.Prelude.{◌≡◌, ◌<◌, ◌≤◌, ◌++◌, ◌∷◌, [], length, not, slice_get, true, Some, IfOk, OnOk, vec_len};
ghost use Rattle.std.specs.List.{list_all};
ghost use Rattle.csv.specs.Reading.{stops_reader};
ghost use Rattle.csv.specs.Records.{fields_of};
ghost use Rattle.fp_records.specs.Fields.{is_empty, kept_records, records_of};

use crate::NoMemory;
use crate::rows::Rows;
use crate::stripping::{field_of, kept_len, strip};
use csv::{ByteRecord, ErrorKind, ReaderBuilder};
use std::alloc::{AllocError, Global};
use std::marker::Model;
use std::rc::Rc;

/// The fields of one record, of which there is at least one. A field is a list of bytes. The records
/// of a text share its fields.
#[derive(Drop)]
pub struct Record {
    rows: Rc<Rows>,
    at: usize,
}

impl Model for Record {
    ghost use Rattle.std.specs.Prelude.{ℕ, List, [], get_or, length, ◌<◌};

    ghost Value = { List (List ℕ) };

    ghost view = { λ r. get_or r.rows.value.ended r.at [] };

    ghost invariant = { λ r. (r.at < length r.rows.value.ended) × (0 < length (get_or r.rows.value.ended r.at [])) };
}

impl Record {
    /// How many fields there are. There is at least one.
    pub fn len(&self) -> usize
        ensures value { result ≡ length self.now }
        ensures some { 0 < result }
    {
        self.rows.row_len(self.at)
    }

    /// The field at the place `at`, where the first field's place is 0.
    pub fn field(&self, at: usize) -> &[u8]
        requires { at < length self.now }
        ensures { slice_get self.now at ≡ Some result.now }
    {
        self.rows.field(self.at, at)
    }
}

// Adds what is kept of a record, if a field is left.
fn add_kept(rows: &mut Rows, row: &ByteRecord) -> Result<(), NoMemory>
    requires { rows.old.begun ≡ [] }
    ensures ended { OnOk result (rows.new.ended ≡ rows.old.ended ++ kept_records (fields_of row.now ∷ [])) }
    ensures begun { OnOk result (rows.new.begun ≡ []) }
{
    let count = kept_len(row);
    if count > 0 {
        rows.reserve(count)?;
        'fields: for at in 0..count {
            rows.push_field(strip(field_of(row, at)))?;
        }
        rows.end_row()?;
    }
    Ok(())
}

// The error of a read that stopped its reader. A slice of bytes gives no error when it is read, and
// no clause of the CSV library says so: such an error goes the same way as want of memory. Lengths
// that differ, text that isn't UTF-8 and values that aren't records stop no reader.
fn no_memory(kind: ErrorKind) -> NoMemory
    requires { stops_reader kind ≡ true }
{
    match kind {
        ErrorKind::OutOfMemory | ErrorKind::Io(_) => AllocError,
        ErrorKind::UnequalLengths { .. }
        | ErrorKind::Utf8 { .. }
        | ErrorKind::Serialize(_)
        | ErrorKind::Deserialize { .. } => unreachable!(),
    }
}

// What is kept of the records of a text. The reader is told that it has a header row, which has no
// fields, so that it doesn't take the first record for one and keep it.
fn rows_of(alloc: Global, bytes: &[u8]) -> Result<Rows, NoMemory>
    ensures all { IfOk result (λ rows. rows.ended ≡ records_of bytes.now) }
    ensures few { IfOk result (λ rows. length rows.ended ≤ length bytes.now) }
{
    let mut reader = ReaderBuilder::new()
        .has_headers(true)
        .flexible(true)
        .from_reader(alloc, bytes);
    let Ok(()) = reader.set_byte_headers(ByteRecord::new(alloc)) else {
        return Err(AllocError);
    };
    let mut row = ByteRecord::new(alloc);
    let mut rows = Rows::new(alloc);
    loop {
        match reader.read_byte_record(&mut row) {
            Ok(true) => add_kept(&mut rows, &row)?,
            Ok(false) => return Ok(rows),
            Err(error) => return Err(no_memory(error.into_kind())),
        }
    }
}

// A record for each row.
fn share(alloc: Global, rows: Rows) -> Result<Vec<Record>, NoMemory>
    requires { list_all (λ row. not (is_empty row)) rows.ended ≡ true }
    ensures { IfOk result (λ records. records.items ≡ rows.ended) }
{
    let count = rows.len();
    let mut records = Vec::with_capacity(alloc, count)?;
    let Ok(rows) = Rc::new(alloc, rows) else {
        return Err(AllocError);
    };
    for at in 0..count {
        let rows = rows.clone()?;
        records.push(Record { rows, at })?;
    }
    Ok(records)
}

/// The records of a text, of which there are no more than bytes. A byte order mark at its start is
/// passed over. Each field is stripped of spaces and tabs at both ends. The empty fields at the end
/// of a record are dropped, and so is a record without a field left. A record's ordinal is its
/// place among those that are kept, from 1.
///
/// # Errors
/// `NoMemory` only where no memory is found.
pub fn records(alloc: Global, bytes: &[u8]) -> Result<Vec<Record>, NoMemory>
    ensures all { IfOk result (λ rows. rows.items ≡ records_of bytes.now) }
    ensures few { IfOk result (λ rows. vec_len rows ≤ length bytes.now) }
{
    let rows = rows_of(alloc, bytes)?;
    let records = share(alloc, rows)?;
    Ok(records)
}
