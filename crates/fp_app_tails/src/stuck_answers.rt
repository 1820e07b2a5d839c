//! The answer that no plan goes on, and which shipment is the first that is stuck.
ghost use Rattle.std.specs.Prelude.{◌≡◌, ◌<◌, ◌+◌, ◌-◌, ◌^◌, drop, length, None, Some, MatchOption, IfOk};
ghost use Rattle.fp_records_fields.specs.Indexes.{entries_of};
ghost use Rattle.fp_app_tails.specs.StuckAnswers.{IsStuckAnswer, ended_as, stuck_from, tells_stuck as tells_stuck_of};
ghost use Rattle.fp_app_tails.specs.Verdicts.{begins_stuck};

use crate::NoMemory;
use fp_model::Instance;
use fp_records::Record;
use fp_records_fields::fields::{has_fields, has_word, is_of_kind};
use fp_records_fields::{Index, Lookup};
use std::alloc::Global;

/// What the records of such an answer give.
#[derive(Clone, Copy, Debug, PartialEq, Eq)]
pub enum StuckAnswer {
    /// The shipment that it names, by its number.
    Of { shipment: u32 },
    /// The first fault of its records.
    Fault { ordinal: u32, code: u32 },
}

/// A fault of a record.
#[derive(Clone, Copy)]
pub struct RecordFault {
    pub ordinal: u32,
    pub code: u32,
}

// Whether a record is an answer that no plan goes on: its second field is `stuck`.
fn tells_stuck(line: &Record) -> bool
    ensures { result ≡ tells_stuck_of line.now }
{
    is_of_kind(line, b"answer") && has_word(line, 1, b"stuck")
}

// The first fault of the records after the answer, of which the first has an ordinal: one of them is
// `end`, and none stands after it.
fn end_fault(lines: &[Record], ordinal: u32) -> Option<RecordFault>
    requires { ordinal + length lines.now < 2 ^ 32 }
    ensures { MatchOption result (ended_as ordinal lines.now ≡ None) (λ f. ended_as ordinal lines.now ≡ Some (record { ordinal = f.ordinal; code = f.code })) }
{
    if lines.is_empty() {
        return Some(RecordFault { ordinal, code: 26 });
    }
    let line = &lines[0];
    if !is_of_kind(line, b"end") {
        return Some(RecordFault { ordinal, code: 21 });
    }
    if !has_fields(line, 1) {
        return Some(RecordFault { ordinal, code: 22 });
    }
    if lines.len() > 1 {
        return Some(RecordFault {
            ordinal: ordinal + 1,
            code: 27,
        });
    }
    None
}

// What records from the answer on give, of which the first has an ordinal.
fn stuck_of(lookup: &Lookup<'_>, lines: &[Record], ordinal: u32) -> StuckAnswer
    requires some { 0 < length lines.now }
    requires few { ordinal + length lines.now < 2 ^ 32 }
    ensures { IsStuckAnswer (stuck_from lookup.now ordinal lines.now) result }
{
    let line = &lines[0];
    if !has_fields(line, 3) {
        return StuckAnswer::Fault { ordinal, code: 22 };
    }
    let Some(shipment) = lookup.shipment_at(line, 2) else {
        return StuckAnswer::Fault { ordinal, code: 25 };
    };
    match end_fault(&lines[1..], ordinal + 1) {
        Some(fault) => StuckAnswer::Fault {
            ordinal: fault.ordinal,
            code: fault.code,
        },
        None => StuckAnswer::Of { shipment },
    }
}

// What records from a place on give of an instance, of which this is the index.
fn stuck_at(instance: &Instance, index: &Index<'_>, lines: &[Record], place: usize) -> StuckAnswer
    requires index { index.now ≡ entries_of instance.now }
    requires place { place < length lines.now }
    requires few { length lines.now < 2 ^ 32 - 1 }
    ensures { IsStuckAnswer (stuck_from instance.now (place + 1) (drop place lines.now)) result }
{
    let lookup = Lookup::new(instance, index);
    stuck_of(&lookup, &lines[place..], place as u32 + 1)
}

/// The shipment that the answer at a place names of an instance, or the first fault of the records from
/// there on.
///
/// They are `answer,stuck,SHIPMENT` and `end`. The codes are those of a certificate: 22 the number of
/// fields, 25 no shipment has the name, 21 a record that isn't `end`, 26 none, 27 a record after it.
/// `NoMemory` only where no memory is found.
pub fn read_stuck(
    alloc: Global,
    instance: &Instance,
    lines: &[Record],
    place: usize,
) -> Result<StuckAnswer, NoMemory>
    requires place { place < length lines.now }
    requires few { length lines.now < 2 ^ 32 - 1 }
    ensures { IfOk result (IsStuckAnswer (stuck_from instance.now (place + 1) (drop place lines.now))) }
{
    let index = Index::of(alloc, instance)?;
    Ok(stuck_at(instance, &index, lines, place))
}

/// Whether the record at a place is an answer that no plan goes on.
pub fn is_stuck_at(lines: &[Record], place: usize) -> bool
    ensures { result ≡ begins_stuck (drop place lines.now) }
{
    place < lines.len() && tells_stuck(&lines[place])
}
