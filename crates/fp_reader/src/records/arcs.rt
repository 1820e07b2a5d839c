//! Records `arc,FROM,TO,TIME,CAPACITY,TRUCK,FREIGHT`.
ghost use Rattle.std.specs.Prelude.{◌≡◌, true, false, MatchOption, MatchResult};
ghost use Rattle.fp_reader.specs.Codes.{code_of};
ghost use Rattle.fp_records_fields.specs.Findings.{first_code};
ghost use Rattle.fp_reader.specs.Faults.{arc_faults, has_arc_digits, has_arc_names, has_arc_ranges};
ghost use Rattle.fp_records_fields.specs.Fields.{number_at};
ghost use Rattle.fp_reader.specs.Parts.{arc_in};

use crate::drafts::Draft;
use crate::records::codes::RecordFault;
use crate::records::ends::ends_of;
use fp_model::Arc;
use fp_model::limits::{GREATEST_AMOUNT, LATEST};
use fp_records::Record;
use fp_records_fields::digits::{long_between, short_between};
use fp_records_fields::fields::{field_at, has_fields, has_name, has_number};

// The numbers of an arc.
#[derive(Clone, Copy)]
struct ArcNumbers {
    time: u32,
    capacity: u64,
    truck: u64,
    freight: u64,
}

// Whether both ends may be names.
fn has_arc_names(line: &Record) -> bool
    ensures { result ≡ has_arc_names line.now }
{
    has_name(line, 1) && has_name(line, 2)
}

// Whether the number fields are numbers.
fn has_arc_digits(line: &Record) -> bool
    ensures { result ≡ has_arc_digits line.now }
{
    has_number(line, 3) && has_number(line, 4) && has_number(line, 5) && has_number(line, 6)
}

// The numbers; `None` exactly where one is outside its limits.
fn arc_numbers(line: &Record) -> Option<ArcNumbers>
    requires { has_arc_digits line.now ≡ true }
    ensures { MatchOption result (has_arc_ranges line.now ≡ false)
        (λ n. (has_arc_ranges line.now ≡ true)
        × (n ≡ record { time = number_at line.now 3; capacity = number_at line.now 4; truck = number_at line.now 5; freight = number_at line.now 6 })) }
{
    let time = short_between(field_at(line, 3), 1, LATEST)?;
    let capacity = long_between(field_at(line, 4), 1, GREATEST_AMOUNT)?;
    let truck = long_between(field_at(line, 5), 0, GREATEST_AMOUNT)?;
    let freight = long_between(field_at(line, 6), 0, GREATEST_AMOUNT)?;
    Some(ArcNumbers {
        time,
        capacity,
        truck,
        freight,
    })
}

/// The arc of an arc's record, or the least of the record's faults.
pub fn read_arc(draft: &Draft<'_>, line: &Record) -> Result<Arc, RecordFault>
    ensures { MatchResult result
        (λ arc. (first_code (arc_faults draft.now line.now) ≡ None) × (arc ≡ arc_in draft.now line.now))
        (λ fault. first_code (arc_faults draft.now line.now) ≡ Some (code_of fault)) }
{
    if !has_fields(line, 7) {
        return Err(RecordFault::Fields);
    }
    if !has_arc_names(line) {
        return Err(RecordFault::Name);
    }
    if !has_arc_digits(line) {
        return Err(RecordFault::Digits);
    }
    let Some(numbers) = arc_numbers(line) else {
        return Err(RecordFault::Range);
    };
    let Some(ends) = ends_of(draft, line, 1, 2) else {
        return Err(RecordFault::NoTerminal);
    };
    if ends.from == ends.to {
        return Err(RecordFault::SameEnds);
    }
    if draft.has_arc(ends.from, ends.to) {
        return Err(RecordFault::ArcTaken);
    }
    if draft.is_full_of_arcs() {
        return Err(RecordFault::TooMany);
    }
    Ok(Arc {
        from: ends.from,
        to: ends.to,
        time: numbers.time,
        capacity: numbers.capacity,
        truck: numbers.truck,
        freight: numbers.freight,
    })
}
