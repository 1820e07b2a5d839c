//! Records `shipment,NAME,FROM,TO,SIZE,RELEASE,DUE`.
ghost use Rattle.std.specs.Prelude.{◌≡◌, true, false, MatchOption, MatchResult};
ghost use Rattle.fp_reader.specs.Codes.{code_of};
ghost use Rattle.fp_records_fields.specs.Findings.{first_code};
ghost use Rattle.fp_reader.specs.Faults.{has_shipment_digits, has_shipment_names, has_shipment_ranges, shipment_faults};
ghost use Rattle.fp_records_fields.specs.Fields.{number_at};
ghost use Rattle.fp_records_fields.specs.NamedParts.{terminal_in};

use crate::drafts::Draft;
use crate::records::codes::RecordFault;
use crate::records::ends::ends_of;
use fp_model::limits::{GREATEST_AMOUNT, LATEST};
use fp_records::Record;
use fp_records_fields::digits::{long_between, short_between};
use fp_records_fields::fields::{field_at, has_fields, has_name, has_number};

/// A shipment without its name.
#[derive(Clone, Copy)]
pub struct Consignment {
    pub from: u32,
    pub to: u32,
    pub size: u64,
    pub release: u32,
    pub due: u32,
}

// The numbers of a shipment.
#[derive(Clone, Copy)]
struct ShipmentNumbers {
    size: u64,
    release: u32,
    due: u32,
}

// Whether the name and both ends may be names.
fn has_shipment_names(line: &Record) -> bool
    ensures { result ≡ has_shipment_names line.now }
{
    has_name(line, 1) && has_name(line, 2) && has_name(line, 3)
}

// Whether the number fields are numbers.
fn has_shipment_digits(line: &Record) -> bool
    ensures { result ≡ has_shipment_digits line.now }
{
    has_number(line, 4) && has_number(line, 5) && has_number(line, 6)
}

// The numbers; `None` exactly where one is outside its limits.
fn shipment_numbers(line: &Record) -> Option<ShipmentNumbers>
    requires { has_shipment_digits line.now ≡ true }
    ensures { MatchOption result (has_shipment_ranges line.now ≡ false)
        (λ n. (has_shipment_ranges line.now ≡ true)
        × (n ≡ record { size = number_at line.now 4; release = number_at line.now 5; due = number_at line.now 6 })) }
{
    let size = long_between(field_at(line, 4), 1, GREATEST_AMOUNT)?;
    let release = short_between(field_at(line, 5), 0, LATEST)?;
    let due = short_between(field_at(line, 6), 0, LATEST)?;
    Some(ShipmentNumbers { size, release, due })
}

/// The shipment of a shipment's record, but for its name, or the least of the record's faults.
pub fn read_shipment(draft: &Draft<'_>, line: &Record) -> Result<Consignment, RecordFault>
    ensures { MatchResult result
        (λ c. (first_code (shipment_faults draft.now line.now) ≡ None)
        × (c ≡ record {
          from = terminal_in draft.now line.now 2;
          to = terminal_in draft.now line.now 3;
          size = number_at line.now 4;
          release = number_at line.now 5;
          due = number_at line.now 6;
        }))
        (λ fault. first_code (shipment_faults draft.now line.now) ≡ Some (code_of fault)) }
{
    if !has_fields(line, 7) {
        return Err(RecordFault::Fields);
    }
    if !has_shipment_names(line) {
        return Err(RecordFault::Name);
    }
    if !has_shipment_digits(line) {
        return Err(RecordFault::Digits);
    }
    let Some(numbers) = shipment_numbers(line) else {
        return Err(RecordFault::Range);
    };
    if draft.has_shipment(field_at(line, 1)) {
        return Err(RecordFault::NameTaken);
    }
    let Some(ends) = ends_of(draft, line, 2, 3) else {
        return Err(RecordFault::NoTerminal);
    };
    if ends.from == ends.to {
        return Err(RecordFault::SameEnds);
    }
    if numbers.due < numbers.release {
        return Err(RecordFault::DueBeforeRelease);
    }
    if draft.is_full_of_shipments() {
        return Err(RecordFault::TooMany);
    }
    Ok(Consignment {
        from: ends.from,
        to: ends.to,
        size: numbers.size,
        release: numbers.release,
        due: numbers.due,
    })
}
