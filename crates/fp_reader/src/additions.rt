//! A draft with one more record.
ghost use Rattle.std.specs.Prelude.{◌≡◌, MatchResult};
ghost use Rattle.fp_records_fields.specs.Fields.{field};
ghost use Rattle.fp_records_fields.specs.Findings.{IsFirstFault, first_code};
ghost use Rattle.fp_reader.specs.Codes.{code_of};
ghost use Rattle.fp_reader.specs.Faults.{arc_faults, record_code, shipment_faults, terminal_faults};
ghost use Rattle.fp_reader.specs.Parts.{arc_in, hold_in, shipment_in, with_arc, with_record, with_shipment, with_terminal};

use crate::drafts::Draft;
use crate::records::arcs::read_arc;
use crate::records::codes::RecordFault;
use crate::records::shipments::read_shipment;
use crate::records::terminals::read_terminal;
use fp_model::{Name, Shipment};
use fp_records::Record;
use fp_records_fields::RecordError;
use fp_records_fields::fields::{field_at, is_of_kind};
use std::alloc::Global;

impl From<RecordFault> for RecordError<RecordFault> {
    ghost use Rattle.std.specs.Prelude.{◌≡◌};
    ghost use Rattle.fp_records_fields.specs.declared.errors.RecordError.TheVariants as error;

    ghost from_gives = { λ fault e. e ≡ error.Fault fault };

    fn from(fault: RecordFault) -> RecordError<RecordFault> {
        RecordError::Fault(fault)
    }
}

// With one more terminal's record.
fn add_terminal<'a>(
    alloc: Global,
    draft: Draft<'a>,
    line: &'a Record,
) -> Result<Draft<'a>, RecordError<RecordFault>>
    ensures { MatchResult result
        (λ d. (first_code (terminal_faults draft.entry line.now) ≡ None)
        × (d ≡ with_terminal draft.entry (field line.now 1) (hold_in line.now)))
        (λ e. IsFirstFault code_of e (first_code (terminal_faults draft.entry line.now))) }
{
    let hold = read_terminal(&draft, line)?;
    let more = draft.with_terminal(alloc, field_at(line, 1), hold)?;
    Ok(more)
}

// With one more arc's record.
fn add_arc<'a>(draft: Draft<'a>, line: &'a Record) -> Result<Draft<'a>, RecordError<RecordFault>>
    ensures { MatchResult result
        (λ d. (first_code (arc_faults draft.entry line.now) ≡ None) × (d ≡ with_arc draft.entry (arc_in draft.entry line.now)))
        (λ e. IsFirstFault code_of e (first_code (arc_faults draft.entry line.now))) }
{
    let arc = read_arc(&draft, line)?;
    let more = draft.with_arc(arc)?;
    Ok(more)
}

// With one more shipment's record.
fn add_shipment<'a>(
    alloc: Global,
    draft: Draft<'a>,
    line: &'a Record,
) -> Result<Draft<'a>, RecordError<RecordFault>>
    ensures { MatchResult result
        (λ d. (first_code (shipment_faults draft.entry line.now) ≡ None)
        × (d ≡ with_shipment draft.entry (shipment_in draft.entry line.now)))
        (λ e. IsFirstFault code_of e (first_code (shipment_faults draft.entry line.now))) }
{
    let consignment = read_shipment(&draft, line)?;
    let shipment = Shipment {
        name: Name::new(alloc, field_at(line, 1))?,
        from: consignment.from,
        to: consignment.to,
        size: consignment.size,
        release: consignment.release,
        due: consignment.due,
    };
    let more = draft.with_shipment(field_at(line, 1), shipment)?;
    Ok(more)
}

/// The draft with what one more record gives, or the least of the record's faults. It takes the
/// draft, so after an `Err` there is none.
pub fn add_record<'a>(
    alloc: Global,
    draft: Draft<'a>,
    line: &'a Record,
) -> Result<Draft<'a>, RecordError<RecordFault>>
    ensures { MatchResult result
        (λ d. (record_code draft.entry line.now ≡ None) × (d ≡ with_record draft.entry line.now))
        (λ e. IsFirstFault code_of e (record_code draft.entry line.now)) }
{
    if is_of_kind(line, b"terminal") {
        add_terminal(alloc, draft, line)
    } else if is_of_kind(line, b"arc") {
        add_arc(draft, line)
    } else if is_of_kind(line, b"shipment") {
        add_shipment(alloc, draft, line)
    } else {
        Err(RecordError::Fault(RecordFault::Kind))
    }
}
