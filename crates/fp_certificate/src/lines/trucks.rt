//! Lines `truck,FROM,TO,DEPART,TRUCKS,LOAD`.
ghost use Rattle.std.specs.Prelude.{◌≡◌, Some, None, MatchResult};
ghost use Rattle.fp_records_fields.specs.Findings.{IsFirstFault, first_code};
ghost use Rattle.fp_certificate.specs.Codes.{code_of};
ghost use Rattle.fp_certificate.specs.Timetables.{truck_faults, truck_in, with_truck};

use crate::drafts::Draft;
use crate::lines::faults::LineFault;
use crate::lines::fields::{departure_at, figure_at, have_numbers};
use crate::lines::sections::Section;
use fp_records::Record;
use fp_records_fields::fields::{has_fields, has_number};
use fp_records_fields::{Lookup, RecordError};
use fp_timetable::TruckLine;

// The departure of a line, or the first of the line's faults.
fn truck_of(lookup: &Lookup<'_>, draft: &Draft, line: &Record) -> Result<TruckLine, LineFault>
    ensures { MatchResult result
        (λ truck. (first_code (truck_faults lookup.now draft.now line.now) ≡ None) × (truck ≡ truck_in lookup.now line.now))
        (λ fault. first_code (truck_faults lookup.now draft.now line.now) ≡ Some (code_of fault)) }
{
    if !has_fields(line, 6) {
        return Err(LineFault::Fields);
    }
    if !have_numbers(line, 3, 4) || !has_number(line, 5) {
        return Err(LineFault::Digits);
    }
    if draft.is_misplaced(Section::Trucks) {
        return Err(LineFault::Order);
    }
    let (arc, depart) = departure_at(lookup, line)?;
    let Some(trucks) = figure_at(line, 4) else {
        return Err(LineFault::Range);
    };
    let Some(load) = figure_at(line, 5) else {
        return Err(LineFault::Range);
    };
    Ok(TruckLine {
        arc,
        depart,
        trucks,
        load,
    })
}

/// Adds the departure of a line, or tells the first of the line's faults.
pub fn read_truck(
    lookup: &Lookup<'_>,
    draft: &mut Draft,
    line: &Record,
) -> Result<(), RecordError<LineFault>>
    ensures { MatchResult result
        (λ _. (first_code (truck_faults lookup.now draft.old line.now) ≡ None)
        × (draft.new ≡ with_truck draft.old (truck_in lookup.now line.now)))
        (λ e. IsFirstFault code_of e (first_code (truck_faults lookup.now draft.old line.now))) }
{
    let truck = truck_of(lookup, draft, line)?;
    draft.add_truck(truck)?;
    Ok(())
}
