//! Lines `leg,SHIPMENT,FROM,TO,DEPART,ARRIVE`.
ghost use Rattle.std.specs.Prelude.{◌≡◌, Some, None, MatchResult};
ghost use Rattle.fp_records_fields.specs.Findings.{IsFirstFault, first_code};
ghost use Rattle.fp_certificate.specs.Codes.{code_of};
ghost use Rattle.fp_certificate.specs.Timetables.{leg_faults, leg_in, with_leg};

use crate::drafts::Draft;
use crate::lines::faults::LineFault;
use crate::lines::fields::{have_numbers, time_at};
use crate::lines::sections::Section;
use fp_records::Record;
use fp_records_fields::fields::has_fields;
use fp_records_fields::{Lookup, RecordError};
use fp_timetable::LegLine;

// The leg of a line, or the first of the line's faults.
fn leg_of(lookup: &Lookup<'_>, draft: &Draft, line: &Record) -> Result<LegLine, LineFault>
    ensures { MatchResult result
        (λ leg. (first_code (leg_faults lookup.now draft.now line.now) ≡ None) × (leg ≡ leg_in lookup.now line.now))
        (λ fault. first_code (leg_faults lookup.now draft.now line.now) ≡ Some (code_of fault)) }
{
    if !has_fields(line, 6) {
        return Err(LineFault::Fields);
    }
    if !have_numbers(line, 4, 5) {
        return Err(LineFault::Digits);
    }
    if draft.is_misplaced(Section::Legs) {
        return Err(LineFault::Order);
    }
    let Some(shipment) = lookup.shipment_at(line, 1) else {
        return Err(LineFault::Name);
    };
    let Some(arc) = lookup.arc_at(line, 2, 3) else {
        return Err(LineFault::Name);
    };
    let Some(depart) = time_at(line, 4) else {
        return Err(LineFault::Range);
    };
    let Some(arrive) = time_at(line, 5) else {
        return Err(LineFault::Range);
    };
    Ok(LegLine {
        shipment,
        arc,
        depart,
        arrive,
    })
}

/// Adds the leg of a line, or tells the first of the line's faults.
pub fn read_leg(
    lookup: &Lookup<'_>,
    draft: &mut Draft,
    line: &Record,
) -> Result<(), RecordError<LineFault>>
    ensures { MatchResult result
        (λ _. (first_code (leg_faults lookup.now draft.old line.now) ≡ None) × (draft.new ≡ with_leg draft.old (leg_in lookup.now line.now)))
        (λ e. IsFirstFault code_of e (first_code (leg_faults lookup.now draft.old line.now))) }
{
    let leg = leg_of(lookup, draft, line)?;
    draft.add_leg(leg)?;
    Ok(())
}
