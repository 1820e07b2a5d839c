//! Lines `point,TERMINAL,TIME,ROUND`.
ghost use Rattle.std.specs.Prelude.{◌≡◌, Some, None, MatchResult};
ghost use Rattle.fp_records_fields.specs.Findings.{IsFirstFault, first_code};
ghost use Rattle.fp_certificate.specs.Codes.{code_of};
ghost use Rattle.fp_certificate.specs.Points.{point_faults, point_in, with_point};

use crate::drafts::Draft;
use crate::lines::faults::LineFault;
use crate::lines::fields::{have_numbers, round_at, time_at};
use crate::lines::sections::Section;
use fp_records::Record;
use fp_records_fields::fields::has_fields;
use fp_records_fields::{Lookup, RecordError};
use fp_timenodes::AddedPoint;

// The point of a line, or the first of the line's faults.
fn point_of(lookup: &Lookup<'_>, draft: &Draft, line: &Record) -> Result<AddedPoint, LineFault>
    ensures { MatchResult result
        (λ point. (first_code (point_faults lookup.now draft.now line.now) ≡ None) × (point ≡ point_in lookup.now line.now))
        (λ fault. first_code (point_faults lookup.now draft.now line.now) ≡ Some (code_of fault)) }
{
    if !has_fields(line, 4) {
        return Err(LineFault::Fields);
    }
    if !have_numbers(line, 2, 3) {
        return Err(LineFault::Digits);
    }
    if draft.is_misplaced(Section::Points) {
        return Err(LineFault::Order);
    }
    let Some(terminal) = lookup.terminal_at(line, 1) else {
        return Err(LineFault::Name);
    };
    let Some(at) = time_at(line, 2) else {
        return Err(LineFault::Range);
    };
    let Some(round) = round_at(line, 3, 1) else {
        return Err(LineFault::Range);
    };
    Ok(AddedPoint {
        terminal,
        at,
        round,
    })
}

/// Adds the point of a line, or tells the first of the line's faults.
pub fn read_point(
    lookup: &Lookup<'_>,
    draft: &mut Draft,
    line: &Record,
) -> Result<(), RecordError<LineFault>>
    ensures { MatchResult result
        (λ _. (first_code (point_faults lookup.now draft.old line.now) ≡ None)
        × (draft.new ≡ with_point draft.old (point_in lookup.now line.now)))
        (λ e. IsFirstFault code_of e (first_code (point_faults lookup.now draft.old line.now))) }
{
    let point = point_of(lookup, draft, line)?;
    draft.add_point(point)?;
    Ok(())
}
