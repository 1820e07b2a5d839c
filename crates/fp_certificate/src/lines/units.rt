//! Lines `unit,Q`.
ghost use Rattle.std.specs.Prelude.{◌≡◌, Some, None, MatchResult};
ghost use Rattle.fp_records_fields.specs.Findings.{IsFirstFault, first_code};
ghost use Rattle.fp_records_fields.specs.Fields.{number_at};
ghost use Rattle.fp_certificate.specs.Answers.{unit_faults, with_unit};
ghost use Rattle.fp_certificate.specs.Codes.{code_of};

use crate::drafts::Draft;
use crate::lines::faults::LineFault;
use crate::lines::sections::Section;
use fp_certificate_lines::LARGEST_FIGURE;
use fp_records::Record;
use fp_records_fields::RecordError;
use fp_records_fields::digits::number_between;
use fp_records_fields::fields::{field_at, has_fields, has_number};

// The unit of a line, or the first of the line's faults.
fn unit_of(draft: &Draft, line: &Record) -> Result<u128, LineFault>
    ensures { MatchResult result
        (λ unit. (first_code (unit_faults draft.now line.now) ≡ None) × (unit ≡ number_at line.now 1))
        (λ fault. first_code (unit_faults draft.now line.now) ≡ Some (code_of fault)) }
{
    if !has_fields(line, 2) {
        return Err(LineFault::Fields);
    }
    if !has_number(line, 1) {
        return Err(LineFault::Digits);
    }
    if draft.is_misplaced(Section::Unit) || draft.certificate.unit.is_some() {
        return Err(LineFault::Order);
    }
    match number_between(field_at(line, 1), 1, LARGEST_FIGURE) {
        Some(unit) => Ok(unit),
        None => Err(LineFault::Range),
    }
}

/// Takes the unit of a line, or tells the first of the line's faults.
pub fn read_unit(draft: &mut Draft, line: &Record) -> Result<(), RecordError<LineFault>>
    ensures { MatchResult result
        (λ _. (first_code (unit_faults draft.old line.now) ≡ None) × (draft.new ≡ with_unit draft.old (number_at line.now 1)))
        (λ e. IsFirstFault code_of e (first_code (unit_faults draft.old line.now))) }
{
    let unit = unit_of(draft, line)?;
    draft.set_unit(unit);
    Ok(())
}
