//! Lines `scale,N`.
ghost use Rattle.std.specs.Prelude.{◌≡◌, false, Some, None, true, MatchOption, MatchResult};
ghost use Rattle.fp_records_fields.specs.Findings.{IsFirstFault, first_code};
ghost use Rattle.fp_records_fields.specs.Fields.{has_number, number_at};
ghost use Rattle.fp_certificate.specs.Answers.{has_bad_scale, scale_faults, with_scale};
ghost use Rattle.fp_certificate.specs.Codes.{code_of};

use crate::drafts::Draft;
use crate::lines::faults::LineFault;
use crate::lines::sections::Section;
use fp_model::limits::GREATEST_SCALE;
use fp_records::Record;
use fp_records_fields::digits::short_between;
use fp_records_fields::fields::{field_at, has_fields, has_number};
use fp_records_fields::{Lookup, RecordError};

// The scale of a line; `None` exactly where it isn't 1 to 1,000,000,000 or doesn't fit the
// instance.
fn scale_at(lookup: &Lookup<'_>, line: &Record) -> Option<u32>
    requires { has_number line.now 1 ≡ true }
    ensures { MatchOption result (has_bad_scale lookup.now line.now ≡ true)
        (λ n. (has_bad_scale lookup.now line.now ≡ false) × (n ≡ number_at line.now 1)) }
{
    let scale = short_between(field_at(line, 1), 1, GREATEST_SCALE)?;
    if lookup.fits(scale) {
        Some(scale)
    } else {
        None
    }
}

// The scale of a line, or the first of the line's faults.
fn scale_of(lookup: &Lookup<'_>, draft: &Draft, line: &Record) -> Result<u32, LineFault>
    ensures { MatchResult result
        (λ scale. (first_code (scale_faults lookup.now draft.now line.now) ≡ None) × (scale ≡ number_at line.now 1))
        (λ fault. first_code (scale_faults lookup.now draft.now line.now) ≡ Some (code_of fault)) }
{
    if !has_fields(line, 2) {
        return Err(LineFault::Fields);
    }
    if !has_number(line, 1) {
        return Err(LineFault::Digits);
    }
    if draft.is_misplaced(Section::Scale) || draft.certificate.scale.is_some() {
        return Err(LineFault::Order);
    }
    match scale_at(lookup, line) {
        Some(scale) => Ok(scale),
        None => Err(LineFault::Range),
    }
}

/// Takes the scale of a line, or tells the first of the line's faults.
pub fn read_scale(
    lookup: &Lookup<'_>,
    draft: &mut Draft,
    line: &Record,
) -> Result<(), RecordError<LineFault>>
    ensures { MatchResult result
        (λ _. (first_code (scale_faults lookup.now draft.old line.now) ≡ None) × (draft.new ≡ with_scale draft.old (number_at line.now 1)))
        (λ e. IsFirstFault code_of e (first_code (scale_faults lookup.now draft.old line.now))) }
{
    let scale = scale_of(lookup, draft, line)?;
    draft.set_scale(scale);
    Ok(())
}
