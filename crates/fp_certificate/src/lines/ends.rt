//! The line `end`.
ghost use Rattle.std.specs.Prelude.{◌≡◌, Some, None, MatchResult};
ghost use Rattle.fp_records_fields.specs.Findings.{IsFirstFault, first_code};
ghost use Rattle.fp_certificate.specs.Codes.{code_of};
ghost use Rattle.fp_certificate.specs.Trees.{end_faults, with_end};

use crate::drafts::Draft;
use crate::lines::faults::LineFault;
use crate::lines::sections::Section;
use fp_records::Record;
use fp_records_fields::RecordError;
use fp_records_fields::fields::has_fields;

// Nothing where the line of the end has no fault, or else the first of the line's faults.
fn test_end(draft: &Draft, line: &Record) -> Result<(), LineFault>
    ensures { MatchResult result
        (λ _. first_code (end_faults draft.now line.now) ≡ None)
        (λ fault. first_code (end_faults draft.now line.now) ≡ Some (code_of fault)) }
{
    if !has_fields(line, 1) {
        return Err(LineFault::Fields);
    }
    if draft.is_misplaced(Section::End) {
        return Err(LineFault::Order);
    }
    Ok(())
}

/// Takes the end, or tells the first of the line's faults.
pub fn read_end(draft: &mut Draft, line: &Record) -> Result<(), RecordError<LineFault>>
    ensures { MatchResult result
        (λ _. (first_code (end_faults draft.old line.now) ≡ None) × (draft.new ≡ with_end draft.old))
        (λ e. IsFirstFault code_of e (first_code (end_faults draft.old line.now))) }
{
    test_end(draft, line)?;
    draft.set_end();
    Ok(())
}
