//! Lines `group,MOMENT`.
ghost use Rattle.std.specs.Prelude.{◌≡◌, true, OnOk, Some, None, MatchResult};
ghost use Rattle.fp_records_fields.specs.Findings.{IsFirstFault, first_code};
ghost use Rattle.fp_records_fields.specs.Fields.{number_at};
ghost use Rattle.fp_certificate.specs.Codes.{code_of};
ghost use Rattle.fp_certificate.specs.Tables.{group_faults, has_span, with_group};

use crate::drafts::Draft;
use crate::lines::faults::LineFault;
use crate::lines::fields::time_at;
use crate::lines::sections::Section;
use crate::open_gifts::has_gift;
use crate::open_spans::has_span;
use fp_records::Record;
use fp_records_fields::RecordError;
use fp_records_fields::fields::{has_fields, has_number};

// The moment of a line, at which a group begins, or the first of the line's faults.
fn moment_of(draft: &Draft, line: &Record) -> Result<u32, LineFault>
    ensures faults { MatchResult result
        (λ moment. (first_code (group_faults draft.now line.now) ≡ None)
        × (moment ≡ number_at line.now 1))
        (λ fault. first_code (group_faults draft.now line.now) ≡ Some (code_of fault)) }
    ensures some { OnOk result (has_span draft.now.certificate.spans ≡ true) }
{
    if !has_fields(line, 2) {
        return Err(LineFault::Fields);
    }
    if !has_number(line, 1) {
        return Err(LineFault::Digits);
    }
    if draft.is_misplaced(Section::Tables)
        || !has_span(&draft.certificate.spans)
        || has_gift(&draft.certificate.gifts)
    {
        return Err(LineFault::Order);
    }
    let Some(moment) = time_at(line, 1) else {
        return Err(LineFault::Range);
    };
    Ok(moment)
}

/// Adds the group of a line to the last span, or tells the first of the line's faults.
pub fn read_group(draft: &mut Draft, line: &Record) -> Result<(), RecordError<LineFault>>
    ensures { MatchResult result
        (λ _. (first_code (group_faults draft.old line.now) ≡ None)
        × (draft.new ≡ with_group draft.old (number_at line.now 1)))
        (λ e. IsFirstFault code_of e (first_code (group_faults draft.old line.now))) }
{
    let moment = moment_of(draft, line)?;
    draft.add_group(moment)?;
    Ok(())
}
