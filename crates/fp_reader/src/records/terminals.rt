//! Records `terminal,NAME` and `terminal,NAME,HOLD`.
ghost use Rattle.std.specs.Prelude.{◌≡◌, nat_lt, true, false, MatchOption, MatchResult};
ghost use Rattle.fp_model.specs.declared.limits.TheConstants.{GREATEST_HOLD};
ghost use Rattle.fp_reader.specs.Codes.{code_of};
ghost use Rattle.fp_records_fields.specs.Findings.{first_code};
ghost use Rattle.fp_reader.specs.Faults.{has_bad_hold, has_terminal_fields, terminal_faults};
ghost use Rattle.fp_reader.specs.Parts.{hold_in};

use crate::drafts::Draft;
use crate::records::codes::RecordFault;
use fp_model::limits::GREATEST_HOLD;
use fp_records::Record;
use fp_records_fields::digits::short_between;
use fp_records_fields::fields::{field_at, has_fields, has_name, has_number};

// Whether the number of fields is right.
fn has_terminal_fields(line: &Record) -> bool
    ensures { result ≡ has_terminal_fields line.now }
{
    has_fields(line, 2) || has_fields(line, 3)
}

// Whether there is a hold that is no number.
fn has_bad_hold(line: &Record) -> bool
    ensures { result ≡ has_bad_hold line.now }
{
    has_fields(line, 3) && !has_number(line, 2)
}

// The hold, 0 where the record gives none; `None` exactly where it is above its limit.
fn hold_of(line: &Record) -> Option<u32>
    requires { has_bad_hold line.now ≡ false }
    ensures { MatchOption result (nat_lt GREATEST_HOLD (hold_in line.now) ≡ true)
        (λ hold. (hold ≡ hold_in line.now) × (nat_lt GREATEST_HOLD (hold_in line.now) ≡ false)) }
{
    if has_fields(line, 3) {
        short_between(field_at(line, 2), 0, GREATEST_HOLD)
    } else {
        Some(0)
    }
}

/// The hold of a terminal's record, in the input's unit of time, or the least of the record's
/// faults.
pub fn read_terminal(draft: &Draft<'_>, line: &Record) -> Result<u32, RecordFault>
    ensures { MatchResult result
        (λ hold. (first_code (terminal_faults draft.now line.now) ≡ None) × (hold ≡ hold_in line.now))
        (λ fault. first_code (terminal_faults draft.now line.now) ≡ Some (code_of fault)) }
{
    if !has_terminal_fields(line) {
        return Err(RecordFault::Fields);
    }
    if !has_name(line, 1) {
        return Err(RecordFault::Name);
    }
    if has_bad_hold(line) {
        return Err(RecordFault::Digits);
    }
    let Some(hold) = hold_of(line) else {
        return Err(RecordFault::Range);
    };
    if draft.has_terminal(field_at(line, 1)) {
        return Err(RecordFault::NameTaken);
    }
    if draft.is_full_of_terminals() {
        return Err(RecordFault::TooMany);
    }
    Ok(hold)
}
