//! Lines `table,ID` and `table,ID,moments`, each followed by its shares, then by its spans and then
//! by its gifts.
ghost use Rattle.std.specs.Prelude.{◌≡◌, ◌+◌, ◌==◌, Some, None, true, length, MatchResult};
ghost use Rattle.fp_records_fields.specs.Findings.{IsFirstFault, first_code};
ghost use Rattle.fp_records_fields.specs.Fields.{has_number, number_at};
ghost use Rattle.fp_certificate.specs.Codes.{code_of};
ghost use Rattle.fp_certificate.specs.Tables.{has_table_digits, lacks_moments, moments_in, table_faults, with_table};

use crate::drafts::Draft;
use crate::lines::faults::LineFault;
use crate::lines::sections::Section;
use fp_records::Record;
use fp_records_fields::RecordError;
use fp_records_fields::digits::number_between;
use fp_records_fields::fields::{field_at, has_fields, has_number, has_word};

// Whether the line of a table doesn't tell that the table is by moments.
fn lacks_moments(line: &Record) -> bool
    ensures { result ≡ lacks_moments line.now }
{
    has_fields(line, 2)
}

// Whether the table of a line is by moments.
fn is_by_moments(line: &Record) -> bool
    ensures { result ≡ moments_in line.now }
{
    has_word(line, 2, b"moments")
}

// Whether the number of a table, and the word where there is one, are such.
fn has_table_digits(line: &Record) -> bool
    ensures { result ≡ has_table_digits line.now }
{
    has_number(line, 1) && (lacks_moments(line) || is_by_moments(line))
}

// Whether the number of a table's line is the next.
fn is_next(draft: &Draft, line: &Record) -> bool
    requires { has_number line.now 1 ≡ true }
    ensures { result ≡ (number_at line.now 1 == length draft.now.certificate.tables + 1) }
{
    let next = draft.certificate.tables.len() as u128 + 1;
    number_between(field_at(line, 1), next, next).is_some()
}

// Nothing where the line of a table has no fault, or else the first of the line's faults.
fn test_table(draft: &Draft, line: &Record) -> Result<(), LineFault>
    ensures { MatchResult result
        (λ _. first_code (table_faults draft.now line.now) ≡ None)
        (λ fault. first_code (table_faults draft.now line.now) ≡ Some (code_of fault)) }
{
    if !lacks_moments(line) && !has_fields(line, 3) {
        return Err(LineFault::Fields);
    }
    if !has_table_digits(line) {
        return Err(LineFault::Digits);
    }
    if draft.is_misplaced(Section::Tables) || !is_next(draft, line) {
        return Err(LineFault::Order);
    }
    Ok(())
}

/// Adds the table of a line, with no shares, no spans and no gifts, or tells the first of the line's
/// faults.
pub fn read_table(draft: &mut Draft, line: &Record) -> Result<(), RecordError<LineFault>>
    ensures { MatchResult result
        (λ _. (first_code (table_faults draft.old line.now) ≡ None) × (draft.new ≡ with_table draft.old (moments_in line.now)))
        (λ e. IsFirstFault code_of e (first_code (table_faults draft.old line.now))) }
{
    test_table(draft, line)?;
    draft.add_table(is_by_moments(line))?;
    Ok(())
}
