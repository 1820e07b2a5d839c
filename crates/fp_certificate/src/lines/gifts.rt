//! Lines `gift,FROM,TO,POINT,UNTIL,SIDE,AMOUNT`.
ghost use Rattle.std.specs.Prelude.{◌≡◌, ◌<◌, length, OnOk, Some, None, MatchResult};
ghost use Rattle.fp_records_fields.specs.Findings.{IsFirstFault, first_code};
ghost use Rattle.fp_certificate.specs.Codes.{code_of};
ghost use Rattle.fp_certificate.specs.Gifts.{gift_faults, gift_in, has_side, with_gift};

use crate::drafts::Draft;
use crate::lines::faults::LineFault;
use crate::lines::fields::{departure_at, end_at, figure_at, have_numbers};
use crate::lines::sections::Section;
use fp_prices_gifts::Gift;
use fp_records::Record;
use fp_records_fields::fields::{has_fields, has_number, has_word};
use fp_records_fields::{Lookup, RecordError};

// Whether a gift tells one of the two sides for which it is.
fn has_side(line: &Record) -> bool
    ensures { result ≡ has_side line.now }
{
    has_word(line, 5, b"least") || has_word(line, 5, b"most")
}

// The gift of a line, or the first of the line's faults.
fn gift_of(lookup: &Lookup<'_>, draft: &Draft, line: &Record) -> Result<Gift, LineFault>
    ensures faults { MatchResult result
        (λ gift. (first_code (gift_faults lookup.now draft.now line.now) ≡ None) × (gift ≡ gift_in lookup.now line.now))
        (λ fault. first_code (gift_faults lookup.now draft.now line.now) ≡ Some (code_of fault)) }
    ensures table { OnOk result (0 < length draft.now.certificate.gifts) }
{
    if !has_fields(line, 7) {
        return Err(LineFault::Fields);
    }
    if !have_numbers(line, 3, 4) || !has_side(line) || !has_number(line, 6) {
        return Err(LineFault::Digits);
    }
    if draft.is_misplaced(Section::Tables) || draft.certificate.gifts.is_empty() {
        return Err(LineFault::Order);
    }
    let (arc, point) = departure_at(lookup, line)?;
    let Some(until) = end_at(line, 3, 4, point) else {
        return Err(LineFault::Range);
    };
    let Some(amount) = figure_at(line, 6) else {
        return Err(LineFault::Range);
    };
    Ok(Gift {
        arc,
        point,
        until,
        least: has_word(line, 5, b"least"),
        amount,
    })
}

/// Adds the gift of a line to those of the last table, or tells the first of the line's faults.
pub fn read_gift(
    lookup: &Lookup<'_>,
    draft: &mut Draft,
    line: &Record,
) -> Result<(), RecordError<LineFault>>
    ensures { MatchResult result
        (λ _. (first_code (gift_faults lookup.now draft.old line.now) ≡ None)
        × (draft.new ≡ with_gift draft.old (gift_in lookup.now line.now)))
        (λ e. IsFirstFault code_of e (first_code (gift_faults lookup.now draft.old line.now))) }
{
    let gift = gift_of(lookup, draft, line)?;
    draft.add_gift(gift)?;
    Ok(())
}
