//! Lines of a word, a price and maybe a number: `WORD,KIND,ROUND,MODE` and
//! `WORD,KIND,ROUND,MODE,NUMBER`.
ghost use Rattle.std.specs.Prelude.{◌≡◌, ◌≤◌, false, ◌||◌, ◌<◌, ◌^◌, IfSome, Some, None, true, length, MatchOption, MatchResult};
ghost use Rattle.fp_records_fields.specs.Findings.{first_code};
ghost use Rattle.fp_records_fields.specs.Fields.{has_number, is_between};
ghost use Rattle.fp_certificate.specs.Codes.{code_of};
ghost use Rattle.fp_certificate.specs.Trees.{has_kind_word, has_price_digits, kind_in, lacks_last_number, last_number_in, price_faults, price_in};

use crate::drafts::Draft;
use crate::lines::faults::LineFault;
use crate::lines::fields::round_at;
use crate::lines::sections::Section;
use fp_prices::{Kind, LeafPrice};
use fp_records::Record;
use fp_records_fields::digits::{number_between, short_between};
use fp_records_fields::fields::{field_at, has_fields, has_number, has_word};

// Whether the kind of prices is a word.
fn has_kind_word(line: &Record) -> bool
    ensures { result ≡ has_kind_word line.now }
{
    has_word(line, 1, b"linear") || has_word(line, 1, b"even")
}

// Whether a line ends with its price.
fn lacks_last_number(line: &Record) -> bool
    ensures { result ≡ lacks_last_number line.now }
{
    has_fields(line, 4)
}

// Whether the kind, the round, the mode and the number after them are such.
fn has_price_digits(line: &Record) -> bool
    ensures { result ≡ has_price_digits line.now }
{
    (has_kind_word(line) || has_number(line, 1))
        && has_number(line, 2)
        && (has_word(line, 3, b"plain") || has_word(line, 3, b"forced"))
        && (lacks_last_number(line) || has_number(line, 4))
}

// The kind of prices; `None` exactly where its table is none of so many.
fn kind_of(line: &Record, tables: u32) -> Option<Kind>
    requires { (has_kind_word line.now || has_number line.now 1) ≡ true }
    ensures { MatchOption result ((has_kind_word line.now || is_between 1 tables line.now 1) ≡ false)
        (λ kind. ((has_kind_word line.now || is_between 1 tables line.now 1) ≡ true) × (kind ≡ kind_in line.now)) }
{
    if has_word(line, 1, b"linear") {
        return Some(Kind::Linear);
    }
    if has_word(line, 1, b"even") {
        return Some(Kind::Even);
    }
    let id = short_between(field_at(line, 1), 1, tables)?;
    Some(Kind::Table { id })
}

// The number after a price, where there is one; `None` exactly where it is larger than `most`.
fn last_number_of(line: &Record, most: u128) -> Option<Option<u128>>
    requires digits { (lacks_last_number line.now || has_number line.now 4) ≡ true }
    requires most { most < 2 ^ 127 }
    ensures { MatchOption result ((lacks_last_number line.now || is_between 0 most line.now 4) ≡ false)
        (λ last. ((lacks_last_number line.now || is_between 0 most line.now 4) ≡ true)
        × (last ≡ last_number_in line.now) × IfSome last (λ number. number ≤ most)) }
{
    if lacks_last_number(line) {
        return Some(None);
    }
    let number = number_between(field_at(line, 4), 0, most)?;
    Some(Some(number))
}

/// The price of a line, and the number after it, where there is one; or the first of the line's
/// faults. The number is at most `most`.
pub(crate) fn price_of(
    draft: &Draft,
    line: &Record,
    most: u128,
) -> Result<(LeafPrice, Option<u128>), LineFault>
    requires tables { length draft.now.certificate.tables < 2 ^ 32 }
    requires most { most < 2 ^ 127 }
    ensures { MatchResult result
        (λ priced. (first_code (price_faults most draft.now line.now) ≡ None)
        × (priced.0 ≡ price_in line.now) × (priced.1 ≡ last_number_in line.now)
        × IfSome priced.1 (λ number. number ≤ most))
        (λ fault. first_code (price_faults most draft.now line.now) ≡ Some (code_of fault)) }
{
    if !lacks_last_number(line) && !has_fields(line, 5) {
        return Err(LineFault::Fields);
    }
    if !has_price_digits(line) {
        return Err(LineFault::Digits);
    }
    if draft.is_misplaced(Section::Tree) {
        return Err(LineFault::Order);
    }
    let tables = draft.certificate.tables.len() as u32;
    let Some(kind) = kind_of(line, tables) else {
        return Err(LineFault::Range);
    };
    let Some(round) = round_at(line, 2, 0) else {
        return Err(LineFault::Range);
    };
    let Some(last) = last_number_of(line, most) else {
        return Err(LineFault::Range);
    };
    let price = LeafPrice {
        kind,
        round,
        forced: has_word(line, 3, b"forced"),
    };
    Ok((price, last))
}
