//! Lines of a word, a price and maybe a number: `WORD,KIND,ROUND,MODE` and
//! `WORD,KIND,ROUND,MODE,NUMBER`.
ghost use Rattle.std.specs.Prelude.{◌≡◌, ◌++◌, false, OnOk};
ghost use Rattle.fp_records.specs.Text.{line_of, with_field};
ghost use Rattle.fp_certificate_lines.specs.Rows.{kind_text, mode_text, priced_fields, with_last_number};

use crate::NoMemory;
use fp_prices::{Kind, LeafPrice};
use fp_records::Line;

// Adds the kind of prices.
fn write_kind(line: &mut Line, kind: Kind) -> Result<(), NoMemory>
    ensures { OnOk result (line.new ≡ with_field line.old (kind_text kind)) }
{
    match kind {
        Kind::Linear => line.word(b"linear"),
        Kind::Even => line.word(b"even"),
        Kind::Table { id } => line.number(u128::from(id)),
    }
}

// Adds whether forced classes are paid whole.
fn write_mode(line: &mut Line, forced: bool) -> Result<(), NoMemory>
    ensures { OnOk result (line.new ≡ with_field line.old (mode_text forced)) }
{
    if forced {
        line.word(b"forced")
    } else {
        line.word(b"plain")
    }
}

// Adds the number at the end of a line, where there is one.
fn write_last_number(line: &mut Line, last: Option<u128>) -> Result<(), NoMemory>
    ensures { OnOk result (line.new ≡ with_last_number line.old last) }
{
    match last {
        Some(number) => line.number(number),
        None => Ok(()),
    }
}

/// Adds the line of a word, a price, and a number where there is one.
pub(crate) fn write_priced(
    line: &mut Line,
    word: &[u8],
    price: LeafPrice,
    last: Option<u128>,
) -> Result<(), NoMemory>
    requires begun { line.old.begun ≡ false }
    ensures text { OnOk result (line.new.text ≡ line.old.text ++ line_of (priced_fields word.now price last)) }
    ensures ended { OnOk result (line.new.begun ≡ false) }
{
    line.word(word)?;
    write_kind(line, price.kind)?;
    line.number(u128::from(price.round))?;
    write_mode(line, price.forced)?;
    write_last_number(line, last)?;
    line.end()
}
