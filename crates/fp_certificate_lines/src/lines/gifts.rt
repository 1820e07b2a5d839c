//! Lines `gift,FROM,TO,POINT,UNTIL,SIDE,AMOUNT`.
ghost use Rattle.std.specs.Prelude.{◌≡◌, ◌++◌, All, false, map, OnOk};
ghost use Rattle.fp_records.specs.Text.{line_of, lines_of, with_field};
ghost use Rattle.fp_certificate_lines.specs.Ranges.{GiftExists};
ghost use Rattle.fp_certificate_lines.specs.Rows.{gift_fields, side_text};

use crate::NoMemory;
use crate::lines::names::write_ends;
use fp_model::Instance;
use fp_prices_gifts::Gift;
use fp_records::Line;

// Adds whether a gift is given because at least so many trucks leave, or because at most so many do.
fn write_side(line: &mut Line, least: bool) -> Result<(), NoMemory>
    ensures { OnOk result (line.new ≡ with_field line.old (side_text least)) }
{
    if least {
        line.word(b"least")
    } else {
        line.word(b"most")
    }
}

// Adds the line of a gift.
fn write_gift(line: &mut Line, instance: &Instance, gift: &Gift) -> Result<(), NoMemory>
    requires begun { line.old.begun ≡ false }
    requires exists { GiftExists instance.now gift.now }
    ensures text { OnOk result (line.new.text ≡ line.old.text ++ line_of (gift_fields instance.now gift.now)) }
    ensures ended { OnOk result (line.new.begun ≡ false) }
{
    line.word(b"gift")?;
    write_ends(line, instance, gift.arc)?;
    line.number(u128::from(gift.point))?;
    line.number(u128::from(gift.until))?;
    write_side(line, gift.least)?;
    line.number(gift.amount)?;
    line.end()
}

/// Adds the lines of gifts.
pub fn write_gifts(line: &mut Line, instance: &Instance, gifts: &[Gift]) -> Result<(), NoMemory>
    requires begun { line.old.begun ≡ false }
    requires exist { All (GiftExists instance.now) gifts.now }
    ensures text { OnOk result (line.new.text ≡ line.old.text ++ lines_of (map (gift_fields instance.now) gifts.now)) }
    ensures ended { OnOk result (line.new.begun ≡ false) }
{
    for gift in gifts {
        write_gift(line, instance, gift)?;
    }
    Ok(())
}
