//! Lines `unit,Q`.
ghost use Rattle.std.specs.Prelude.{◌≡◌, ◌++◌, false, OnOk};
ghost use Rattle.fp_records.specs.Text.{lines_of};
ghost use Rattle.fp_certificate_lines.specs.Rows.{unit_rows};

use crate::NoMemory;
use fp_records::Line;

/// Adds the line of a unit, where there is one.
pub fn write_unit(line: &mut Line, unit: Option<u128>) -> Result<(), NoMemory>
    requires begun { line.old.begun ≡ false }
    ensures text { OnOk result (line.new.text ≡ line.old.text ++ lines_of (unit_rows unit)) }
    ensures ended { OnOk result (line.new.begun ≡ false) }
{
    let Some(unit) = unit else {
        return Ok(());
    };
    line.word(b"unit")?;
    line.number(unit)?;
    line.end()
}
