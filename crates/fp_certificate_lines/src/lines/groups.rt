//! Lines `group,MOMENT`.
ghost use Rattle.std.specs.Prelude.{◌≡◌, ◌++◌, false, map, OnOk};
ghost use Rattle.fp_records.specs.Text.{line_of, lines_of};
ghost use Rattle.fp_certificate_lines.specs.Rows.{group_fields};

use crate::NoMemory;
use fp_records::Line;

// Adds the line of a moment at which a group begins.
fn write_group(line: &mut Line, moment: u32) -> Result<(), NoMemory>
    requires begun { line.old.begun ≡ false }
    ensures text { OnOk result (line.new.text ≡ line.old.text ++ line_of (group_fields moment)) }
    ensures ended { OnOk result (line.new.begun ≡ false) }
{
    line.word(b"group")?;
    line.number(u128::from(moment))?;
    line.end()
}

/// Adds the lines of the moments at which groups begin.
pub fn write_groups(line: &mut Line, groups: &[u32]) -> Result<(), NoMemory>
    requires begun { line.old.begun ≡ false }
    ensures text { OnOk result
        (line.new.text ≡ line.old.text ++ lines_of (map group_fields groups.now)) }
    ensures ended { OnOk result (line.new.begun ≡ false) }
{
    for moment in groups {
        write_group(line, *moment)?;
    }
    Ok(())
}
