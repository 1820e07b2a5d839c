//! Lines `scale,N`.
ghost use Rattle.std.specs.Prelude.{◌≡◌, ◌++◌, false, OnOk};
ghost use Rattle.fp_records.specs.Text.{lines_of};
ghost use Rattle.fp_certificate_lines.specs.Rows.{scale_rows};

use crate::NoMemory;
use fp_records::Line;

/// Adds the line of a scale, where there is one.
pub fn write_scale(line: &mut Line, scale: Option<u32>) -> Result<(), NoMemory>
    requires begun { line.old.begun ≡ false }
    ensures text { OnOk result (line.new.text ≡ line.old.text ++ lines_of (scale_rows scale)) }
    ensures ended { OnOk result (line.new.begun ≡ false) }
{
    let Some(scale) = scale else {
        return Ok(());
    };
    line.word(b"scale")?;
    line.number(u128::from(scale))?;
    line.end()
}
