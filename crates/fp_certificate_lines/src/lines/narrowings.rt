//! Lines `narrow,KIND,ROUND,MODE` and `narrow,KIND,ROUND,MODE,WORTH`.
ghost use Rattle.std.specs.Prelude.{◌≡◌, ◌++◌, false, OnOk};
ghost use Rattle.fp_records.specs.Text.{line_of};
ghost use Rattle.fp_certificate_lines.specs.Rows.{narrowing_fields};

use crate::NoMemory;
use crate::certificates::Narrowing;
use crate::lines::prices::write_priced;
use fp_records::Line;

/// Adds the line of a narrowing.
pub fn write_narrowing(line: &mut Line, narrowing: Narrowing) -> Result<(), NoMemory>
    requires begun { line.old.begun ≡ false }
    ensures text { OnOk result (line.new.text ≡ line.old.text ++ line_of (narrowing_fields narrowing)) }
    ensures ended { OnOk result (line.new.begun ≡ false) }
{
    write_priced(line, b"narrow", narrowing.price, narrowing.worth)
}
