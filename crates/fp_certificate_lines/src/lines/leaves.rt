//! Lines `leaf,KIND,ROUND,MODE` and `leaf,KIND,ROUND,MODE,SIDES`.
ghost use Rattle.std.specs.Prelude.{◌≡◌, ◌++◌, false, OnOk};
ghost use Rattle.fp_records.specs.Text.{line_of};
ghost use Rattle.fp_certificate_lines.specs.Rows.{leaf_fields};

use crate::NoMemory;
use crate::certificates::Valuation;
use crate::lines::prices::write_priced;
use fp_records::Line;

/// Adds the line of a leaf.
pub fn write_leaf(line: &mut Line, valuation: Valuation) -> Result<(), NoMemory>
    requires begun { line.old.begun ≡ false }
    ensures text { OnOk result (line.new.text ≡ line.old.text ++ line_of (leaf_fields valuation)) }
    ensures ended { OnOk result (line.new.begun ≡ false) }
{
    let sides = valuation.sides.map(u128::from);
    write_priced(line, b"leaf", valuation.price, sides)
}
