//! Lines `leg,SHIPMENT,FROM,TO,DEPART,ARRIVE`.
ghost use Rattle.std.specs.Prelude.{◌≡◌, ◌++◌, All, false, map, OnOk};
ghost use Rattle.fp_records.specs.Text.{line_of, lines_of};
ghost use Rattle.fp_timetable.specs.Lines.{LegExists};
ghost use Rattle.fp_certificate_lines.specs.Rows.{leg_fields};

use crate::NoMemory;
use crate::lines::names::{write_ends, write_shipment};
use fp_model::Instance;
use fp_records::Line;
use fp_timetable::LegLine;

// Adds the line of a leg.
fn write_leg(line: &mut Line, instance: &Instance, leg: &LegLine) -> Result<(), NoMemory>
    requires begun { line.old.begun ≡ false }
    requires exists { LegExists instance.now leg.now }
    ensures text { OnOk result (line.new.text ≡ line.old.text ++ line_of (leg_fields instance.now leg.now)) }
    ensures ended { OnOk result (line.new.begun ≡ false) }
{
    line.word(b"leg")?;
    write_shipment(line, instance, leg.shipment)?;
    write_ends(line, instance, leg.arc)?;
    line.number(u128::from(leg.depart))?;
    line.number(u128::from(leg.arrive))?;
    line.end()
}

/// Adds the lines of legs.
pub fn write_legs(line: &mut Line, instance: &Instance, legs: &[LegLine]) -> Result<(), NoMemory>
    requires begun { line.old.begun ≡ false }
    requires exist { All (LegExists instance.now) legs.now }
    ensures text { OnOk result (line.new.text ≡ line.old.text ++ lines_of (map (leg_fields instance.now) legs.now)) }
    ensures ended { OnOk result (line.new.begun ≡ false) }
{
    for leg in legs {
        write_leg(line, instance, leg)?;
    }
    Ok(())
}
