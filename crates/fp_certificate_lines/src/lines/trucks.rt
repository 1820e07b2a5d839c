//! Lines `truck,FROM,TO,DEPART,TRUCKS,LOAD`.
ghost use Rattle.std.specs.Prelude.{◌≡◌, ◌++◌, All, false, map, OnOk};
ghost use Rattle.fp_records.specs.Text.{line_of, lines_of};
ghost use Rattle.fp_timetable.specs.Lines.{TruckExists};
ghost use Rattle.fp_certificate_lines.specs.Rows.{truck_fields};

use crate::NoMemory;
use crate::lines::names::write_ends;
use fp_model::Instance;
use fp_records::Line;
use fp_timetable::TruckLine;

// Adds the line of a departure's trucks.
fn write_truck(line: &mut Line, instance: &Instance, truck: &TruckLine) -> Result<(), NoMemory>
    requires begun { line.old.begun ≡ false }
    requires exists { TruckExists instance.now truck.now }
    ensures text { OnOk result (line.new.text ≡ line.old.text ++ line_of (truck_fields instance.now truck.now)) }
    ensures ended { OnOk result (line.new.begun ≡ false) }
{
    line.word(b"truck")?;
    write_ends(line, instance, truck.arc)?;
    line.number(u128::from(truck.depart))?;
    line.number(truck.trucks)?;
    line.number(truck.load)?;
    line.end()
}

/// Adds the lines of departures.
pub fn write_trucks(
    line: &mut Line,
    instance: &Instance,
    trucks: &[TruckLine],
) -> Result<(), NoMemory>
    requires begun { line.old.begun ≡ false }
    requires exist { All (TruckExists instance.now) trucks.now }
    ensures text { OnOk result (line.new.text ≡ line.old.text ++ lines_of (map (truck_fields instance.now) trucks.now)) }
    ensures ended { OnOk result (line.new.begun ≡ false) }
{
    for truck in trucks {
        write_truck(line, instance, truck)?;
    }
    Ok(())
}
