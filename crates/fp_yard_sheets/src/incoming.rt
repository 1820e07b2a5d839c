//! Lines `in,TERMINAL,FROM,ARRIVE`.
ghost use Rattle.std.specs.Prelude.{◌≡◌, ◌<◌, ◌++◌, All, OnOk, false, length};
ghost use Rattle.std.specs.List.{flat_map};
ghost use Rattle.fp_records.specs.Text.{line_of, lines_of};
ghost use Rattle.fp_timetable.specs.Lines.{TruckExists};
ghost use Rattle.fp_yard_sheets.specs.declared.arrivals.Arrival.{Arrival};
ghost use Rattle.fp_yard_sheets.specs.Rows.{in_fields, in_rows};

use crate::NoMemory;
use crate::arrivals::Arrival;
use crate::names::{write_head, write_tail};
use fp_model::Instance;
use fp_records::Line;
use fp_timetable::TruckLine;

// Adds the line of an arrival.
fn write_arrival(
    line: &mut Line,
    instance: &Instance,
    trucks: &[TruckLine],
    arrival: Arrival,
) -> Result<(), NoMemory>
    requires begun { line.old.begun ≡ false }
    requires exist { All (TruckExists instance.now) trucks.now }
    requires exists { arrival.line < length trucks.now }
    ensures text { OnOk result
        (line.new.text ≡ line.old.text ++ line_of (in_fields instance.now trucks.now arrival)) }
    ensures ended { OnOk result (line.new.begun ≡ false) }
{
    let truck = &trucks[arrival.line as usize];
    line.word(b"in")?;
    write_head(line, instance, truck)?;
    write_tail(line, instance, truck)?;
    line.number(u128::from(arrival.at))?;
    line.end()?;
    Ok(())
}

// Adds the line of an arrival where it is at the terminal.
fn write_in(
    line: &mut Line,
    instance: &Instance,
    trucks: &[TruckLine],
    terminal: u32,
    arrival: Arrival,
) -> Result<(), NoMemory>
    requires begun { line.old.begun ≡ false }
    requires exist { All (TruckExists instance.now) trucks.now }
    requires exists { arrival.line < length trucks.now }
    ensures text { OnOk result (line.new.text
        ≡ line.old.text ++ lines_of (in_rows instance.now trucks.now terminal arrival)) }
    ensures ended { OnOk result (line.new.begun ≡ false) }
{
    let truck = &trucks[arrival.line as usize];
    if instance.arc(truck.arc).to == terminal {
        write_arrival(line, instance, trucks, arrival)?;
    }
    Ok(())
}

// Adds the lines of the truck lines that enter the terminal, in the order of arrivals.
pub(crate) fn write_ins(
    line: &mut Line,
    instance: &Instance,
    trucks: &[TruckLine],
    terminal: u32,
    arrivals: &[Arrival],
) -> Result<(), NoMemory>
    requires begun { line.old.begun ≡ false }
    requires exist { All (TruckExists instance.now) trucks.now }
    requires arrivals { All (λ (a : Arrival). a.line < length trucks.now) arrivals.now }
    ensures text { OnOk result (line.new.text ≡ line.old.text
        ++ lines_of (flat_map (in_rows instance.now trucks.now terminal) arrivals.now)) }
    ensures ended { OnOk result (line.new.begun ≡ false) }
{
    for arrival in arrivals {
        write_in(line, instance, trucks, terminal, *arrival)?;
    }
    Ok(())
}
