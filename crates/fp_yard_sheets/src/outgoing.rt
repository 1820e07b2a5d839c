//! Lines `out,TERMINAL,TO,DEPART,TRUCKS`, each followed by its freight.
ghost use Rattle.std.specs.Prelude.{◌≡◌, ◌<◌, ◌++◌, All, OnOk, false, length, map};
ghost use Rattle.std.specs.List.{flat_map};
ghost use Rattle.fp_model.specs.declared.parts.Member.{Member};
ghost use Rattle.fp_records.specs.Text.{line_of, lines_of};
ghost use Rattle.fp_timetable.specs.Lines.{TruckExists};
ghost use Rattle.fp_yard.specs.Schedules.{line_at};
ghost use Rattle.fp_yard_sheets.specs.Freight.{IsOver, member_fields, routes_of};
ghost use Rattle.fp_yard_sheets.specs.Rows.{out_fields, out_rows};

use crate::NoMemory;
use crate::names::{write_head, write_tail};
use fp_model::{Instance, Member};
use fp_records::Line;
use fp_timetable::TruckLine;
use fp_yard::Yard;

// Adds the line of a leg's shipment.
fn write_load(line: &mut Line, instance: &Instance, leg: Member) -> Result<(), NoMemory>
    requires begun { line.old.begun ≡ false }
    requires exists { leg.shipment < length instance.now.shipments }
    ensures text { OnOk result (line.new.text ≡ line.old.text ++ line_of (member_fields instance.now leg)) }
    ensures ended { OnOk result (line.new.begun ≡ false) }
{
    let shipment = &instance.shipments()[leg.shipment as usize];
    line.word(b"load")?;
    line.word(shipment.name.bytes())?;
    line.end()
}

// Adds the lines of the shipments of legs.
fn write_loads(line: &mut Line, instance: &Instance, freight: &[Member]) -> Result<(), NoMemory>
    requires begun { line.old.begun ≡ false }
    requires exist { All (λ (m : Member). m.shipment < length instance.now.shipments) freight.now }
    ensures text { OnOk result (line.new.text
        ≡ line.old.text ++ lines_of (map (member_fields instance.now) freight.now)) }
    ensures ended { OnOk result (line.new.begun ≡ false) }
{
    for leg in freight {
        write_load(line, instance, *leg)?;
    }
    Ok(())
}

// Adds the line of a truck line, without its freight.
fn write_departure(line: &mut Line, instance: &Instance, truck: &TruckLine) -> Result<(), NoMemory>
    requires begun { line.old.begun ≡ false }
    requires exists { TruckExists instance.now truck.now }
    ensures text { OnOk result (line.new.text ≡ line.old.text ++ line_of (out_fields instance.now truck.now)) }
    ensures ended { OnOk result (line.new.begun ≡ false) }
{
    line.word(b"out")?;
    write_tail(line, instance, truck)?;
    write_head(line, instance, truck)?;
    line.number(u128::from(truck.depart))?;
    line.number(truck.trucks)?;
    line.end()?;
    Ok(())
}

// Adds the line of the truck line with a number where it leaves the terminal, followed by its freight.
fn write_out(
    line: &mut Line,
    instance: &Instance,
    yard: &Yard,
    trucks: &[TruckLine],
    terminal: u32,
    number: u32,
) -> Result<(), NoMemory>
    requires begun { line.old.begun ≡ false }
    requires over { IsOver instance.now trucks.now yard.now.schedule }
    requires exist { All (TruckExists instance.now) trucks.now }
    requires exists { number < length trucks.now }
    ensures text { OnOk result (line.new.text ≡ line.old.text ++ lines_of
        (out_rows instance.now (routes_of trucks.now yard.now.schedule) terminal (line_at trucks.now number))) }
    ensures ended { OnOk result (line.new.begun ≡ false) }
{
    let truck = &trucks[number as usize];
    if instance.arc(truck.arc).from == terminal {
        write_departure(line, instance, truck)?;
        write_loads(line, instance, yard.freight(number))?;
    }
    Ok(())
}

// Adds the lines of the truck lines that leave the terminal, each followed by its freight.
pub(crate) fn write_outs(
    line: &mut Line,
    instance: &Instance,
    yard: &Yard,
    trucks: &[TruckLine],
    terminal: u32,
) -> Result<(), NoMemory>
    requires begun { line.old.begun ≡ false }
    requires over { IsOver instance.now trucks.now yard.now.schedule }
    requires exist { All (TruckExists instance.now) trucks.now }
    ensures text { OnOk result (line.new.text ≡ line.old.text ++ lines_of
        (flat_map (out_rows instance.now (routes_of trucks.now yard.now.schedule) terminal) trucks.now)) }
    ensures ended { OnOk result (line.new.begun ≡ false) }
{
    for (number, _truck) in trucks.iter().enumerate() {
        write_out(line, instance, yard, trucks, terminal, number as u32)?;
    }
    Ok(())
}
