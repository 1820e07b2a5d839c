//! The text of a yard.
ghost use Rattle.std.specs.Prelude.{◌≡◌, ◌<◌, ◌++◌, All, IfOk, List, OnOk, false, length};
ghost use Rattle.fp_records.specs.Text.{line_of, lines_of};
ghost use Rattle.fp_model.specs.Plans.{IsPlan};
ghost use Rattle.fp_timetable.specs.declared.lines.TruckLine.{TruckLine};
ghost use Rattle.fp_timetable.specs.Lines.{AreTruckLines, TruckExists};
ghost use Rattle.fp_yard_sheets.specs.declared.arrivals.Arrival.{Arrival};
ghost use Rattle.fp_yard_sheets.specs.Freight.{IsOver, routes_of};
ghost use Rattle.fp_yard_sheets.specs.Rows.{EventsExist, IsYardText, end_fields, sheet_rows, sheets_from, yard_fields, yard_rows};

use crate::NoMemory;
use crate::arrivals::{Arrival, by_moment};
use crate::events::write_events;
use crate::incoming::write_ins;
use crate::outgoing::write_outs;
use fp_model::{Instance, Plan};
use fp_records::Line;
use fp_timetable::{TruckLine, trucks};
use fp_yard::{Event, Yard};
use std::alloc::Global;

// Adds `yard` and how many truck lines there are.
fn write_count(line: &mut Line, count: usize) -> Result<(), NoMemory>
    requires begun { line.old.begun ≡ false }
    ensures text { OnOk result (line.new.text ≡ line.old.text ++ line_of (yard_fields count)) }
    ensures ended { OnOk result (line.new.begun ≡ false) }
{
    line.word(b"yard")?;
    line.number(count as u128)?;
    line.end()
}

// Adds the sheet of a terminal.
fn write_sheet(
    line: &mut Line,
    instance: &Instance,
    yard: &Yard,
    lines: &[TruckLine],
    arrivals: &[Arrival],
    terminal: u32,
) -> Result<(), NoMemory>
    requires begun { line.old.begun ≡ false }
    requires over { IsOver instance.now lines.now yard.now.schedule }
    requires exist { All (TruckExists instance.now) lines.now }
    requires arrivals { All (λ (a : Arrival). a.line < length lines.now) arrivals.now }
    ensures text { OnOk result (line.new.text ≡ line.old.text
        ++ lines_of (sheet_rows instance.now (routes_of lines.now yard.now.schedule) lines.now arrivals.now terminal)) }
    ensures ended { OnOk result (line.new.begun ≡ false) }
{
    write_outs(line, instance, yard, lines, terminal)?;
    write_ins(line, instance, lines, terminal, arrivals)
}

// Adds the sheets of all terminals.
fn write_sheets(
    line: &mut Line,
    instance: &Instance,
    yard: &Yard,
    lines: &[TruckLine],
    arrivals: &[Arrival],
) -> Result<(), NoMemory>
    requires begun { line.old.begun ≡ false }
    requires over { IsOver instance.now lines.now yard.now.schedule }
    requires exist { All (TruckExists instance.now) lines.now }
    requires arrivals { All (λ (a : Arrival). a.line < length lines.now) arrivals.now }
    ensures text { OnOk result (line.new.text ≡ line.old.text
        ++ lines_of (sheets_from instance.now (routes_of lines.now yard.now.schedule) lines.now arrivals.now 0 instance.now.terminals)) }
    ensures ended { OnOk result (line.new.begun ≡ false) }
{
    let terminals = instance.terminals();
    for (terminal, _name) in terminals.iter().enumerate() {
        write_sheet(line, instance, yard, lines, arrivals, terminal as u32)?;
    }
    Ok(())
}

// Adds `end`.
fn write_end(line: &mut Line) -> Result<(), NoMemory>
    requires begun { line.old.begun ≡ false }
    ensures text { OnOk result (line.new.text ≡ line.old.text ++ line_of end_fields) }
{
    line.word(b"end")?;
    line.end()
}

// The text of a yard of truck lines with these arrivals.
fn write_rows(
    alloc: Global,
    instance: &Instance,
    yard: &Yard,
    lines: &[TruckLine],
    arrivals: &[Arrival],
    log: &[Event],
) -> Result<Vec<u8>, NoMemory>
    requires over { IsOver instance.now lines.now yard.now.schedule }
    requires exist { All (TruckExists instance.now) lines.now }
    requires arrivals { All (λ (a : Arrival). a.line < length lines.now) arrivals.now }
    requires log { EventsExist lines.now log.now }
    ensures { IfOk result (λ text. text.items
        ≡ lines_of (yard_rows instance.now (routes_of lines.now yard.now.schedule) lines.now arrivals.now log.now)) }
{
    let mut line = Line::new(alloc)?;
    write_count(&mut line, lines.len())?;
    write_sheets(&mut line, instance, yard, lines, arrivals)?;
    write_events(&mut line, instance, lines, log)?;
    write_end(&mut line)?;
    Ok(line.into_bytes())
}

// The text of a yard of truck lines.
fn write_lines(
    alloc: Global,
    instance: &Instance,
    yard: &Yard,
    lines: &[TruckLine],
    log: &[Event],
) -> Result<Vec<u8>, NoMemory>
    requires over { IsOver instance.now lines.now yard.now.schedule }
    requires exist { All (TruckExists instance.now) lines.now }
    requires log { EventsExist lines.now log.now }
    ensures { IfOk result
        (λ text. IsYardText instance.now (routes_of lines.now yard.now.schedule) lines.now log.now text.items) }
{
    let arrivals = by_moment(alloc, instance, lines)?;
    write_rows(alloc, instance, yard, lines, arrivals.as_slice(), log)
}

/// The text of a yard: the terminals' sheets of a plan, and a log of events.
///
/// Each line ends with a line feed, and its fields are joined by commas. Numbers are decimal
/// without leading zeros, and names stand without quotes. The lines are `yard,LINES`, with the
/// number of truck lines; the sheets, by terminal; the log in its order, a departure as
/// `departs,FROM,TO,DEPART` and an arrival as `arrives,FROM,TO,DEPART`; and `end`. A sheet has the
/// truck lines that leave the terminal, by number, as `out,TERMINAL,TO,DEPART,TRUCKS`, each followed
/// by its freight as `load,SHIPMENT`, by shipment; and then those that enter it, by arrival and then
/// by number, as `in,TERMINAL,FROM,ARRIVE`.
///
/// The events have to be of truck lines of the plan.
///
/// It takes time that grows with the text and with the truck lines times the terminals, but for two
/// sorts of the plan's legs and one of the arrivals.
///
/// # Errors
/// `NoMemory` only where no memory is found.
pub fn write(
    alloc: Global,
    instance: &Instance,
    plan: &Plan,
    log: &[Event],
) -> Result<Vec<u8>, NoMemory>
    requires plan { IsPlan instance.now 1 plan.now }
    requires log { (lines : List TruckLine) → AreTruckLines instance.now plan.now lines
        → EventsExist lines log.now }
    ensures { IfOk result (λ text. (lines : List TruckLine)
        → AreTruckLines instance.now plan.now lines
        → IsYardText instance.now plan.now lines log.now text.items) }
{
    // An instance that was read is known to be valid, so the lines are few.
    let _known = instance.arcs();
    let lines = trucks(alloc, instance, plan)?;
    let yard = Yard::new(alloc, instance, plan)?;
    write_lines(alloc, instance, &yard, lines.as_slice(), log)
}
