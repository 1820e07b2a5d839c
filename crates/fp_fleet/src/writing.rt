//! The text of a fleet.
ghost use Rattle.std.specs.Prelude.{◌≡◌, ◌<◌, ◌++◌, All, IfOk, List, OnOk, false, length, map};
ghost use Rattle.fp_records.specs.Text.{line_of, lines_of, with_field};
ghost use Rattle.fp_model.specs.Plans.{IsPlan};
ghost use Rattle.fp_timetable.specs.declared.lines.TruckLine.{TruckLine};
ghost use Rattle.fp_timetable.specs.Lines.{AreTruckLines, TruckExists};
ghost use Rattle.fp_fleet.specs.declared.fleets.Need.{Need};
ghost use Rattle.fp_fleet.specs.Fleets.{BeginExists, TurnExists};
ghost use Rattle.fp_fleet.specs.Rosters.{head_of, line_at, tail_of};
ghost use Rattle.fp_fleet.specs.Rows.{IsShowable, begin_fields, end_fields, fleet_fields, fleet_rows, name_of, need_fields, turn_fields};

use crate::NoMemory;
use crate::fleets::{Begin, Fleet, Need, Turn};
use fp_model::{Instance, Plan};
use fp_records::Line;
use fp_timetable::{TruckLine, trucks};
use std::alloc::Global;

// Adds `fleet` and how many trucks there are.
pub(crate) fn write_total(line: &mut Line, total: u128) -> Result<(), NoMemory>
    requires begun { line.old.begun ≡ false }
    ensures text { OnOk result (line.new.text ≡ line.old.text ++ line_of (fleet_fields total)) }
    ensures ended { OnOk result (line.new.begun ≡ false) }
{
    line.word(b"fleet")?;
    line.number(total)?;
    line.end()
}

// Adds `end`.
pub(crate) fn write_end(line: &mut Line) -> Result<(), NoMemory>
    requires begun { line.old.begun ≡ false }
    ensures text { OnOk result (line.new.text ≡ line.old.text ++ line_of end_fields) }
{
    line.word(b"end")?;
    line.end()
}

// Adds the name of a terminal.
fn write_name(line: &mut Line, instance: &Instance, terminal: u32) -> Result<(), NoMemory>
    requires { terminal < length instance.now.terminals }
    ensures { OnOk result (line.new ≡ with_field line.old (name_of instance.now terminal)) }
{
    line.word(instance.terminals()[terminal as usize].bytes())
}

// Adds the name of the terminal that a truck line leaves.
pub(crate) fn write_from(
    line: &mut Line,
    instance: &Instance,
    run: &TruckLine,
) -> Result<(), NoMemory>
    requires { TruckExists instance.now run.now }
    ensures { OnOk result (line.new ≡ with_field line.old (name_of instance.now (tail_of instance.now run.now))) }
{
    write_name(line, instance, instance.arc(run.arc).from)
}

// Adds the name of the terminal where a truck line ends.
pub(crate) fn write_to(
    line: &mut Line,
    instance: &Instance,
    run: &TruckLine,
) -> Result<(), NoMemory>
    requires { TruckExists instance.now run.now }
    ensures { OnOk result (line.new ≡ with_field line.old (name_of instance.now (head_of instance.now run.now))) }
{
    write_name(line, instance, instance.arc(run.arc).to)
}

// Adds the line of a need.
fn write_need(line: &mut Line, instance: &Instance, need: &Need) -> Result<(), NoMemory>
    requires begun { line.old.begun ≡ false }
    requires exists { need.now.terminal < length instance.now.terminals }
    ensures text { OnOk result (line.new.text ≡ line.old.text ++ line_of (need_fields instance.now need.now)) }
    ensures ended { OnOk result (line.new.begun ≡ false) }
{
    line.word(b"need")?;
    write_name(line, instance, need.terminal)?;
    line.number(need.trucks)?;
    line.number(u128::from(need.at))?;
    line.end()
}

// Adds the lines of needs.
pub(crate) fn write_needs(
    line: &mut Line,
    instance: &Instance,
    needs: &[Need],
) -> Result<(), NoMemory>
    requires begun { line.old.begun ≡ false }
    requires exist { All (λ (n : Need). n.terminal < length instance.now.terminals) needs.now }
    ensures text { OnOk result
        (line.new.text ≡ line.old.text ++ lines_of (map (need_fields instance.now) needs.now)) }
    ensures ended { OnOk result (line.new.begun ≡ false) }
{
    for need in needs {
        write_need(line, instance, need)?;
    }
    Ok(())
}

// Adds the line of a begin.
fn write_begin(
    line: &mut Line,
    instance: &Instance,
    lines: &[TruckLine],
    begin: &Begin,
) -> Result<(), NoMemory>
    requires begun { line.old.begun ≡ false }
    requires exist { All (TruckExists instance.now) lines.now }
    requires exists { BeginExists (length lines.now) begin.now }
    ensures text { OnOk result
        (line.new.text ≡ line.old.text ++ line_of (begin_fields instance.now lines.now begin.now)) }
    ensures ended { OnOk result (line.new.begun ≡ false) }
{
    line.word(b"start")?;
    let run = &lines[begin.line as usize];
    write_from(line, instance, run)?;
    write_to(line, instance, run)?;
    line.number(u128::from(run.depart))?;
    line.number(begin.count)?;
    line.end()
}

// Adds the lines of begins.
pub(crate) fn write_begins(
    line: &mut Line,
    instance: &Instance,
    lines: &[TruckLine],
    begins: &[Begin],
) -> Result<(), NoMemory>
    requires begun { line.old.begun ≡ false }
    requires exist { All (TruckExists instance.now) lines.now }
    requires begins { All (BeginExists (length lines.now)) begins.now }
    ensures text { OnOk result (line.new.text
        ≡ line.old.text ++ lines_of (map (begin_fields instance.now lines.now) begins.now)) }
    ensures ended { OnOk result (line.new.begun ≡ false) }
{
    for begin in begins {
        write_begin(line, instance, lines, begin)?;
    }
    Ok(())
}

// Adds the line of a turn.
fn write_turn(
    line: &mut Line,
    instance: &Instance,
    lines: &[TruckLine],
    turn: &Turn,
) -> Result<(), NoMemory>
    requires begun { line.old.begun ≡ false }
    requires exist { All (TruckExists instance.now) lines.now }
    requires exists { TurnExists (length lines.now) turn.now }
    ensures text { OnOk result
        (line.new.text ≡ line.old.text ++ line_of (turn_fields instance.now lines.now turn.now)) }
    ensures ended { OnOk result (line.new.begun ≡ false) }
{
    line.word(b"turn")?;
    let (before, after) = (&lines[turn.before as usize], &lines[turn.after as usize]);
    write_from(line, instance, before)?;
    write_to(line, instance, before)?;
    line.number(u128::from(before.depart))?;
    write_to(line, instance, after)?;
    line.number(u128::from(after.depart))?;
    line.number(turn.count)?;
    line.end()
}

// Adds the lines of turns.
pub(crate) fn write_turns(
    line: &mut Line,
    instance: &Instance,
    lines: &[TruckLine],
    turns: &[Turn],
) -> Result<(), NoMemory>
    requires begun { line.old.begun ≡ false }
    requires exist { All (TruckExists instance.now) lines.now }
    requires turns { All (TurnExists (length lines.now)) turns.now }
    ensures text { OnOk result (line.new.text
        ≡ line.old.text ++ lines_of (map (turn_fields instance.now lines.now) turns.now)) }
    ensures ended { OnOk result (line.new.begun ≡ false) }
{
    for turn in turns {
        write_turn(line, instance, lines, turn)?;
    }
    Ok(())
}

// The text of a fleet of truck lines.
fn write_lines(
    alloc: Global,
    instance: &Instance,
    lines: &[TruckLine],
    fleet: &Fleet,
) -> Result<Vec<u8>, NoMemory>
    requires exist { All (TruckExists instance.now) lines.now }
    requires showable { IsShowable instance.now lines.now fleet.now }
    ensures { IfOk result
        (λ text. text.items ≡ lines_of (fleet_rows instance.now lines.now fleet.now)) }
{
    let mut line = Line::new(alloc)?;
    write_total(&mut line, fleet.total)?;
    write_needs(&mut line, instance, fleet.needs.as_slice())?;
    write_begins(&mut line, instance, lines, fleet.begins.as_slice())?;
    write_turns(&mut line, instance, lines, fleet.turns.as_slice())?;
    write_end(&mut line)?;
    Ok(line.into_bytes())
}

/// The text of a fleet of a plan.
///
/// Each line ends with a line feed, and its fields are joined by commas. Numbers are decimal
/// without leading zeros, and names stand without quotes. The lines are `fleet,TOTAL`, then
/// `need,TERMINAL,TRUCKS,AT` for each need, `start,FROM,TO,DEPART,COUNT` for each begin,
/// `turn,FROM,VIA,DEPART,TO,DEPART,COUNT` for each turn, with the departure of the line before and
/// then of the line after, and `end`.
///
/// The terminals of the needs have to be the instance's, and the lines of the begins and the turns
/// truck lines of the plan.
///
/// # Errors
/// `NoMemory` only where no memory is found.
pub fn write(
    alloc: Global,
    instance: &Instance,
    plan: &Plan,
    fleet: &Fleet,
) -> Result<Vec<u8>, NoMemory>
    requires plan { IsPlan instance.now 1 plan.now }
    requires showable { (lines : List TruckLine) → AreTruckLines instance.now plan.now lines
        → IsShowable instance.now lines fleet.now }
    ensures { IfOk result (λ text. (lines : List TruckLine)
        → AreTruckLines instance.now plan.now lines
        → text.items ≡ lines_of (fleet_rows instance.now lines fleet.now)) }
{
    let lines = trucks(alloc, instance, plan)?;
    write_lines(alloc, instance, lines.as_slice(), fleet)
}
