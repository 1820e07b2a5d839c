//! The text of a fleet with what each of its trucks runs.
ghost use Rattle.std.specs.Prelude.{ℕ, ◌≡◌, ◌+◌, ◌<◌, ◌++◌, All, IfOk, List, OnOk, false, length, map};
ghost use Rattle.fp_base_lists.specs.Vectors.{lists_of};
ghost use Rattle.fp_records.specs.Text.{line_of, lines_of};
ghost use Rattle.fp_model.specs.Plans.{IsPlan};
ghost use Rattle.fp_timetable.specs.declared.lines.TruckLine.{TruckLine};
ghost use Rattle.fp_timetable.specs.Lines.{AreTruckLines, TruckExists};
ghost use Rattle.fp_fleet.specs.DayRows.{RunExists, RunsExist, day_rows, fleet_day_rows, many_fields, run_fields, told_rows, truck_fields, truck_rows};
ghost use Rattle.fp_fleet.specs.Rows.{IsShowable};

use crate::NoMemory;
use crate::arrivals::arrival_time;
use crate::days::{Run, TruckDays};
use crate::fleets::Fleet;
use crate::writing::{
    write_begins, write_end, write_from, write_needs, write_to, write_total, write_turns,
};
use fp_model::{Instance, Plan};
use fp_records::Line;
use fp_timetable::{TruckLine, trucks};
use std::alloc::Global;

// Adds `truck` and the number of a truck.
fn write_number(line: &mut Line, number: u64) -> Result<(), NoMemory>
    requires begun { line.old.begun ≡ false }
    ensures text { OnOk result (line.new.text ≡ line.old.text ++ line_of (truck_fields number)) }
    ensures ended { OnOk result (line.new.begun ≡ false) }
{
    line.word(b"truck")?;
    line.number(u128::from(number))?;
    line.end()
}

// Adds the line of a run.
fn write_run(
    line: &mut Line,
    instance: &Instance,
    lines: &[TruckLine],
    run: &Run,
) -> Result<(), NoMemory>
    requires begun { line.old.begun ≡ false }
    requires exist { All (TruckExists instance.now) lines.now }
    requires exists { RunExists (length lines.now) run.now }
    ensures text { OnOk result
        (line.new.text ≡ line.old.text ++ line_of (run_fields instance.now lines.now run.now)) }
    ensures ended { OnOk result (line.new.begun ≡ false) }
{
    line.word(b"run")?;
    let truck_line = &lines[run.line as usize];
    write_from(line, instance, truck_line)?;
    write_to(line, instance, truck_line)?;
    line.number(u128::from(truck_line.depart))?;
    line.number(u128::from(arrival_time(instance, truck_line)))?;
    line.number(run.load)?;
    line.end()
}

// Adds the lines of runs.
fn write_runs(
    line: &mut Line,
    instance: &Instance,
    lines: &[TruckLine],
    runs: &[Run],
) -> Result<(), NoMemory>
    requires begun { line.old.begun ≡ false }
    requires exist { All (TruckExists instance.now) lines.now }
    requires runs { All (RunExists (length lines.now)) runs.now }
    ensures text { OnOk result (line.new.text
        ≡ line.old.text ++ lines_of (map (run_fields instance.now lines.now) runs.now)) }
    ensures ended { OnOk result (line.new.begun ≡ false) }
{
    for run in runs {
        write_run(line, instance, lines, run)?;
    }
    Ok(())
}

// Adds the lines of a truck.
fn write_day(
    line: &mut Line,
    instance: &Instance,
    lines: &[TruckLine],
    number: u64,
    day: &[Run],
) -> Result<(), NoMemory>
    requires begun { line.old.begun ≡ false }
    requires exist { All (TruckExists instance.now) lines.now }
    requires runs { All (RunExists (length lines.now)) day.now }
    ensures text { OnOk result (line.new.text
        ≡ line.old.text ++ lines_of (day_rows instance.now lines.now number day.now)) }
    ensures ended { OnOk result (line.new.begun ≡ false) }
{
    write_number(line, number)?;
    write_runs(line, instance, lines, day)
}

// Adds the lines of trucks, which are numbered from 1.
fn write_days(
    line: &mut Line,
    instance: &Instance,
    lines: &[TruckLine],
    days: &[Vec<Run>],
) -> Result<(), NoMemory>
    requires begun { line.old.begun ≡ false }
    requires exist { All (TruckExists instance.now) lines.now }
    requires runs { All (All (RunExists (length lines.now))) (lists_of days.now) }
    ensures text { OnOk result (line.new.text
        ≡ line.old.text ++ lines_of (truck_rows instance.now lines.now 1 (lists_of days.now))) }
    ensures ended { OnOk result (line.new.begun ≡ false) }
{
    for place in 0..days.len() {
        write_day(
            line,
            instance,
            lines,
            place as u64 + 1,
            days[place].as_slice(),
        )?;
    }
    Ok(())
}

// Adds that there are too many trucks.
fn write_many(line: &mut Line) -> Result<(), NoMemory>
    requires begun { line.old.begun ≡ false }
    ensures text { OnOk result (line.new.text ≡ line.old.text ++ line_of many_fields) }
    ensures ended { OnOk result (line.new.begun ≡ false) }
{
    line.word(b"trucks")?;
    line.word(b"many")?;
    line.end()
}

// Adds the lines of trucks, or that there are too many.
fn write_told(
    line: &mut Line,
    instance: &Instance,
    lines: &[TruckLine],
    told: &Option<TruckDays>,
) -> Result<(), NoMemory>
    requires begun { line.old.begun ≡ false }
    requires exist { All (TruckExists instance.now) lines.now }
    requires runs { RunsExist (length lines.now) told.now }
    ensures text { OnOk result (line.new.text
        ≡ line.old.text ++ lines_of (told_rows instance.now lines.now told.now)) }
    ensures ended { OnOk result (line.new.begun ≡ false) }
{
    match told {
        Some(days) => write_days(line, instance, lines, days.days.as_slice()),
        None => write_many(line),
    }
}

// The text of a fleet of truck lines, with what each truck runs.
fn write_all_lines(
    alloc: Global,
    instance: &Instance,
    lines: &[TruckLine],
    fleet: &Fleet,
    told: &Option<TruckDays>,
) -> Result<Vec<u8>, NoMemory>
    requires exist { All (TruckExists instance.now) lines.now }
    requires showable { IsShowable instance.now lines.now fleet.now }
    requires runs { RunsExist (length lines.now) told.now }
    ensures { IfOk result (λ text. text.items
        ≡ lines_of (fleet_day_rows instance.now lines.now fleet.now told.now)) }
{
    let mut line = Line::new(alloc)?;
    write_total(&mut line, fleet.total)?;
    write_needs(&mut line, instance, fleet.needs.as_slice())?;
    write_begins(&mut line, instance, lines, fleet.begins.as_slice())?;
    write_turns(&mut line, instance, lines, fleet.turns.as_slice())?;
    write_told(&mut line, instance, lines, told)?;
    write_end(&mut line)?;
    Ok(line.into_bytes())
}

/// The text of a fleet of a plan, with what each truck runs.
///
/// It is the text that `write` writes, with further lines before `end`: for each truck
/// `truck,NUMBER`, from 1 on, and then `run,FROM,TO,DEPART,ARRIVE,LOAD` for each of its runs, in
/// their order. Where `truck_days` told none they are the one line `trucks,many`.
///
/// The terminals of the needs have to be the instance's, and the lines of the begins, the turns and
/// the runs truck lines of the plan.
///
/// # Errors
/// `NoMemory` only where no memory is found.
pub fn write_trucks(
    alloc: Global,
    instance: &Instance,
    plan: &Plan,
    fleet: &Fleet,
    told: &Option<TruckDays>,
) -> Result<Vec<u8>, NoMemory>
    requires plan { IsPlan instance.now 1 plan.now }
    requires showable { (lines : List TruckLine) → AreTruckLines instance.now plan.now lines
        → IsShowable instance.now lines fleet.now }
    requires runs { (lines : List TruckLine) → AreTruckLines instance.now plan.now lines
        → RunsExist (length lines) told.now }
    ensures { IfOk result (λ text. (lines : List TruckLine)
        → AreTruckLines instance.now plan.now lines
        → text.items ≡ lines_of (fleet_day_rows instance.now lines fleet.now told.now)) }
{
    let lines = trucks(alloc, instance, plan)?;
    write_all_lines(alloc, instance, lines.as_slice(), fleet, told)
}
