//! Whether begins and turns are a roster.
ghost use Rattle.std.specs.Prelude.{ℕ, ◌≡◌, ◌+◌, ◌-◌, ◌<◌, ◌≤◌, ◌↔◌, All, IfOk, IsTrue, length, map, slice_index, slice_set};
ghost use Rattle.fp_timetable.specs.declared.lines.TruckLine.{TruckLine};
ghost use Rattle.fp_timetable.specs.Lines.{TruckExists};
ghost use Rattle.fp_fleet.specs.Counts.{begin_count, into_count};
ghost use Rattle.fp_fleet.specs.Fits.{BeginsFit, TurnMeets, TurnsFit};
ghost use Rattle.fp_fleet.specs.Fleets.{AreRoster};
ghost use Rattle.fp_fleet.specs.Rosters.{CanTurn};

use crate::NoMemory;
use crate::arrivals::arrival_time;
use crate::fleets::{Begin, Turn};
use fp_model::Instance;
use fp_timetable::TruckLine;
use std::alloc::Global;

// The trucks of each line.
pub(crate) fn line_trucks(alloc: Global, lines: &[TruckLine]) -> Result<Vec<u128>, NoMemory>
    ensures { IfOk result (λ trucks. trucks.items ≡ map (λ (t : TruckLine). t.trucks) lines.now) }
{
    lines.iter().map(|line| line.trucks).collect(alloc)
}

// Takes trucks off those of a line, where it exists and has as many.
fn take(trucks: &mut [u128], line: u32, count: u128) -> bool
    ensures fits { IsTrue result
        ↔ ((line < length trucks.old) × (count ≤ slice_index trucks.old line)) }
    ensures taken { IsTrue result
        → (trucks.new ≡ slice_set trucks.old line (slice_index trucks.old line - count)) }
{
    let place = line as usize;
    if place >= trucks.len() || trucks[place] < count {
        return false;
    }
    trucks[place] -= count;
    true
}

// Takes the trucks of begins off those that lines lack, where these are enough.
fn take_begins(lacking: &mut [u128], begins: &[Begin]) -> bool
    ensures fit { IsTrue result ↔ BeginsFit lacking.old begins.now }
    ensures taken { IsTrue result
        → ((m : ℕ) → m < length lacking.old
        → slice_index lacking.new m + begin_count begins.now m ≡ slice_index lacking.old m) }
{
    for begin in begins {
        if !take(lacking, begin.line, begin.count) {
            return false;
        }
    }
    true
}

// Whether trucks of one line can run another next.
fn can_turn(instance: &Instance, before: &TruckLine, after: &TruckLine) -> bool
    requires before { TruckExists instance.now before.now }
    requires after { TruckExists instance.now after.now }
    ensures { IsTrue result ↔ CanTurn instance.now before.now after.now }
{
    instance.arc(before.arc).to == instance.arc(after.arc).from
        && arrival_time(instance, before) <= u64::from(after.depart)
}

// Whether a turn is of lines that exist, and its trucks can turn.
fn meets(instance: &Instance, lines: &[TruckLine], turn: &Turn) -> bool
    requires { All (TruckExists instance.now) lines.now }
    ensures { IsTrue result ↔ TurnMeets instance.now lines.now turn.now }
{
    let (before, after) = (turn.before as usize, turn.after as usize);
    before < lines.len()
        && after < lines.len()
        && (turn.count == 0 || can_turn(instance, &lines[before], &lines[after]))
}

// Takes the trucks of turns off those that lines lack and off those that are idle after lines,
// where these are enough and can turn.
fn take_turns(
    instance: &Instance,
    lines: &[TruckLine],
    lacking: &mut [u128],
    idle: &mut [u128],
    turns: &[Turn],
) -> bool
    requires exist { All (TruckExists instance.now) lines.now }
    requires lacking { length lacking.old ≡ length lines.now }
    requires idle { length idle.old ≡ length lines.now }
    ensures fit { IsTrue result ↔ TurnsFit instance.now lines.now lacking.old idle.old turns.now }
    ensures taken { IsTrue result
        → ((m : ℕ) → m < length lines.now
        → slice_index lacking.new m + into_count turns.now m ≡ slice_index lacking.old m) }
{
    for turn in turns {
        if !meets(instance, lines, turn)
            || !take(lacking, turn.after, turn.count)
            || !take(idle, turn.before, turn.count)
        {
            return false;
        }
    }
    true
}

// Whether no line lacks a truck.
fn none_lacks(lacking: &[u128]) -> bool
    ensures { IsTrue result ↔ ((m : ℕ) → m < length lacking.now → slice_index lacking.now m ≡ 0) }
{
    lacking.iter().all(|count| *count == 0)
}

// Whether begins and turns are a roster of lines that exist.
pub(crate) fn is_roster(
    alloc: Global,
    instance: &Instance,
    lines: &[TruckLine],
    begins: &[Begin],
    turns: &[Turn],
) -> Result<bool, NoMemory>
    requires { All (TruckExists instance.now) lines.now }
    ensures { IfOk result
        (λ yes. IsTrue yes ↔ AreRoster instance.now lines.now begins.now turns.now) }
{
    let mut lacking = line_trucks(alloc, lines)?;
    let mut idle = line_trucks(alloc, lines)?;
    if !take_begins(lacking.as_mut_slice(), begins) {
        return Ok(false);
    }
    let fit = take_turns(
        instance,
        lines,
        lacking.as_mut_slice(),
        idle.as_mut_slice(),
        turns,
    );
    Ok(fit && none_lacks(lacking.as_slice()))
}
