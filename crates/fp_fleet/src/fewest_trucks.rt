//! The fewest trucks that run the lines of a plan.
ghost use Rattle.std.specs.Prelude.{ℕ, ◌≡◌, ◌≤◌, ◌<◌, ◌^◌, IfOk, List, length};
ghost use Rattle.fp_model.specs.Plans.{IsPlan};
ghost use Rattle.fp_timetable.specs.declared.lines.TruckLine.{TruckLine};
ghost use Rattle.fp_timetable.specs.Lines.{AreTruckLines};
ghost use Rattle.fp_fleet.specs.Arrivals.{AreArrivals};
ghost use Rattle.fp_fleet.specs.Fleets.{IsFewest};
ghost use Rattle.fp_fleet.specs.Rows.{IsShowable};
ghost use Rattle.fp_fleet.specs.Sweeps.{AreServed, IsAssigned, IsTimetable, turn_rank};

use crate::NoMemory;
use crate::acceptance::begin_total;
use crate::arrivals::{Arrival, by_arrival, heads_of};
use crate::fleets::{Fleet, Turn};
use crate::needs::needs_of;
use crate::rosters::line_trucks;
use crate::sweeps::Sweep;
use fp_model::{Instance, Plan};
use fp_timetable::{TruckLine, trucks};
use std::alloc::Global;

// A sweep that has served no line.
fn sweep_before(
    alloc: Global,
    instance: &Instance,
    lines: &[TruckLine],
    arrivals: &[Arrival],
) -> Result<Sweep, NoMemory>
    requires timetable { IsTimetable instance.now lines.now }
    requires arrivals { AreArrivals instance.now lines.now arrivals.now }
    ensures { IfOk result (λ s. AreServed instance.now lines.now arrivals.now 0 s.begins.items
        s.turns.items s.idle.items s.heads.items) }
{
    let terminals = instance.terminals().len() as u32;
    Ok(Sweep {
        begins: Vec::new(alloc),
        turns: Vec::new(alloc),
        idle: line_trucks(alloc, lines)?,
        heads: heads_of(alloc, terminals, arrivals)?,
    })
}

// A sweep that has served all lines.
fn swept(alloc: Global, instance: &Instance, lines: &[TruckLine]) -> Result<Sweep, NoMemory>
    requires { IsTimetable instance.now lines.now }
    ensures { IfOk result
        (λ s. IsAssigned instance.now lines.now s.begins.items s.turns.items) }
{
    let arrivals = by_arrival(alloc, instance, lines)?;
    let mut sweep = sweep_before(alloc, instance, lines, arrivals.as_slice())?;
    for number in 0..lines.len() {
        sweep.serve(instance, lines, arrivals.as_slice(), number as u32)?;
    }
    Ok(sweep)
}

// One number for the lines of a turn, in whose order the line before counts first.
fn rank(turn: &Turn) -> u64
    ensures { result ≡ turn_rank turn.now }
{
    u64::from(turn.before) * (1 << 32) + u64::from(turn.after)
}

// The fewest trucks that run lines.
fn fewest_of(alloc: Global, instance: &Instance, lines: &[TruckLine]) -> Result<Fleet, NoMemory>
    requires { IsTimetable instance.now lines.now }
    ensures { IfOk result (λ fleet. IsFewest instance.now lines.now fleet) }
{
    let Sweep {
        begins,
        mut turns,
        ..
    } = swept(alloc, instance, lines)?;
    turns.sort_unstable_by_key(|turn| rank(turn));
    let needs = needs_of(alloc, instance, lines, begins.as_slice())?;
    Ok(Fleet {
        total: begin_total(begins.as_slice()),
        needs,
        begins,
        turns,
    })
}

/// The fewest trucks that run the truck lines of a plan, with what proves that none are fewer.
///
/// The begins and the turns are a roster of the plan's truck lines of the size `total`, with counts
/// above 0, by their lines. The needs have, by terminal, each terminal whose greatest deficit is
/// above 0, with that deficit and the least moment that has it. They sum to `total`, so `accepts`
/// is true of the fleet. Which of several rosters of that size it is, no clause says: trucks that
/// arrived first turn first. Its terminals and lines exist, so `write` can be called on it.
///
/// It takes time that grows with the lines, but for a sort of their arrivals and one of the turns.
///
/// # Errors
/// `NoMemory` only where no memory is found.
pub fn fewest(alloc: Global, instance: &Instance, plan: &Plan) -> Result<Fleet, NoMemory>
    requires { IsPlan instance.now 1 plan.now }
    ensures fewest { IfOk result (λ fleet. (lines : List TruckLine)
        → AreTruckLines instance.now plan.now lines → IsFewest instance.now lines fleet) }
    ensures showable { IfOk result (λ fleet. (lines : List TruckLine)
        → AreTruckLines instance.now plan.now lines → IsShowable instance.now lines fleet) }
{
    // An instance that was read is known to be valid, so the sums fit.
    let _known = instance.arcs();
    let lines = trucks(alloc, instance, plan)?;
    fewest_of(alloc, instance, lines.as_slice())
}
