//! What each truck of a fleet runs.
ghost use Rattle.std.specs.Prelude.{ℕ, ◌≡◌, ◌<◌, ◌≤◌, ◌^◌, [], IfOk, List, length, slice_index};
ghost use Rattle.fp_base_lists.specs.Vectors.{lists_of};
ghost use Rattle.fp_model.specs.Plans.{IsPlan};
ghost use Rattle.fp_timetable.specs.declared.lines.TruckLine.{TruckLine};
ghost use Rattle.fp_timetable.specs.Lines.{AreTruckLines};
ghost use Rattle.fp_fleet.specs.DayRows.{RunsExist};
ghost use Rattle.fp_fleet.specs.Fleets.{IsAccepted};
ghost use Rattle.fp_fleet.specs.Queues.{AreQueued, IsGiven, queue_at};
ghost use Rattle.fp_fleet.specs.Rosters.{truck_total};
ghost use Rattle.fp_fleet.specs.TruckDays.{AreTold, AreTruckDays};

use crate::NoMemory;
use crate::days::{MOST_RUNS, TruckDays};
use crate::fleets::Fleet;
use crate::queues::Queues;
use fp_model::{Instance, Plan};
use fp_timetable::{TruckLine, trucks};
use std::alloc::Global;

// The trucks of all lines.
fn total_of(lines: &[TruckLine]) -> u128
    requires { truck_total lines.now < 2 ^ 128 }
    ensures { result ≡ truck_total lines.now }
{
    let mut total: u128 = 0;
    for line in lines {
        total += line.trucks;
    }
    total
}

// No truck has begun.
fn no_trucks(alloc: Global, lines: &[TruckLine]) -> Result<Queues, NoMemory>
    ensures days { IfOk result (λ q. lists_of q.days.items ≡ []) }
    ensures queues { IfOk result (λ q. length q.queues.items ≡ length lines.now) }
    ensures none { IfOk result
        (λ q. (l : ℕ) → queue_at (lists_of q.queues.items) l ≡ []) }
    ensures heads { IfOk result (λ q. length q.heads.items ≡ length lines.now) }
    ensures zero { IfOk result
        (λ q. (l : ℕ) → l < length lines.now → slice_index q.heads.items l ≡ 0) }
{
    let mut queues = Vec::new(alloc);
    for _ in 0..lines.len() {
        queues.push(Vec::new(alloc))?;
    }
    Ok(Queues {
        days: Vec::new(alloc),
        queues,
        heads: vec![in alloc; 0usize; lines.len()]?,
    })
}

// The days of the trucks of a fleet of truck lines.
fn days_of(
    alloc: Global,
    instance: &Instance,
    lines: &[TruckLine],
    fleet: &Fleet,
) -> Result<TruckDays, NoMemory>
    requires { IsGiven instance.now lines.now fleet.now }
    ensures { IfOk result (λ days. AreTruckDays instance.now lines.now fleet.now days) }
{
    let mut queues = no_trucks(alloc, lines)?;
    for place in 0..fleet.begins.len() {
        queues.begin(alloc, instance, lines, fleet, place)?;
    }
    for place in 0..fleet.turns.len() {
        queues.turn(instance, lines, fleet, place)?;
    }
    Ok(TruckDays { days: queues.days })
}

/// What each truck of a fleet runs, with the load that it carries on each run.
///
/// The fleet is one of the plan's that `accepts` accepts, as `fewest` makes it. There are as many
/// days as the fleet has trucks, so no roster of the plan's lines has fewer. From run to run a
/// truck ends at the terminal that the next line leaves, and arrives no later than that departs.
/// The trucks begin and turn as the fleet says, and each line is run by as many trucks as it has.
/// These carry its load, each some of it and no more than it holds, and at most one of them is not
/// full.
///
/// Trucks stand by their first lines. Turns are taken by the line before and then by the line
/// after, first by the truck that came to the line before first. `None` is answered exactly where
/// the trucks of all lines together are more than `MOST_RUNS`. The lines of the runs exist, so
/// `write_trucks` can be called on what is told.
///
/// It takes time and memory that grow with the lines, the begins, the turns and the runs, but for
/// the sort in `fp_timetable::trucks`.
///
/// # Errors
/// `NoMemory` only where no memory is found.
pub fn truck_days(
    alloc: Global,
    instance: &Instance,
    plan: &Plan,
    fleet: &Fleet,
) -> Result<Option<TruckDays>, NoMemory>
    requires plan { IsPlan instance.now 1 plan.now }
    requires accepted { (lines : List TruckLine) → AreTruckLines instance.now plan.now lines
        → IsAccepted instance.now lines fleet.now }
    ensures told { IfOk result (λ told. (lines : List TruckLine)
        → AreTruckLines instance.now plan.now lines → AreTold instance.now lines fleet.now told) }
    ensures exist { IfOk result (λ told. (lines : List TruckLine)
        → AreTruckLines instance.now plan.now lines → RunsExist (length lines) told) }
{
    // An instance that was read is known to be valid, so the sums fit.
    let _known = instance.arcs();
    let lines = trucks(alloc, instance, plan)?;
    if total_of(lines.as_slice()) > u128::from(MOST_RUNS) {
        return Ok(None);
    }
    Ok(Some(days_of(alloc, instance, lines.as_slice(), fleet)?))
}
