//! Whether a fleet is accepted.
ghost use Rattle.std.specs.Prelude.{ℕ, ◌≡◌, ◌<◌, ◌^◌, ◌↔◌, All, IfOk, IsTrue, List, sum_by};
ghost use Rattle.fp_model.specs.Plans.{IsPlan};
ghost use Rattle.fp_timetable.specs.declared.lines.TruckLine.{TruckLine};
ghost use Rattle.fp_timetable.specs.Lines.{AreTruckLines, TruckExists};
ghost use Rattle.fp_fleet.specs.declared.fleets.Begin.{Begin};
ghost use Rattle.fp_fleet.specs.Fleets.{IsAccepted};
ghost use Rattle.fp_fleet.specs.Rosters.{NoRosterSmaller, truck_total};

use crate::NoMemory;
use crate::deficits::are_deficits;
use crate::fleets::{Begin, Fleet};
use crate::orders::{begins_ascend, turns_ascend};
use crate::rosters::is_roster;
use fp_model::{Instance, Plan};
use fp_timetable::{TruckLine, trucks};
use std::alloc::Global;

// The trucks that begin.
pub(crate) fn begin_total(begins: &[Begin]) -> u128
    requires { sum_by (λ (b : Begin). b.count) begins.now < 2 ^ 128 }
    ensures { result ≡ sum_by (λ (b : Begin). b.count) begins.now }
{
    let mut total: u128 = 0;
    for begin in begins {
        total += begin.count;
    }
    total
}

// Whether a fleet of truck lines is accepted.
fn accepts_lines(
    alloc: Global,
    instance: &Instance,
    lines: &[TruckLine],
    fleet: &Fleet,
) -> Result<bool, NoMemory>
    requires exist { All (TruckExists instance.now) lines.now }
    requires fits { truck_total lines.now < 2 ^ 128 }
    ensures { IfOk result (λ yes. IsTrue yes ↔ IsAccepted instance.now lines.now fleet.now) }
{
    let (begins, turns) = (fleet.begins.as_slice(), fleet.turns.as_slice());
    if !begins_ascend(begins) || !turns_ascend(turns) {
        return Ok(false);
    }
    let roster = is_roster(alloc, instance, lines, begins, turns)?;
    if !roster || begin_total(begins) != fleet.total {
        return Ok(false);
    }
    are_deficits(alloc, instance, lines, fleet.total, fleet.needs.as_slice())
}

/// Whether a fleet is one that no other undercuts, as its needs show.
///
/// It is true exactly where the begins stand by their lines and the turns by the lines before and
/// then by those after, each once, they are a roster of the plan's truck lines of the size `total`,
/// the needs stand by their terminals, each once, the trucks of each need are the deficit of its
/// terminal at its moment and above 0, and the needs sum to `total`. No roster of the lines is
/// smaller then. The fleet may be of any numbers: where a line or a terminal doesn't exist, or
/// where a sum passes its type, the answer is false.
///
/// It takes time that grows with the lines, the begins, the turns and the needs, but for the sort
/// in `fp_timetable::trucks`.
///
/// # Errors
/// `NoMemory` only where no memory is found.
pub fn accepts(
    alloc: Global,
    instance: &Instance,
    plan: &Plan,
    fleet: &Fleet,
) -> Result<bool, NoMemory>
    requires { IsPlan instance.now 1 plan.now }
    ensures exact { IfOk result
        (λ yes. (lines : List TruckLine) → AreTruckLines instance.now plan.now lines
        → (IsTrue yes ↔ IsAccepted instance.now lines fleet.now)) }
    ensures fewest { IfOk result
        (λ yes. IsTrue yes → (lines : List TruckLine) → AreTruckLines instance.now plan.now lines
        → NoRosterSmaller instance.now lines fleet.now.total) }
{
    // An instance that was read is known to be valid, so the sums fit.
    let _known = instance.arcs();
    let lines = trucks(alloc, instance, plan)?;
    accepts_lines(alloc, instance, lines.as_slice(), fleet)
}
