//! The lines of a plan's departures, with their trucks and loads.
ghost use Rattle.std.specs.Prelude.{ℕ, ◌≡◌, ◌+◌, ◌*◌, ◌<◌, ◌≤◌, ◌^◌, ◌↔◌, length, map, All, IfOk, IsTrue, OnErr, OnOk};
ghost use Rattle.std.specs.List.Sorted.{IsNonDecreasingBy, IsPermutation};
ghost use Rattle.fp_model.specs.Plans.{IsPlan};
ghost use Rattle.fp_model.specs.Problem.{IsValid};
ghost use Rattle.fp_timetable.specs.Lines.{AreTruckLines, TruckExists};
ghost use Rattle.fp_timetable.specs.Order.{Adds, AreMerged, EndsAt, LineExists, departure_rank, lines_from, with_trucks};

use crate::NoMemory;
use crate::leg_lines::plan_lines;
use crate::lines::{LegLine, TruckLine, rank};
use fp_model::{Instance, Plan};
use std::alloc::Global;

// The leg lines of a plan, by departure and then by arc.
fn by_departure(alloc: Global, instance: &Instance, plan: &Plan) -> Result<Vec<LegLine>, NoMemory>
    requires { IsPlan instance.now 1 plan.now }
    ensures moved { IfOk result
        (λ legs. IsPermutation (lines_from instance.now 0 plan.now) legs.items) }
    ensures sorted { IfOk result (λ legs. IsNonDecreasingBy departure_rank legs.items) }
    ensures exist { IfOk result (λ legs. All (LineExists instance.now) legs.items) }
    ensures valid { IsValid instance.now }
{
    let mut legs = plan_lines(alloc, instance, plan)?;
    legs.sort_unstable_by_key(|leg| rank(leg.depart, leg.arc));
    Ok(legs)
}

// Whether the last line is of the departure of a leg.
fn ends_at(lines: &[TruckLine], leg: &LegLine) -> bool
    ensures { IsTrue result ↔ EndsAt leg.now lines.now }
{
    let count = lines.len();
    count > 0 && lines[count - 1].depart == leg.depart && lines[count - 1].arc == leg.arc
}

// Adds a size to the departure of a leg, which is the last line's or a new one.
#[tactic(auto, using(crate::proofs::AddedLegs::adds_more, crate::proofs::AddedLegs::adds_new))]
fn add(lines: &mut Vec<TruckLine>, leg: &LegLine, size: u64) -> Result<(), NoMemory>
    requires { All (λ (t : TruckLine). t.load + size < 2 ^ 128) lines.old.items }
    ensures ok { OnOk result (Adds leg.now size lines.old.items lines.new.items) }
    ensures err { OnErr result (lines.new.items ≡ lines.old.items) }
{
    if ends_at(lines.as_slice(), leg) {
        let last = lines.len() - 1;
        lines[last].load += u128::from(size);
        return Ok(());
    }
    lines.push(TruckLine {
        arc: leg.arc,
        depart: leg.depart,
        trucks: 0,
        load: u128::from(size),
    })?;
    Ok(())
}

// The departures of legs that stand in order, each once, with their loads and no trucks yet.
fn merged(alloc: Global, instance: &Instance, legs: &[LegLine]) -> Result<Vec<TruckLine>, NoMemory>
    requires sorted { IsNonDecreasingBy departure_rank legs.now }
    requires exist { All (LineExists instance.now) legs.now }
    ensures { IfOk result (λ lines. AreMerged instance.now legs.now lines.items) }
{
    let mut lines = Vec::new(alloc);
    for leg in legs {
        add(&mut lines, leg, instance.shipment(leg.shipment).size)?;
    }
    Ok(lines)
}

// Sets the trucks of departures: as few as hold their loads.
fn set_trucks(instance: &Instance, lines: &mut [TruckLine])
    requires { All (λ (t : TruckLine). t.arc < length instance.now.arcs) lines.old }
    ensures { lines.new ≡ map (with_trucks instance.now) lines.old }
{
    for line in lines.iter_mut() {
        let capacity = instance.arc(line.arc).capacity;
        line.trucks = line.load.div_ceil(u128::from(capacity));
    }
}

/// Every distinct departure of a plan once, by departure and then by the number of its arc, with
/// its trucks and its load. `NoMemory` only where no memory is found.
pub fn trucks(alloc: Global, instance: &Instance, plan: &Plan) -> Result<Vec<TruckLine>, NoMemory>
    requires { IsPlan instance.now 1 plan.now }
    ensures lines { IfOk result (λ lines. AreTruckLines instance.now plan.now lines.items) }
    ensures exist { IfOk result (λ lines. All (TruckExists instance.now) lines.items) }
{
    let legs = by_departure(alloc, instance, plan)?;
    let mut lines = merged(alloc, instance, legs.as_slice())?;
    set_trucks(instance, lines.as_mut_slice());
    Ok(lines)
}
