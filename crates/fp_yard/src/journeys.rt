//! The lines of the legs of a plan, by their numbers.
ghost use Rattle.std.specs.Prelude.{ℕ, ◌≡◌, ◌<◌, ◌^◌, true, All, AllPairs, IfOk, length, map};
ghost use Rattle.std.specs.declared.alloc.Global.{Global};
ghost use Rattle.std.specs.declared.vec.Vec.{Vec};
ghost use Rattle.fp_base_lists.specs.Order.{Precedes};
ghost use Rattle.fp_base_lists.specs.Vectors.{lists_of};
ghost use Rattle.fp_model.specs.Costs.{has_leg};
ghost use Rattle.fp_model.specs.declared.parts.Leg.{Leg};
ghost use Rattle.fp_timetable.specs.declared.lines.TruckLine.{TruckLine};
ghost use Rattle.fp_timetable.specs.Lines.{departure};
ghost use Rattle.fp_timetable.specs.Order.{rank_of};
ghost use Rattle.fp_yard.specs.Schedules.{leg_of};
ghost use Rattle.fp_yard.specs.Journeys.{AreInOrder, AreAmong};

use crate::NoMemory;
use fp_model::Leg;
use fp_timetable::TruckLine;
use std::alloc::Global;

// One number that puts departures in order by their time and then by their arc.
fn rank(depart: u32, arc: u32) -> u64
    ensures { result ≡ rank_of depart arc }
{
    u64::from(depart) * (1 << 32) + u64::from(arc)
}

// The number of the line of a leg.
fn line_number(lines: &[TruckLine], leg: Leg) -> u32
    requires order { AreInOrder lines.now }
    requires few { length lines.now < 2 ^ 32 }
    requires arcs { All (λ (t : TruckLine). t.arc < 2 ^ 32) lines.now }
    requires has { has_leg leg (map departure lines.now) ≡ true }
    ensures exists { result < length lines.now }
    ensures leg { leg_of lines.now result ≡ leg }
{
    let least = rank(leg.depart, leg.arc);
    lines.partition_point(|line| rank(line.depart, line.arc) < least) as u32
}

// The numbers of the lines of the legs of a route.
fn journey(alloc: Global, lines: &[TruckLine], route: &[Leg]) -> Result<Vec<u32>, NoMemory>
    requires order { AreInOrder lines.now }
    requires few { length lines.now < 2 ^ 32 }
    requires arcs { All (λ (t : TruckLine). t.arc < 2 ^ 32) lines.now }
    requires has { AreAmong lines.now route.now }
    ensures exist { IfOk result (λ journey. All (λ line. line < length lines.now) journey.items) }
    ensures legs { IfOk result (λ journey. map (leg_of lines.now) journey.items ≡ route.now) }
{
    let mut journey = Vec::with_capacity(alloc, route.len())?;
    for leg in route {
        journey.push(line_number(lines, *leg))?;
    }
    Ok(journey)
}

// The numbers of the lines of the legs of each route.
pub(crate) fn journeys(
    alloc: Global,
    lines: &[TruckLine],
    routes: &[Vec<Leg>],
) -> Result<Vec<Vec<u32>>, NoMemory>
    requires order { AreInOrder lines.now }
    requires few { length lines.now < 2 ^ 32 }
    requires arcs { All (λ (t : TruckLine). t.arc < 2 ^ 32) lines.now }
    requires has { All (λ (route : Vec Leg Global). AreAmong lines.now route.items) routes.now }
    ensures exist { IfOk result
        (λ journeys. All (All (λ line. line < length lines.now)) (lists_of journeys.items)) }
    ensures legs { IfOk result
        (λ journeys. map (map (leg_of lines.now)) (lists_of journeys.items) ≡ lists_of routes.now) }
{
    let mut journeys = Vec::with_capacity(alloc, routes.len())?;
    for route in routes {
        journeys.push(journey(alloc, lines, route)?)?;
    }
    Ok(journeys)
}
