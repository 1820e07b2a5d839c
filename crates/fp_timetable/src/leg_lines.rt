//! The lines of a plan's legs.
ghost use Rattle.std.specs.Prelude.{ℕ, ◌≡◌, ◌+◌, ◌<◌, ◌≤◌, ◌^◌, ◌++◌, length, map, All, IfOk, OnOk};
ghost use Rattle.std.specs.declared.alloc.Global.{Global};
ghost use Rattle.std.specs.declared.vec.Vec.{Vec};
ghost use Rattle.fp_base_lists.specs.Vectors.{lists_of};
ghost use Rattle.fp_model.specs.Plans.{IsPlan};
ghost use Rattle.fp_model.specs.Problem.{IsValid};
ghost use Rattle.fp_timetable.specs.Lines.{AreLegLines, LegExists, leg_line, routes_from};
ghost use Rattle.fp_timetable.specs.Order.{ArriveWithin, lines_from};

use crate::NoMemory;
use crate::lines::{LegLine, rank};
use fp_model::limits::MOST_SHIPMENTS;
use fp_model::{Instance, Leg, Plan};
use std::alloc::Global;

// Puts the lines of a route's legs at the end.
fn push_route(
    lines: &mut Vec<LegLine>,
    instance: &Instance,
    shipment: u32,
    route: &[Leg],
) -> Result<(), NoMemory>
    requires { ArriveWithin instance.now route.now }
    ensures { OnOk result
        (lines.new.items ≡ lines.old.items ++ map (leg_line instance.now shipment) route.now) }
{
    for leg in route {
        let time = instance.arc(leg.arc).time;
        lines.push(LegLine {
            shipment,
            arc: leg.arc,
            depart: leg.depart,
            arrive: leg.depart + time,
        })?;
    }
    Ok(())
}

// The lines of all legs, by shipment and then by leg.
fn all_lines(
    alloc: Global,
    instance: &Instance,
    routes: &[Vec<Leg>],
) -> Result<Vec<LegLine>, NoMemory>
    requires few { length routes.now ≤ MOST_SHIPMENTS }
    requires arrive { All (λ (r : Vec Leg Global). ArriveWithin instance.now r.items) routes.now }
    ensures { IfOk result (λ lines. lines.items ≡ lines_from instance.now 0 (lists_of routes.now)) }
{
    let mut lines = Vec::new(alloc);
    for (shipment, route) in routes.iter().enumerate() {
        push_route(&mut lines, instance, shipment as u32, route)?;
    }
    Ok(lines)
}

// The lines of all legs of a plan, by shipment and then by leg.
pub(crate) fn plan_lines(
    alloc: Global,
    instance: &Instance,
    plan: &Plan,
) -> Result<Vec<LegLine>, NoMemory>
    requires { IsPlan instance.now 1 plan.now }
    ensures lines { IfOk result (λ lines. lines.items ≡ lines_from instance.now 0 plan.now) }
    ensures valid { IsValid instance.now }
{
    // An instance that was read is known to be valid, so the arrivals fit.
    let _known = instance.arcs();
    all_lines(alloc, instance, plan.routes.as_slice())
}

/// Every leg of a plan once, by departure and then by the number of its shipment. `NoMemory` only
/// where no memory is found.
pub fn legs(alloc: Global, instance: &Instance, plan: &Plan) -> Result<Vec<LegLine>, NoMemory>
    requires { IsPlan instance.now 1 plan.now }
    ensures lines { IfOk result (λ lines. AreLegLines instance.now plan.now lines.items) }
    ensures routes { IfOk result
        (λ lines. routes_from lines.items 0 instance.now.shipments ≡ plan.now) }
    ensures exist { IfOk result (λ lines. All (LegExists instance.now) lines.items) }
{
    let mut lines = plan_lines(alloc, instance, plan)?;
    lines.sort_unstable_by_key(|line| rank(line.depart, line.shipment));
    Ok(lines)
}
