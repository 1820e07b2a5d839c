//! The plan that the leg lines of a certificate tell.
ghost use Rattle.std.specs.Prelude.{ℕ, ◌≡◌, ◌+◌, ◌<◌, ◌↔◌, All, AllPairs, IfOk, IsTrue, OnOk, [], length, replicate};
ghost use Rattle.fp_base_lists.specs.Vectors.{lists_of};
ghost use Rattle.fp_model.specs.Numbered.{route_at};
ghost use Rattle.fp_model.specs.Problem.{arc_at};
ghost use Rattle.fp_flatnet.specs.Tables.{windows_in};
ghost use Rattle.fp_timetable.specs.declared.lines.LegLine.{LegLine};
ghost use Rattle.fp_timetable.specs.Lines.{LegExists, route_of, routes_from};
ghost use Rattle.fp_base_lists.specs.Order.{Precedes};
ghost use Rattle.fp_certificate_rules.specs.Plans.{HasPlan, routes_of};
ghost use Rattle.fp_checker.specs.Lines.{LeavesInside};

use crate::NoMemory;
use crate::cases::Case;
use crate::rejections::{PLAN, Rejected};
use crate::rules::orders::stands_before;
use fp_flatnet::Windows;
use fp_model::{Instance, Leg, Plan, test_plan};
use fp_timetable::LegLine;
use std::alloc::Global;

// Whether leg lines stand by departure and then by shipment.
fn legs_ascend(legs: &[LegLine]) -> bool
    ensures { IsTrue result
        ↔ AllPairs (λ (k l : LegLine). Precedes k.depart k.shipment l.depart l.shipment) legs.now }
{
    for place in 1..legs.len() {
        let (first, second) = (legs[place - 1], legs[place]);
        if !stands_before(
            (first.depart, first.shipment),
            (second.depart, second.shipment),
        ) {
            return false;
        }
    }
    true
}

// Whether each leg arrives a travel time after it left.
fn arrive_in_time(instance: &Instance, legs: &[LegLine]) -> bool
    requires { All (LegExists instance.now) legs.now }
    ensures { IsTrue result
        ↔ All (λ (l : LegLine). l.arrive ≡ l.depart + (arc_at instance.now l.arc).time) legs.now }
{
    for leg in legs {
        let time = instance.arc(leg.arc).time;
        if u64::from(leg.arrive) != u64::from(leg.depart) + u64::from(time) {
            return false;
        }
    }
    true
}

// Whether a leg leaves within its window.
fn leaves_inside(windows: &Windows, leg: &LegLine) -> bool
    requires shipment { leg.now.shipment < length windows.now.rows }
    requires arc { leg.now.arc < length windows.now.tails }
    ensures { IsTrue result ↔ LeavesInside (windows_in windows.now) leg.now }
{
    match windows.window(leg.shipment, leg.arc) {
        Some((lo, hi)) => lo <= leg.depart && leg.depart <= hi,
        None => false,
    }
}

// Whether all legs leave within their windows.
fn all_leave_inside(windows: &Windows, legs: &[LegLine]) -> bool
    requires shipments { All (λ (l : LegLine). l.shipment < length windows.now.rows) legs.now }
    requires arcs { All (λ (l : LegLine). l.arc < length windows.now.tails) legs.now }
    ensures { IsTrue result ↔ All (LeavesInside (windows_in windows.now)) legs.now }
{
    for leg in legs {
        if !leaves_inside(windows, leg) {
            return false;
        }
    }
    true
}

// So many routes without legs.
fn bare_routes(alloc: Global, count: usize) -> Result<Vec<Vec<Leg>>, NoMemory>
    ensures { IfOk result (λ routes. lists_of routes.items ≡ replicate count []) }
{
    let mut routes = Vec::new(alloc);
    for _route in 0..count {
        routes.push(Vec::new(alloc))?;
    }
    Ok(routes)
}

// The legs of each of so many shipments, in the order of their lines.
fn gathered_routes(alloc: Global, count: usize, legs: &[LegLine]) -> Result<Vec<Vec<Leg>>, NoMemory>
    requires { All (λ (l : LegLine). l.shipment < count) legs.now }
    ensures long { IfOk result (λ routes. length routes.items ≡ count) }
    ensures each { IfOk result (λ routes. (k : ℕ) → k < count →
        route_at (lists_of routes.items) k ≡ route_of legs.now k) }
{
    let mut routes = bare_routes(alloc, count)?;
    for line in legs {
        let route = &mut routes[line.shipment as usize];
        route.push(Leg {
            arc: line.arc,
            depart: line.depart,
        })?;
    }
    Ok(routes)
}

// For each shipment its legs, in the order of their lines.
fn legs_by_shipment(alloc: Global, instance: &Instance, legs: &[LegLine]) -> Result<Plan, NoMemory>
    requires { All (LegExists instance.now) legs.now }
    ensures { IfOk result (λ plan. plan ≡ routes_from legs.now 0 instance.now.shipments) }
{
    let routes = gathered_routes(alloc, instance.shipments().len(), legs)?;
    Ok(Plan { routes })
}

// The plan that the leg lines tell.
pub(crate) fn told_plan(alloc: Global, case: &Case<'_>) -> Result<Plan, Rejected>
    ensures plan { IfOk result (λ plan. plan ≡ routes_of case.now.problem case.now.told) }
    ensures holds { OnOk result
        (HasPlan case.now.problem (windows_in case.now.windows) case.now.told) }
    ensures part { (number : ℕ) → result ≡ Err (Rejected.Part number) →
        (number ≡ PLAN)
        × (HasPlan case.now.problem (windows_in case.now.windows) case.now.told → ⊥) }
{
    let instance = case.instance;
    let certificate = case.certificate;
    let legs = certificate.legs.as_slice();
    if !legs_ascend(legs)
        || !arrive_in_time(instance, legs)
        || !all_leave_inside(case.windows, legs)
    {
        return Err(Rejected::Part { number: PLAN });
    }
    let plan = legs_by_shipment(alloc, instance, legs)?;
    match test_plan(instance, &plan) {
        Ok(()) => Ok(plan),
        Err(_fault) => Err(Rejected::Part { number: PLAN }),
    }
}
