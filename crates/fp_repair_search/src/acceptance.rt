//! Whether a plan is taken: one within the windows that costs no more than another one.

ghost use Rattle.std.specs.Prelude.{◌≡◌, ◌≤◌, ◌↔◌, IfOk, IsTrue, IsSomeAnd};
ghost use Rattle.std.specs.Option.{option_map};
ghost use Rattle.fp_model.specs.Costs.{cost as cost_of};
ghost use Rattle.fp_model.specs.Plans.{IsPlan};
ghost use Rattle.fp_flatnet.specs.Belonging.{BelongsTo};
ghost use Rattle.fp_flatnet.specs.Tables.{windows_in};
ghost use Rattle.fp_flatnet.specs.Windows.{IsInside, LiesWithin, PlanLiesWithin};

use crate::NoMemory;
use fp_flatnet::Windows;
use fp_model::{Instance, Leg, Plan, test_plan};
use fp_timetable::cost;
use std::alloc::Global;

// The window of a shipment and an arc, and none where there is no such shipment or arc.
fn window_of(instance: &Instance, windows: &Windows, shipment: u32, arc: u32) -> Option<(u32, u32)>
    requires { BelongsTo instance.now windows.now }
    ensures { result ≡ option_map (λ w. (w.lo, w.hi)) (windows_in windows.now shipment arc) }
{
    if shipment as usize >= instance.shipments().len() || arc as usize >= instance.arcs().len() {
        return None;
    }
    windows.window(shipment, arc)
}

// Whether a leg of a shipment leaves inside its window.
fn leaves_inside(instance: &Instance, windows: &Windows, shipment: u32, leg: Leg) -> bool
    requires { BelongsTo instance.now windows.now }
    ensures { IsTrue result ↔ IsSomeAnd (windows_in windows.now shipment leg.arc) (IsInside 1 leg.depart) }
{
    match window_of(instance, windows, shipment, leg.arc) {
        Some((lo, hi)) => lo <= leg.depart && leg.depart <= hi,
        None => false,
    }
}

// Whether a route of a shipment lies within the windows.
fn route_lies_within(instance: &Instance, windows: &Windows, shipment: u32, route: &[Leg]) -> bool
    requires { BelongsTo instance.now windows.now }
    ensures { IsTrue result ↔ LiesWithin (windows_in windows.now) 1 shipment route.now }
{
    for leg in route {
        if !leaves_inside(instance, windows, shipment, *leg) {
            return false;
        }
    }
    true
}

// Whether a plan lies within the windows.
fn lies_within(instance: &Instance, windows: &Windows, plan: &Plan) -> bool
    requires belongs { BelongsTo instance.now windows.now }
    requires plan { IsPlan instance.now 1 plan.now }
    ensures { IsTrue result ↔ PlanLiesWithin (windows_in windows.now) 1 plan.now }
{
    for (shipment, route) in plan.routes.iter().enumerate() {
        if !route_lies_within(instance, windows, shipment as u32, route) {
            return false;
        }
    }
    true
}

// Whether legs are a plan within the windows that costs no more than a plan.
pub(crate) fn is_no_dearer(
    alloc: Global,
    instance: &Instance,
    windows: &Windows,
    found: &Plan,
    start: &Plan,
) -> Result<bool, NoMemory>
    requires belongs { BelongsTo instance.now windows.now }
    requires start { IsPlan instance.now 1 start.now }
    ensures { IfOk result (λ taken. IsTrue taken ↔ (IsPlan instance.now 1 found.now
        × PlanLiesWithin (windows_in windows.now) 1 found.now
        × (cost_of instance.now found.now ≤ cost_of instance.now start.now))) }
{
    if test_plan(instance, found).is_err() {
        return Ok(false);
    }
    if !lies_within(instance, windows, found) {
        return Ok(false);
    }
    let new = cost(alloc, instance, found)?;
    let old = cost(alloc, instance, start)?;
    Ok(new <= old)
}
