//! Windows, fastest times, verdicts and direct plans.

ghost use Rattle.std.specs.Prelude.{◌≡◌};
ghost use Rattle.fp_flatnet.specs.Belonging.{BelongsTo};

use fp_flatnet::{NoMemory, Verdict, Windows, direct, fastest, feasible, initial};
use fp_model::{Instance, Leg, Plan};
use fp_tests_examples::{LINE, instance_of};
use fp_timenodes::Points;
use std::alloc::Global;
use std::test::Fail;

// Three terminals on a line, with a hold at the second.
const HELD: &str =
    "terminal,A\nterminal,B,1\nterminal,C\narc,A,B,4,10,100,0\narc,B,C,5,10,100,0\nshipment,S1,A,C,4,0,10\n";

const HELD_TOO_LONG: &str =
    "terminal,A\nterminal,B,1\nterminal,C\narc,A,B,4,10,100,0\narc,B,C,5,10,100,0\nshipment,S1,A,C,4,0,9\n";

const IN_TIME: &str = "terminal,A\nterminal,B\narc,A,B,5,10,100,0\nshipment,S1,A,B,4,0,5\n";

const TOO_LATE: &str = "terminal,A\nterminal,B\narc,A,B,5,10,100,0\nshipment,S1,A,B,4,0,4\n";

const NO_ROUTE: &str = "terminal,A\nterminal,B\narc,A,B,5,10,100,0\nshipment,S1,B,A,4,0,5\n";

// The window of a shipment and an arc.
fn window_of(instance: &Instance, windows: &Windows, shipment: u32, arc: u32) -> Option<(u32, u32)>
    requires { BelongsTo instance.now windows.now }
{
    if shipment as usize >= instance.shipments().len() || arc as usize >= instance.arcs().len() {
        return None;
    }
    windows.window(shipment, arc)
}

// Narrows the window of a shipment and an arc to a time in it. Answers whether it did.
fn narrow_to(
    alloc: Global,
    instance: &Instance,
    windows: &mut Windows,
    shipment: u32,
    arc: u32,
    at: u32,
) -> Result<bool, NoMemory>
    requires { BelongsTo instance.now windows.old }
    ensures { BelongsTo instance.now windows.new }
{
    if shipment as usize >= instance.shipments().len() || arc as usize >= instance.arcs().len() {
        return Ok(false);
    }
    let Some((lo, hi)) = windows.window(shipment, arc) else {
        return Ok(false);
    };
    if at < lo || hi < at || windows.anchors().len() >= 100 {
        return Ok(false);
    }
    windows.narrow(alloc, shipment, arc, at, at)?;
    Ok(true)
}

// Closes the window of a shipment and an arc, where both exist.
fn close_window(instance: &Instance, windows: &mut Windows, shipment: u32, arc: u32)
    requires { BelongsTo instance.now windows.old }
    ensures { BelongsTo instance.now windows.new }
{
    if (shipment as usize) < instance.shipments().len() && (arc as usize) < instance.arcs().len() {
        windows.close(shipment, arc);
    }
}

// The fastest time of the first shipment.
fn first_fastest(alloc: Global, instance: &Instance) -> Result<Option<u32>, NoMemory> {
    if instance.shipments().is_empty() {
        return Ok(None);
    }
    fastest(alloc, instance, 0)
}

// The direct plan of an instance in which each shipment is in time.
fn direct_plan(alloc: Global, instance: &Instance) -> Result<Option<Plan>, NoMemory> {
    if feasible(alloc, instance)? != Verdict::All {
        return Ok(None);
    }
    Ok(Some(direct(alloc, instance)?))
}

// Whether a time is an initial point of one of three terminals.
fn has_point(points: &Points, terminal: u32, at: u32) -> bool
    requires { points.now.terminals ≡ 3 }
{
    terminal < 3 && points.has(terminal, at, 0)
}

#[test]
fn windows_narrowed_and_closed(rt: HostRuntime) -> Result<(), Fail> {
    let alloc = rt.alloc();
    let instance = instance_of(alloc, LINE)?;
    assert!(rt; instance.terminals().len() == 3);
    let mut windows = Windows::of(alloc, &instance)?;
    for (shipment, arc, window) in [
        (0, 0, Some((0, 0))),
        (0, 1, Some((4, 4))),
        (1, 0, None),
        (1, 1, Some((0, 3))),
    ] {
        assert!(rt; window_of(&instance, &windows, shipment, arc) == window);
    }
    assert!(rt; narrow_to(alloc, &instance, &mut windows, 1, 1, 2)?);
    assert!(rt; window_of(&instance, &windows, 1, 1) == Some((2, 2)));
    assert!(rt; windows.anchors().len() == 1);
    let points = initial(alloc, &instance, &windows)?;
    for (terminal, at, has) in [
        (0, 0, true),
        (0, 9, false),
        (1, 0, true),
        (1, 2, true),
        (1, 8, false),
        (2, 0, true),
        (2, 2, false),
        (2, 8, true),
        (2, 9, true),
    ] {
        assert!(rt; has_point(&points, terminal, at) == has);
    }
    close_window(&instance, &mut windows, 1, 1);
    assert!(rt; window_of(&instance, &windows, 1, 1) == None);
    assert!(rt; window_of(&instance, &windows, 0, 1) == Some((4, 4)));
    Ok(())
}

#[test]
fn verdicts(rt: HostRuntime) -> Result<(), Fail> {
    let alloc = rt.alloc();
    for (input, distance, in_time) in [
        (LINE, Some(9), true),
        (HELD, Some(10), true),
        (HELD_TOO_LONG, Some(10), false),
        (IN_TIME, Some(5), true),
        (TOO_LATE, Some(5), false),
        (NO_ROUTE, None, false),
    ] {
        assert!(rt; input.len() < 2000);
        let instance = instance_of(alloc, input)?;
        assert_eq!(rt; first_fastest(alloc, &instance)?, distance, "{input}");
        let verdict = if in_time {
            Verdict::All
        } else {
            Verdict::Blocked {
                shipment: 0,
                distance,
            }
        };
        assert!(rt; feasible(alloc, &instance)? == verdict, "{input}");
    }
    Ok(())
}

#[test]
fn a_direct_plan_is_held_on_its_way(rt: HostRuntime) -> Result<(), Fail> {
    let alloc = rt.alloc();
    let instance = instance_of(alloc, HELD)?;
    let plan = direct_plan(alloc, &instance)?.expect(&rt, "in time");
    let legs = [Leg { arc: 0, depart: 0 }, Leg { arc: 1, depart: 5 }];
    let route = plan.routes.first().expect(&rt, "a route");
    assert!(rt; route.as_slice() == legs.as_slice());
    Ok(())
}
