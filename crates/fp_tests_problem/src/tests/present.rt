//! A day that is under way: what its records tell, what is left of it, and where a plan of that starts.

ghost use Rattle.std.specs.Prelude.{◌<◌, ◌≤◌, length, IfOk};
ghost use Rattle.fp_flatnet.specs.Belonging.{BelongsTo};
ghost use Rattle.fp_replan.specs.declared.kept.TheConstants.{MOST_KEPT};
ghost use Rattle.fp_replan_present.specs.Days.{AreTracked, Day};
ghost use Rattle.fp_replan_present.specs.Parts.{CanGoOn};

use fp_flatnet::Windows;
use fp_model::{Instance, Leg, Plan};
use fp_records::records;
use fp_replan_present::{Left, Present, PresentFault, Rest, joined, left, read, windows};
use fp_tests_examples::instance_of;
use std::alloc::Global;
use std::test::Fail;

// A hub B with a hold of 10 between A and C. P1 and P2 go over it, P3 goes to it, and P4 leaves it.
const HUB: &str =
    "terminal,A\nterminal,B,10\nterminal,C\narc,A,B,100,10,100,0\narc,B,C,120,10,100,0\narc,B,A,100,10,100,0\nshipment,P1,A,C,4,0,600\nshipment,P3,A,B,4,0,600\nshipment,P4,B,C,4,0,520\n";

// The day that the records of a text tell, or their first fault.
fn told(alloc: Global, instance: &Instance, text: &str) -> Result<Present, PresentFault>
    requires { length text.now < 2000 }
    ensures sound { IfOk result (AreTracked instance.now) }
    ensures few { IfOk result (λ (day : Day). length day.legs ≤ MOST_KEPT) }
{
    let Ok(lines) = records(alloc, text.as_bytes()) else {
        return Err(PresentFault::NoMemory);
    };
    read(alloc, instance, &lines, 0)
}

// What is told of what is left: how many shipments and kept legs, where the first of them is, when it
// can go on, and the first leg by which it starts.
#[derive(Clone, Copy, PartialEq, Eq)]
struct Seen {
    shipments: usize,
    kept: usize,
    from: u32,
    release: u32,
    first: Leg,
}

// That of a day, or the shipment that is stuck.
fn seen_of(rest: &Rest, start: &Plan) -> Option<Seen> {
    let shipment = rest.instance.shipments().first()?;
    let first = start.routes.first()?.first()?;
    Some(Seen {
        shipments: rest.instance.shipments().len(),
        kept: rest.kept.len(),
        from: shipment.from,
        release: shipment.release,
        first: *first,
    })
}

#[test]
fn the_first_fault_of_a_day_is_told(rt: HostRuntime) -> Result<(), Fail> {
    let alloc = rt.alloc();
    let instance = instance_of(alloc, HUB)?;
    for (text, ordinal, code) in [
        ("now,5\nthen,5\n", 2, 31),
        ("now,5,6\n", 1, 32),
        ("kept,P1,A,B\n", 1, 32),
        ("kept,P1,A,B,0,1,2\n", 1, 32),
        ("now,5x\n", 1, 33),
        ("kept,P1,A,B,0,x\n", 1, 33),
        ("kept,P9,A,B,0,100001\n", 1, 34),
        ("now,100001\n", 1, 35),
        ("kept,P1,A,B,0,100001\n", 1, 35),
        ("kept,P1,B,C,9,5\n", 1, 36),
        ("now,5\nkept,P1,A,B,0\nnow,5\n", 3, 38),
        ("kept,P1,A,B,100,99\n", 1, 39),
    ] {
        assert!(rt; text.len() < 2000);
        let fault = told(alloc, &instance, text).err();
        assert!(rt;
            fault == Some(PresentFault::Bad { ordinal, code }),
            "{text}"
        );
    }
    Ok(())
}

#[test]
fn what_is_left_goes_on_from_where_it_is(rt: HostRuntime) -> Result<(), Fail> {
    let alloc = rt.alloc();
    let instance = instance_of(alloc, HUB)?;
    for (text, shipments, kept, from, release, arc, depart) in [
        ("", 3, 0, 0, 0, 0, 0),
        // It waits at the hub since 210, and it is 300.
        ("kept,P1,A,B,100\nnow,300\n", 3, 0, 1, 300, 1, 300),
        // Late by 180, and early by 50.
        ("kept,P1,A,B,100,380\n", 3, 0, 1, 390, 1, 390),
        ("kept,P1,A,B,100,150\n", 3, 0, 1, 160, 1, 160),
        // Not left yet: still a promise.
        ("now,50\nkept,P1,A,B,100\n", 3, 1, 0, 50, 0, 100),
        // What comes before a leg whose arrival is told is settled too.
        ("kept,P1,A,B,100\nkept,P1,B,C,300,500\n", 2, 0, 0, 0, 0, 0),
        // P3 is delivered.
        ("kept,P3,A,B,0\nnow,200\n", 2, 0, 0, 200, 0, 200),
    ] {
        assert!(rt; text.len() < 2000);
        let day = told(alloc, &instance, text)?;
        let Left::Open { rest, start } = left(alloc, &instance, &day)? else {
            return Err(Fail::new("stuck"));
        };
        let first = Leg { arc, depart };
        assert!(rt;
            seen_of(&rest, &start)
                == Some(Seen {
                    shipments,
                    kept,
                    from,
                    release,
                    first
                }),
            "{text}"
        );
    }
    Ok(())
}

// What the settled legs cost, where something is left.
fn sunk_of(left: Left) -> Option<u128> {
    match left {
        Left::Open { rest, .. } => Some(rest.sunk),
        Left::Stuck { .. } => None,
    }
}

#[test]
fn settled_legs_cost_their_own_trucks(rt: HostRuntime) -> Result<(), Fail> {
    let alloc = rt.alloc();
    let instance = instance_of(alloc, HUB)?;
    for (text, sunk) in [
        ("", 0),
        // A promise isn't sunk, even beside a settled leg that leaves so.
        ("kept,P1,A,B,100\n", 0),
        ("kept,P1,A,B,100,150\nkept,P3,A,B,100\n", 100),
        // Those that leave together share a truck, and others don't.
        ("kept,P1,A,B,100\nkept,P3,A,B,100\nnow,300\n", 100),
        ("kept,P1,A,B,0\nkept,P3,A,B,100\nnow,300\n", 200),
        ("kept,P1,A,B,100\nkept,P1,B,C,300,500\n", 200),
    ] {
        assert!(rt; text.len() < 2000);
        let day = told(alloc, &instance, text)?;
        assert!(rt;
            sunk_of(left(alloc, &instance, &day)?) == Some(sunk),
            "{text}"
        );
    }
    Ok(())
}

// The shipment that is stuck, if one is.
fn stuck_shipment(left: Left) -> Option<u32> {
    match left {
        Left::Open { .. } => None,
        Left::Stuck { shipment } => Some(shipment),
    }
}

#[test]
fn the_first_shipment_without_legs_is_stuck(rt: HostRuntime) -> Result<(), Fail> {
    let alloc = rt.alloc();
    let instance = instance_of(alloc, HUB)?;
    for (text, shipment) in [
        // Delivered late, or so late that nothing is left of the day.
        ("kept,P3,A,B,0,601\n", Some(1)),
        ("kept,P3,A,B,0,600\n", None),
        ("kept,P1,A,B,0,591\n", Some(0)),
        // P4 can't be in time any more; nor can P1 here, and it comes first.
        ("kept,P1,A,B,0\nnow,401\n", Some(2)),
        ("now,401\n", Some(0)),
        // A settled leg that leaves before the shipment can.
        ("kept,P1,A,B,100\nkept,P1,B,C,209,300\n", Some(0)),
    ] {
        assert!(rt; text.len() < 2000);
        let day = told(alloc, &instance, text)?;
        assert!(rt;
            stuck_shipment(left(alloc, &instance, &day)?) == shipment,
            "{text}"
        );
    }
    Ok(())
}

// The window of a shipment of what is left and an arc, where both exist.
fn window_of(rest: &Rest, windows: &Windows, shipment: u32, arc: u32) -> Option<(u32, u32)>
    requires { BelongsTo rest.now.instance windows.now }
{
    let instance = &rest.instance;
    if shipment as usize >= instance.shipments().len() || arc as usize >= instance.arcs().len() {
        return None;
    }
    windows.window(shipment, arc)
}

// The whole plan of a plan of what is left, where that has a route for each of its shipments.
fn whole_plan(alloc: Global, rest: &Rest, plan: &Plan) -> Result<Plan, Fail>
    requires { CanGoOn rest.now }
{
    if plan.routes.len() != rest.instance.shipments().len() {
        return Err(Fail::new("a route is missing"));
    }
    Ok(joined(alloc, rest, plan)?)
}

#[test]
fn a_truck_waits_for_a_late_one_or_goes_without(rt: HostRuntime) -> Result<(), Fail> {
    let alloc = rt.alloc();
    let instance = instance_of(alloc, HUB)?;
    for (text, until) in [
        ("kept,P1,A,B,100,380\n", Some((390, 480))),
        ("kept,P1,A,B,100,440\n", Some((450, 480))),
        ("kept,P1,A,B,0\nnow,1\n", Some((110, 480))),
    ] {
        assert!(rt; text.len() < 2000);
        let day = told(alloc, &instance, text)?;
        let Left::Open { rest, start } = left(alloc, &instance, &day)? else {
            return Err(Fail::new("stuck"));
        };
        let windows = windows(alloc, &rest)?;
        // P4 can leave until 400: after the first, but not after the second.
        assert!(rt; window_of(&rest, &windows, 0, 1) == until);
        assert!(rt; window_of(&rest, &windows, 2, 1).is_some_and(|(_, hi)| hi == 400));
        // P1 doesn't go back to where it was.
        assert!(rt; window_of(&rest, &windows, 0, 2).is_none());
        let whole = whole_plan(alloc, &rest, &start)?;
        let first = whole.routes.first().expect(&rt, "a route");
        assert_eq!(rt; first.len(), 2);
    }
    Ok(())
}
