//! The leg lines and truck lines of two plans over two arcs.

use fp_model::{Instance, Leg, NoMemory, Plan, test_plan};
use fp_tests_examples::instance_of;
use fp_timetable::{LegLine, TruckLine, cost, legs, plan_cost, trucks};
use std::alloc::Global;
use std::test::Fail;

// A hold of 2 at the second of three terminals, a shipment over both arcs, and one over the second.
const TWO_ARCS: &str =
    "terminal,A\nterminal,B,2\nterminal,C\narc,A,B,5,10,100,1\narc,B,C,5,10,100,1\nshipment,S1,A,C,4,1,13\nshipment,S2,B,C,7,0,20\n";

// A leg line.
fn line(shipment: u32, arc: u32, depart: u32, arrive: u32) -> LegLine {
    LegLine {
        shipment,
        arc,
        depart,
        arrive,
    }
}

// A truck line.
fn departure(arc: u32, depart: u32, trucks: u128, load: u128) -> TruckLine {
    TruckLine {
        arc,
        depart,
        trucks,
        load,
    }
}

// A plan in which the first shipment leaves at 1 and 8, and the second at a time that is given.
fn plan_with(alloc: Global, depart: u32) -> Result<Plan, NoMemory> {
    let first = vec![in alloc; Leg { arc: 0, depart: 1 }, Leg { arc: 1, depart: 8 }]?;
    let second = vec![in alloc; Leg { arc: 1, depart }]?;
    Ok(Plan {
        routes: vec![in alloc; first, second]?,
    })
}

// The leg lines and the truck lines of a plan, and what it costs by both of the calls.
#[derive(Drop)]
struct Timetable {
    legs: Vec<LegLine>,
    trucks: Vec<TruckLine>,
    costs: (u128, u128),
}

fn timetable_of(
    alloc: Global,
    instance: &Instance,
    plan: &Plan,
) -> Result<Option<Timetable>, NoMemory> {
    if test_plan(instance, plan).is_err() {
        return Ok(None);
    }
    let trucks = trucks(alloc, instance, plan)?;
    let costs = (
        cost(alloc, instance, plan)?,
        plan_cost(instance, plan, &trucks),
    );
    let legs = legs(alloc, instance, plan)?;
    Ok(Some(Timetable {
        legs,
        trucks,
        costs,
    }))
}

#[test]
fn departures_apart(rt: HostRuntime) -> Result<(), Fail> {
    let alloc = rt.alloc();
    let instance = instance_of(alloc, TWO_ARCS)?;
    let told = timetable_of(alloc, &instance, &plan_with(alloc, 2)?)?.expect(&rt, "a plan");
    let leg_lines = [line(0, 0, 1, 6), line(1, 1, 2, 7), line(0, 1, 8, 13)];
    assert!(rt; told.legs.as_slice() == leg_lines.as_slice());
    let truck_lines = [
        departure(0, 1, 1, 4),
        departure(1, 2, 1, 7),
        departure(1, 8, 1, 4),
    ];
    assert!(rt; told.trucks.as_slice() == truck_lines.as_slice());
    assert_eq!(rt; told.costs, (315, 315));
    Ok(())
}

#[test]
fn departures_joined(rt: HostRuntime) -> Result<(), Fail> {
    let alloc = rt.alloc();
    let instance = instance_of(alloc, TWO_ARCS)?;
    let told = timetable_of(alloc, &instance, &plan_with(alloc, 8)?)?.expect(&rt, "a plan");
    let leg_lines = [line(0, 0, 1, 6), line(0, 1, 8, 13), line(1, 1, 8, 13)];
    assert!(rt; told.legs.as_slice() == leg_lines.as_slice());
    let truck_lines = [departure(0, 1, 1, 4), departure(1, 8, 2, 11)];
    assert!(rt; told.trucks.as_slice() == truck_lines.as_slice());
    assert_eq!(rt; told.costs, (315, 315));
    Ok(())
}
