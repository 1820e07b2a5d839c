//! The yard of a plan in which two shipments share an arc and leave it apart.

use fp_model::{Instance, Leg, NoMemory, Plan, test_plan};
use fp_tests_examples::{LINE, instance_of};
use fp_yard::{Event, EventKind, LineStage, Yard, YardFault, YardPlace, drive};
use std::alloc::Global;
use std::test::Fail;

// A departure.
fn departs(line: u32) -> Event {
    Event {
        line,
        kind: EventKind::Departs,
    }
}

// An arrival.
fn arrives(line: u32) -> Event {
    Event {
        line,
        kind: EventKind::Arrives,
    }
}

// The first shipment goes over both arcs, the second over the last alone, before it.
fn plan(alloc: Global) -> Result<Plan, NoMemory> {
    let first = vec![in alloc; Leg { arc: 0, depart: 0 }, Leg { arc: 1, depart: 4 }]?;
    let second = vec![in alloc; Leg { arc: 1, depart: 0 }]?;
    Ok(Plan {
        routes: vec![in alloc; first, second]?,
    })
}

// The yard of a plan at its start.
fn yard_of(alloc: Global, instance: &Instance, plan: &Plan) -> Result<Option<Yard>, NoMemory> {
    if test_plan(instance, plan).is_err() {
        return Ok(None);
    }
    Ok(Some(Yard::new(alloc, instance, plan)?))
}

// The yard of a plan that draws from a seed have run to its end.
fn driven(
    alloc: Global,
    instance: &Instance,
    plan: &Plan,
    seed: u32,
) -> Result<Option<Yard>, NoMemory> {
    if test_plan(instance, plan).is_err() || seed > 2_147_483_647 {
        return Ok(None);
    }
    let yard = Yard::new(alloc, instance, plan)?;
    Ok(Some(drive(alloc, yard, seed)?))
}

#[test]
fn driven_to_the_end(rt: HostRuntime) -> Result<(), Fail> {
    let alloc = rt.alloc();
    let instance = instance_of(alloc, LINE)?;
    let yard = driven(alloc, &instance, &plan(alloc)?, 1)?.expect(&rt, "a plan");
    let log = [
        departs(0),
        arrives(0),
        departs(2),
        arrives(2),
        departs(1),
        arrives(1),
    ];
    assert!(rt; yard.history() == log.as_slice());
    assert!(rt; yard.enabled(alloc)?.is_empty());
    Ok(())
}

#[test]
fn nothing_to_drive(rt: HostRuntime) -> Result<(), Fail> {
    let alloc = rt.alloc();
    let instance = instance_of(alloc, "terminal,A\nterminal,B\narc,A,B,5,10,100,1\n")?;
    let none = Plan {
        routes: Vec::new(alloc),
    };
    let yard = driven(alloc, &instance, &none, 5)?.expect(&rt, "a plan");
    assert!(rt; yard.lines() == 0);
    assert!(rt; yard.history().is_empty());
    Ok(())
}

#[test]
fn events_refused(rt: HostRuntime) -> Result<(), Fail> {
    let alloc = rt.alloc();
    let instance = instance_of(alloc, LINE)?;
    let mut yard = yard_of(alloc, &instance, &plan(alloc)?)?.expect(&rt, "a plan");
    assert!(rt; yard.apply(departs(3)) == Err(YardFault::NoLine));
    assert!(rt; yard.apply(departs(2)) == Err(YardFault::Missing { shipment: 0 }));
    assert!(rt; yard.apply(arrives(0)) == Err(YardFault::NotRolling));
    assert!(rt; yard.enabled(alloc)?.as_slice() == [departs(0), departs(1)].as_slice());
    assert!(rt; yard.apply(departs(0)) == Ok(()));
    assert!(rt; yard.apply(departs(0)) == Err(YardFault::Left));
    assert!(rt; yard.enabled(alloc)?.as_slice() == [arrives(0), departs(1)].as_slice());
    assert!(rt; yard.history() == [departs(0)].as_slice());
    Ok(())
}

#[test]
fn stages_and_places(rt: HostRuntime) -> Result<(), Fail> {
    let alloc = rt.alloc();
    let instance = instance_of(alloc, LINE)?;
    let plan = plan(alloc)?;
    assert!(rt; test_plan(&instance, &plan).is_ok());
    let mut yard = Yard::new(alloc, &instance, &plan)?;
    assert!(rt; instance.shipments().len() == 2);
    assert!(rt; yard.lines() == 3);
    assert!(rt; yard.place(0) == YardPlace::At { terminal: 0 });
    assert!(rt; yard.stage(0) == LineStage::Waiting);
    let _departed = yard.apply(departs(0));
    assert!(rt; yard.lines() == 3);
    assert!(rt; yard.stage(0) == LineStage::Rolling);
    Ok(())
}
