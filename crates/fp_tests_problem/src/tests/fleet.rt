//! The fewest trucks of three plans, whether fleets are accepted, and their texts.

use fp_fleet::{Begin, Fleet, Need, Turn, accepts, fewest, write};
use fp_model::{Instance, Leg, NoMemory, Plan, test_plan};
use fp_tests_examples::{LINE, instance_of};
use std::alloc::Global;
use std::test::Fail;

// An arc to and fro, with a shipment over each. The second is to leave when the first has arrived.
const TO_AND_FRO: &str =
    "terminal,A\nterminal,B\narc,A,B,5,10,100,0\narc,B,A,5,10,100,0\nshipment,S1,A,B,25,0,5\nshipment,S2,B,A,15,5,10\n";

// The same, and the second is to leave a moment before.
const TOO_EARLY: &str =
    "terminal,A\nterminal,B\narc,A,B,5,10,100,0\narc,B,A,5,10,100,0\nshipment,S1,A,B,25,0,5\nshipment,S2,B,A,15,4,9\n";

// What is told of a plan's fleet.
#[derive(Drop)]
struct Told {
    fleet: Fleet,
    text: Vec<u8>,
    accepted: bool,
}

// The fewest trucks of a plan, where it is one.
fn fleet_of(alloc: Global, instance: &Instance, plan: &Plan) -> Result<Option<Told>, NoMemory> {
    if test_plan(instance, plan).is_err() {
        return Ok(None);
    }
    let fleet = fewest(alloc, instance, plan)?;
    let text = write(alloc, instance, plan, &fleet)?;
    let accepted = accepts(alloc, instance, plan, &fleet)?;
    Ok(Some(Told {
        fleet,
        text,
        accepted,
    }))
}

// Whether a fleet of a plan is accepted, and false where the plan is none.
fn accepted(
    alloc: Global,
    instance: &Instance,
    plan: &Plan,
    fleet: &Fleet,
) -> Result<bool, NoMemory> {
    if test_plan(instance, plan).is_err() {
        return Ok(false);
    }
    accepts(alloc, instance, plan, fleet)
}

// A plan of two shipments of one leg each, the first at 0.
fn two_legs(alloc: Global, depart: u32) -> Result<Plan, NoMemory> {
    let first = vec![in alloc; Leg { arc: 0, depart: 0 }]?;
    let second = vec![in alloc; Leg { arc: 1, depart }]?;
    Ok(Plan {
        routes: vec![in alloc; first, second]?,
    })
}

// The plan of the two arcs in a row.
fn line_plan(alloc: Global) -> Result<Plan, NoMemory> {
    let first = vec![in alloc; Leg { arc: 0, depart: 0 }, Leg { arc: 1, depart: 4 }]?;
    let second = vec![in alloc; Leg { arc: 1, depart: 0 }]?;
    Ok(Plan {
        routes: vec![in alloc; first, second]?,
    })
}

// The fleet of that plan, with a number of trucks in all.
fn line_fleet(alloc: Global, total: u128) -> Result<Fleet, NoMemory> {
    Ok(Fleet {
        total,
        needs: vec![in alloc;
            Need {
                terminal: 0,
                trucks: 1,
                at: 0
            },
            Need {
                terminal: 1,
                trucks: 1,
                at: 0
            },
        ]?,
        begins: vec![in alloc; Begin { line: 0, count: 1 }, Begin { line: 1, count: 1 }]?,
        turns: vec![in alloc;
            Turn {
                before: 0,
                after: 2,
                count: 1
            },
        ]?,
    })
}

#[test]
fn trucks_of_a_line(rt: HostRuntime) -> Result<(), Fail> {
    let alloc = rt.alloc();
    let instance = instance_of(alloc, LINE)?;
    let told = fleet_of(alloc, &instance, &line_plan(alloc)?)?.expect(&rt, "a plan");
    let text =
        b"fleet,2\nneed,A,1,0\nneed,B,1,0\nstart,A,B,0,1\nstart,B,C,0,1\nturn,A,B,0,C,4,1\nend\n";
    assert!(rt; told.text.as_slice() == text.as_slice());
    assert!(rt; told.accepted);
    let expected = line_fleet(alloc, 2)?;
    assert_eq!(rt; told.fleet.total, expected.total);
    assert!(rt; told.fleet.needs.as_slice() == expected.needs.as_slice());
    assert!(rt; told.fleet.begins.as_slice() == expected.begins.as_slice());
    assert!(rt; told.fleet.turns.as_slice() == expected.turns.as_slice());
    Ok(())
}

#[test]
fn fleets_of_a_line(rt: HostRuntime) -> Result<(), Fail> {
    let alloc = rt.alloc();
    let instance = instance_of(alloc, LINE)?;
    let plan = line_plan(alloc)?;
    assert!(rt; accepted(alloc, &instance, &plan, &line_fleet(alloc, 2)?)?);
    assert!(rt; !accepted(alloc, &instance, &plan, &line_fleet(alloc, 3)?)?);
    let mut large = line_fleet(alloc, 2)?;
    large.begins.push(Begin {
        line: 3,
        count: u128::MAX,
    })?;
    assert!(rt; !accepted(alloc, &instance, &plan, &large)?);
    Ok(())
}

#[test]
fn trucks_that_return(rt: HostRuntime) -> Result<(), Fail> {
    let alloc = rt.alloc();
    let instance = instance_of(alloc, TO_AND_FRO)?;
    let told = fleet_of(alloc, &instance, &two_legs(alloc, 5)?)?.expect(&rt, "a plan");
    let text = b"fleet,3\nneed,A,3,0\nstart,A,B,0,3\nturn,A,B,0,A,5,2\nend\n";
    assert!(rt; told.text.as_slice() == text.as_slice());
    assert!(rt; told.accepted);
    Ok(())
}

#[test]
fn trucks_that_come_too_late(rt: HostRuntime) -> Result<(), Fail> {
    let alloc = rt.alloc();
    let instance = instance_of(alloc, TOO_EARLY)?;
    let told = fleet_of(alloc, &instance, &two_legs(alloc, 4)?)?.expect(&rt, "a plan");
    let text = b"fleet,5\nneed,A,3,0\nneed,B,2,4\nstart,A,B,0,3\nstart,B,A,4,2\nend\n";
    assert!(rt; told.text.as_slice() == text.as_slice());
    assert!(rt; told.accepted);
    Ok(())
}
