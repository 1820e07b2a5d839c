//! Kept legs: what records of them give, the plan that a search begins with, the windows, and what
//! one more shipment costs.

ghost use Rattle.std.specs.Prelude.{◌<◌, length, IfOk};
ghost use Rattle.fp_replan.specs.KeptLegs.{AreKept};

use fp_model::{Instance, Leg, Plan};
use fp_records::records;
use fp_replan::{Bracket, Kept, KeptFault, Started, extra_range, read_kept, start, without_last};
use fp_tests_examples::{LINE, PAIR, instance_of};
use std::alloc::Global;
use std::test::Fail;

// The kept legs that the records of a text give, or their first fault.
fn read(alloc: Global, instance: &Instance, text: &str) -> Result<Vec<Kept>, KeptFault>
    requires { length text.now < 2000 }
    ensures { IfOk result (λ kept. AreKept instance.now kept.items) }
{
    let Ok(lines) = records(alloc, text.as_bytes()) else {
        return Err(KeptFault::NoMemory);
    };
    read_kept(alloc, instance, &lines, 0)
}

// The plan, if there is one.
fn plan_of(started: Started) -> Option<Plan> {
    match started {
        Started::Plan { plan } => Some(plan),
        Started::Stuck { .. } => None,
    }
}

// The shipment that is stuck, if one is.
fn stuck_shipment(started: Started) -> Option<u32> {
    match started {
        Started::Plan { .. } => None,
        Started::Stuck { shipment } => Some(shipment),
    }
}

#[test]
fn the_first_fault_is_told(rt: HostRuntime) -> Result<(), Fail> {
    let alloc = rt.alloc();
    let instance = instance_of(alloc, LINE)?;
    for (text, ordinal, code) in [
        ("kept,S1,A,B,0\nkeep\n", 2, 31),
        ("kept,S1,A,B\n", 1, 32),
        ("kept,S1,A,B,0x\n", 1, 33),
        ("kept,S3,A,B,0\n", 1, 34),
        ("kept,S1,A,C,0\n", 1, 34),
        ("kept,S1,A,B,100001\n", 1, 35),
        ("kept,S1,B,C,4\n", 1, 36),
        ("kept,S1,A,B,0\nkept,S1,A,B,9\n", 2, 36),
    ] {
        assert!(rt; text.len() < 2000);
        let fault = read(alloc, &instance, text).err();
        assert!(rt; fault == Some(KeptFault::Bad { ordinal, code }), "{text}");
    }
    Ok(())
}

#[test]
fn a_start_goes_on_from_kept_legs(rt: HostRuntime) -> Result<(), Fail> {
    let alloc = rt.alloc();
    let instance = instance_of(alloc, LINE)?;
    let kept = read(alloc, &instance, "kept,S1,A,B,0\nkept,S2,B,C,2\n")?;
    let plan = plan_of(start(alloc, &instance, &kept)?).expect(&rt, "a plan");
    let first = plan.routes.first().expect(&rt, "a route");
    let legs = [Leg { arc: 0, depart: 0 }, Leg { arc: 1, depart: 4 }];
    assert!(rt; first.as_slice() == legs.as_slice());
    Ok(())
}

#[test]
fn a_shipment_that_is_too_late_is_stuck(rt: HostRuntime) -> Result<(), Fail> {
    let alloc = rt.alloc();
    let instance = instance_of(alloc, LINE)?;
    let kept = read(alloc, &instance, "kept,S2,B,C,4\n")?;
    assert_eq!(rt; stuck_shipment(start(alloc, &instance, &kept)?), Some(1));
    Ok(())
}

#[test]
fn one_shipment_less(rt: HostRuntime) -> Result<(), Fail> {
    let alloc = rt.alloc();
    let instance = instance_of(alloc, PAIR)?;
    assert!(rt; !instance.shipments().is_empty());
    let less = without_last(alloc, &instance)?;
    assert_eq!(rt; less.shipments().len(), 1);
    assert_eq!(rt; less.arcs().len(), 1);
    Ok(())
}

#[test]
fn figures_between_which_a_shipment_costs(rt: HostRuntime) {
    assert!(rt; extra_range(104, 104, 109, 109) == Bracket { low: 5, high: 5 });
    assert!(rt; extra_range(200, 200, 100, 300) == Bracket { low: 0, high: 100 });
}
