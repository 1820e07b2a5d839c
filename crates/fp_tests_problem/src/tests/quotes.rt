//! What a shipment adds, whichever it is.

use fp_model::{Leg, NoMemory, Plan, test_plan};
use fp_replan::without_last;
use fp_replan_quotes::{added, number_named, start_with, with_last};
use fp_tests_examples::{PAIR, instance_of};
use std::alloc::Global;
use std::test::Fail;

// Routes over the first arc, which leave at these times.
fn leaving(alloc: Global, departures: &[u32]) -> Result<Plan, NoMemory> {
    let mut routes = Vec::new(alloc);
    for depart in departures {
        let legs = [Leg {
            arc: 0,
            depart: *depart,
        }];
        routes.push(legs.to_vec(alloc)?)?;
    }
    Ok(Plan { routes })
}

#[test]
fn a_shipment_has_the_number_of_its_name(rt: HostRuntime) -> Result<(), Fail> {
    let alloc = rt.alloc();
    let instance = instance_of(alloc, PAIR)?;
    assert!(rt; number_named(alloc, &instance, b"S1")? == Some(0));
    assert!(rt; number_named(alloc, &instance, b"S2")? == Some(1));
    assert!(rt; number_named(alloc, &instance, b"S")?.is_none());
    Ok(())
}

#[test]
fn the_first_of_a_pair_adds_its_freight(rt: HostRuntime) -> Result<(), Fail> {
    let alloc = rt.alloc();
    let instance = instance_of(alloc, PAIR)?;
    assert!(rt; instance.shipments().len() == 2);
    let moved = with_last(alloc, &instance, 0)?;
    assert!(rt; moved.shipments().len() == 2);
    assert!(rt; moved.shipment(0).name.bytes() == b"S2".as_slice());
    assert!(rt; moved.shipment(1).name.bytes() == b"S1".as_slice());
    let less = without_last(alloc, &moved)?;
    let before = leaving(alloc, &[3])?;
    let together = leaving(alloc, &[3, 3])?;
    assert!(rt; test_plan(&less, &before).is_ok());
    assert!(rt; test_plan(&moved, &together).is_ok());
    assert_eq!(rt; added(alloc, &moved, &before, &together)?, 4);
    Ok(())
}

#[test]
fn a_start_has_the_shipment_put_in(rt: HostRuntime) -> Result<(), Fail> {
    let alloc = rt.alloc();
    let instance = instance_of(alloc, PAIR)?;
    assert!(rt; instance.shipments().len() == 2);
    let less = without_last(alloc, &instance)?;
    let before = leaving(alloc, &[3])?;
    let apart = leaving(alloc, &[0, 3])?;
    assert!(rt; test_plan(&less, &before).is_ok());
    assert!(rt; test_plan(&instance, &apart).is_ok());
    let start = start_with(alloc, &instance, before, apart)?;
    let first = start.routes.first().expect(&rt, "a route");
    let legs = [Leg { arc: 0, depart: 3 }];
    assert!(rt; first.as_slice() == legs.as_slice());
    Ok(())
}
