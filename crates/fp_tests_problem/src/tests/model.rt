//! The costs of plans, the faults of what are none, and names.

use fp_model::{
    Arc, Instance, Leg, Name, NoMemory, Plan, PlanFault, PlanKind, SCALE, Shipment, cost, is_name,
    load, test_plan, trucks, weight,
};
use fp_tests_examples::instance_of;
use std::alloc::Global;
use std::test::Fail;

// The cost of a plan, or the fault of what is none.
fn tested_cost(instance: &Instance, plan: &Plan) -> Result<u128, PlanFault> {
    test_plan(instance, plan)?;
    Ok(cost(instance, plan))
}

// A route of legs, each an arc and a time.
fn route_of(alloc: Global, legs: &[(u32, u32)]) -> Result<Vec<Leg>, NoMemory> {
    let mut route = Vec::new(alloc);
    for (arc, depart) in legs {
        route.push(Leg {
            arc: *arc,
            depart: *depart,
        })?;
    }
    Ok(route)
}

#[test]
fn names(rt: HostRuntime) -> Result<(), NoMemory> {
    let longest = b"0123456789abcdefghijklmnopqrst_-";
    assert!(rt; is_name(longest) && !is_name(b"0123456789abcdefghijklmnopqrstuvw"));
    assert!(rt; is_name(b"Z") && !is_name(b"") && !is_name(b"A B"));
    let name = Name::new(rt.alloc(), b"LYON-2")?.copy(rt.alloc())?;
    assert!(rt; name.bytes() == b"LYON-2".as_slice());
    Ok(())
}

#[test]
fn costs(rt: HostRuntime) -> Result<(), Fail> {
    let alloc = rt.alloc();
    for (size, first, second, want) in [
        (4, 0, 3, 209),
        (4, 3, 3, 109),
        (6, 5, 5, 211),
        (25, 0, 3, 430),
    ] {
        let text = format!(in alloc;
            "terminal,A\nterminal,B\narc,A,B,5,10,100,1\nshipment,S1,A,B,{size},0,10\nshipment,S2,A,B,5,3,12\n"
        )?;
        assert!(rt; text.len() < 2000);
        let instance = instance_of(alloc, text.as_str())?;
        let routes = vec![in alloc;
            route_of(alloc, &[(0, first)])?,
            route_of(alloc, &[(0, second)])?,
        ]?;
        let plan = Plan { routes }.copy(alloc)?;
        assert!(rt; tested_cost(&instance, &plan) == Ok(want));
    }
    Ok(())
}

// The load and the trucks of an arc at a time.
fn departure_of(instance: &Instance, plan: &Plan, arc: u32, depart: u32) -> Option<(u128, u128)> {
    if arc as usize >= instance.arcs().len() || test_plan(instance, plan).is_err() {
        return None;
    }
    let carried = load(instance, plan, arc, depart);
    Some((carried, trucks(instance, plan, arc, depart)))
}

// The time and the step of the arc, the hold of the terminal, and the size of the shipment with a
// number.
fn numbers_of(instance: &Instance, number: u32) -> Option<(u32, u32, u32, u64)> {
    if number as usize >= instance.arcs().len()
        || number as usize >= instance.terminals().len()
        || number as usize >= instance.shipments().len()
    {
        return None;
    }
    let arc = instance.arc(number);
    let shipment = instance.shipment(number);
    Some((
        arc.time,
        instance.step(number),
        instance.hold(number),
        shipment.size,
    ))
}

// The weight of an arc and a shipment of the size 6, which would cost 106 on it.
fn weight_of_one(alloc: Global) -> Result<Option<u128>, NoMemory> {
    let arc = Arc {
        from: 0,
        to: 1,
        time: 5,
        capacity: 10,
        truck: 100,
        freight: 1,
    };
    let shipment = Shipment {
        name: Name::new(alloc, b"S1")?,
        from: 0,
        to: 1,
        size: 6,
        release: 0,
        due: 10,
    };
    Ok(weight(&[arc], &[shipment]))
}

// The scale of the instance at another scale, where it fits.
fn scaled_to(instance: Instance, scale: u32) -> Option<u32> {
    if scale == 0 || scale > 1_000_000_000 || !instance.fits(scale) {
        return None;
    }
    Some(instance.with_scale(scale).scale())
}

#[test]
fn departures(rt: HostRuntime) -> Result<(), Fail> {
    let alloc = rt.alloc();
    let text =
        "terminal,A,1\nterminal,B,2\narc,A,B,5,10,100,1\nshipment,S1,A,B,6,0,10\nshipment,S2,A,B,5,0,10\n";
    let instance = instance_of(alloc, text)?.copy(alloc)?;
    let routes = vec![in alloc; route_of(alloc, &[(0, 5)])?, route_of(alloc, &[(0, 5)])?]?;
    let plan = Plan { routes };
    assert!(rt; departure_of(&instance, &plan, 0, 5) == Some((11, 2)));
    assert!(rt; departure_of(&instance, &plan, 0, 4) == Some((0, 0)));
    assert!(rt; numbers_of(&instance, 0) == Some((5, 7, 1, 6)));
    assert!(rt; instance.horizon() == 10);
    assert!(rt; weight_of_one(alloc)? == Some(6_946_816_000_000));
    assert!(rt; u128::from(instance.scale()) == SCALE);
    assert!(rt; scaled_to(instance, 7) == Some(7));
    Ok(())
}

#[test]
fn faults(rt: HostRuntime) -> Result<(), Fail> {
    let alloc = rt.alloc();
    let instance = instance_of(
        alloc,
        "terminal,A\nterminal,B,2\nterminal,C,4\narc,A,B,5,10,100,1\narc,B,C,5,10,100,1\narc,B,A,5,10,100,1\nshipment,S1,A,C,4,1,13\n",
    )?;
    for (legs, fault) in [
        ([(0, 1), (1, 8)].as_slice(), None),
        (&[], Some((PlanKind::NotRoute, 0))),
        (&[(0, 1), (3, 8)], Some((PlanKind::NotRoute, 1))),
        (
            &[(0, 1), (2, 8), (0, 15)],
            Some((PlanKind::TerminalTwice, 1)),
        ),
        (&[(0, 0), (1, 7)], Some((PlanKind::BeforeRelease, 0))),
        (&[(0, 1), (1, 7)], Some((PlanKind::BeforeArrival, 1))),
        (&[(0, 1), (1, 9)], Some((PlanKind::AfterDue, 1))),
    ] {
        let routes = vec![in alloc; route_of(alloc, legs)?]?;
        let found = test_plan(&instance, &Plan { routes }).err();
        assert!(rt; found.map(|fault| (fault.kind, fault.leg)) == fault);
    }
    let none = Plan {
        routes: Vec::new(alloc),
    };
    let found = test_plan(&instance, &none).err();
    assert!(rt; found.map(|fault| fault.kind) == Some(PlanKind::Count));
    Ok(())
}
