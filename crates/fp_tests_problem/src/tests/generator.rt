//! Instances that a number gives.

use fp_flatnet::{Verdict, feasible};
use fp_model::{Arc, SCALE};
use fp_reader::{Draws, generate};
use std::test::Fail;

// The numbers of an arc: its ends, its time, its capacity, and what a truck and a unit cost.
fn numbers_of(arc: &Arc) -> [u64; 6] {
    [
        u64::from(arc.from),
        u64::from(arc.to),
        u64::from(arc.time),
        arc.capacity,
        arc.truck,
        arc.freight,
    ]
}

#[test]
fn the_first_draws(rt: HostRuntime) {
    let mut draws = Draws::new(1);
    for want in [
        16_838, 5_758, 10_113, 17_515, 31_051, 5_627, 23_010, 7_419, 16_212, 4_086, 2_749, 12_767,
        9_084,
    ] {
        assert_eq!(rt; draws.draw(32_768), want);
    }
}

#[test]
fn two_terminals_and_a_shipment(rt: HostRuntime) -> Result<(), Fail> {
    let instance = generate(rt.alloc(), 1, 2, 1)?;
    assert_eq!(rt; instance.terminals().len(), 2);
    assert_eq!(rt; instance.terminals()[0].bytes(), b"T1".as_slice());
    assert_eq!(rt; instance.terminals()[1].bytes(), b"T2".as_slice());
    assert_eq!(rt; instance.holds(), [0, 0].as_slice());
    assert_eq!(rt; instance.arcs().len(), 2);
    assert_eq!(rt; numbers_of(&instance.arcs()[0]), [0, 1, 269, 15, 113, 1]);
    assert_eq!(rt; numbers_of(&instance.arcs()[1]), [1, 0, 263, 16, 183, 0]);
    assert_eq!(rt; instance.shipments().len(), 1);
    let shipment = &instance.shipments()[0];
    assert_eq!(rt; shipment.name.bytes(), b"S1".as_slice());
    assert_eq!(rt; [shipment.from, shipment.to], [0, 1]);
    assert_eq!(rt; shipment.size, 2);
    assert_eq!(rt; [shipment.release, shipment.due], [2_767, 4_451]);
    assert_eq!(rt; u128::from(instance.scale()), SCALE);
    Ok(())
}

#[test]
fn each_shipment_can_be_carried(rt: HostRuntime) -> Result<(), Fail> {
    let alloc = rt.alloc();
    for (seed, terminals, shipments, arcs) in [
        (7, 8, 30, 24),
        (3, 3, 12, 6),
        (2_147_483_647, 100, 500, 300),
    ] {
        let instance = generate(alloc, seed, terminals, shipments)?;
        assert_eq!(rt; instance.arcs().len(), arcs);
        assert_eq!(rt; instance.shipments().len(), shipments as usize);
        assert!(rt; feasible(alloc, &instance)? == Verdict::All);
    }
    Ok(())
}
