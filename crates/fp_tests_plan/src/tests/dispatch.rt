//! The least times of the routes of direct plans, where all legs by one arc leave together.

use fp_dispatch::{Dispatch, NoMemory, earliest};
use fp_flatnet::{Verdict, Windows, direct, feasible};
use fp_longestarcs::Network;
use fp_model::Instance;
use fp_relaxmodel::{coarsen, groups};
use fp_tests_examples::{LINE, PAIR, instance_of};
use fp_timenodes::Points;
use std::alloc::Global;
use std::test::Fail;

// Two shipments over an arc, of which the first has to leave before the second is released.
const APART: &str =
    "terminal,A\nterminal,B\narc,A,B,5,10,100,1\nshipment,S1,A,B,4,0,10\nshipment,S2,A,B,5,6,12\n";

// A leg that can't leave by its latest moment: its shipment, its number, the least moment at which
// it could, and the latest one.
type Late = (u32, u32, u32, Option<u32>);

// What is dispatched of the direct plan's routes, where all are in time. Where each terminal has no
// point but 0, all legs by one arc are of one class, and so of one group.
fn dispatched(alloc: Global, instance: &Instance) -> Result<Option<Dispatch>, NoMemory> {
    let Verdict::All = feasible(alloc, instance)? else {
        return Ok(None);
    };
    let plan = direct(alloc, instance)?;
    let windows = Windows::of(alloc, instance)?;
    let points = Points::new(alloc, instance.terminals().len() as u32, &[])?;
    let network = Network::of(alloc, instance, &points, 0)?;
    let relaxed = coarsen(alloc, instance, &windows, &network, &plan)?;
    let groups = groups(alloc, &relaxed)?;
    let routes = relaxed.arcs(alloc)?;
    Ok(Some(earliest(alloc, instance, &windows, &routes, &groups)?))
}

// When the only leg of each shipment leaves, of what clashes nothing.
fn departures(alloc: Global, dispatch: &Dispatch) -> Result<Vec<u32>, NoMemory> {
    let mut departs = Vec::new(alloc);
    if let Dispatch::Times { plan } = dispatch {
        for route in &plan.routes {
            for leg in route {
                departs.push(leg.depart)?;
            }
        }
    }
    Ok(departs)
}

// The leg that clashes, if one does.
fn late(dispatch: &Dispatch) -> Option<Late> {
    match dispatch {
        Dispatch::Times { .. } => None,
        Dispatch::Clash {
            shipment,
            leg,
            value,
            latest,
        } => Some((*shipment, *leg, *value, *latest)),
    }
}

#[test]
fn legs_by_one_arc_leave_together_or_clash(rt: HostRuntime) -> Result<(), Fail> {
    let alloc = rt.alloc();
    for (text, departs, clash) in [
        (PAIR, [3, 3].as_slice(), None),
        (APART, [].as_slice(), Some((0, 0, 6, Some(5)))),
        (LINE, [].as_slice(), Some((1, 0, 4, Some(3)))),
    ] {
        assert!(rt; text.len() < 2000);
        let instance = instance_of(alloc, text)?;
        let dispatch = dispatched(alloc, &instance)?.expect(&rt, "in time");
        assert_eq!(rt; departures(alloc, &dispatch)?.as_slice(), departs);
        assert_eq!(rt; late(&dispatch), clash);
    }
    Ok(())
}
