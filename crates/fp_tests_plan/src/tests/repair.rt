//! Plans from relaxed plans, with the direct plan in hand.
ghost use Rattle.std.specs.Prelude.{IfOk};
ghost use Rattle.fp_model.specs.Plans.{IsPlan};
ghost use Rattle.fp_flatnet.specs.Belonging.{BelongsTo};
ghost use Rattle.fp_flatnet.specs.Tables.{windows_in};
ghost use Rattle.fp_flatnet.specs.Windows.{CoverPlans};
ghost use Rattle.fp_longestarcs.specs.Whole.{IsWholeNetwork};

use fp_flatnet::{Verdict, Windows, direct, feasible, initial};
use fp_longestarcs::Network;
use fp_model::{Instance, Plan, cost, test_plan};
use fp_relaxmodel::coarsen;
use fp_repair::{NoMemory, Repaired, repair};
use fp_tests_examples::{LINE, PAIR, instance_of};
use std::alloc::Global;
use std::test::Fail;

// Two arcs in a row, as in `LINE`, and apart from them two shipments that can share a truck from 3
// to 5.
const LINE_AND_PAIR: &str =
    "terminal,A\nterminal,B\nterminal,C\narc,A,B,4,10,100,0\narc,B,C,5,10,100,0\nshipment,S1,A,C,4,0,9\nshipment,S2,B,C,4,0,8\nterminal,D\nterminal,E\narc,D,E,5,10,100,1\nshipment,S3,D,E,4,0,10\nshipment,S4,D,E,5,3,12\n";

// The shipment's first leg leaves at another moment.
fn delay(plan: &mut Plan, shipment: usize, depart: u32) {
    if let Some(route) = plan.routes.get_mut(shipment) {
        if let Some(leg) = route.first_mut() {
            leg.depart = depart;
        }
    }
}

// When the legs leave, by shipment.
fn departures(alloc: Global, plan: &Plan) -> Result<Vec<u32>, NoMemory> {
    let mut departs = Vec::new(alloc);
    for route in &plan.routes {
        for leg in route {
            departs.push(leg.depart)?;
        }
    }
    Ok(departs)
}

// What a plan made coarse is repaired to, with another one in hand.
fn repaired(
    alloc: Global,
    instance: &Instance,
    windows: &Windows,
    network: &Network,
    plan: &Plan,
    incumbent: &Plan,
) -> Result<Repaired, NoMemory>
    requires belongs { BelongsTo instance.now windows.now }
    requires covers { CoverPlans instance.now (windows_in windows.now) }
    requires whole { IsWholeNetwork instance.now network.now }
    requires plan { IsPlan instance.now 1 plan.now }
    requires incumbent { IsPlan instance.now 1 incumbent.now }
    ensures { IfOk result (λ r. IsPlan instance.now 1 r.plan) }
{
    let relaxed = coarsen(alloc, instance, windows, network, plan)?;
    repair(alloc, instance, windows, &relaxed, incumbent)
}

#[test]
fn groups_are_kept_where_they_can_be(rt: HostRuntime) -> Result<(), Fail> {
    let alloc = rt.alloc();
    for (text, delayed, timed, costs, departs) in [
        (LINE, (0, 0), false, 300, [0, 4, 0].as_slice()),
        (
            LINE_AND_PAIR,
            (2, 3),
            false,
            409,
            [0, 4, 0, 3, 3].as_slice(),
        ),
        (PAIR, (0, 3), true, 109, [3, 3].as_slice()),
    ] {
        assert!(rt; text.len() < 2000);
        let instance = instance_of(alloc, text)?;
        let Verdict::All = feasible(alloc, &instance)? else {
            assert!(rt; false);
            return Ok(());
        };
        let incumbent = direct(alloc, &instance)?;
        let mut plan = direct(alloc, &instance)?;
        delay(&mut plan, delayed.0, delayed.1);
        assert!(rt; test_plan(&instance, &plan).is_ok());
        let windows = Windows::of(alloc, &instance)?;
        let points = initial(alloc, &instance, &windows)?;
        let network = Network::of(alloc, &instance, &points, 0)?;
        let is = repaired(alloc, &instance, &windows, &network, &plan, &incumbent)?;
        assert_eq!(rt; is.timed, timed);
        assert_eq!(rt; cost(&instance, &is.plan), costs);
        assert_eq!(rt; departures(alloc, &is.plan)?.as_slice(), departs);
    }
    Ok(())
}
