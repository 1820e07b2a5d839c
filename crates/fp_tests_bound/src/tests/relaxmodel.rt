//! Plans made coarse, their costs and groups, and what is a route.

ghost use Rattle.fp_model.specs.Plans.{IsPlan};
ghost use Rattle.fp_model.specs.Routes.{ArcsExist};
ghost use Rattle.fp_flatnet.specs.Belonging.{BelongsTo};
ghost use Rattle.fp_flatnet.specs.Tables.{windows_in};
ghost use Rattle.fp_flatnet.specs.Windows.{CoverPlans};
ghost use Rattle.fp_longestarcs.specs.Whole.{IsWholeNetwork};
ghost use Rattle.fp_longestarcs.specs.Stops.{legs_of};

use fp_flatnet::{Windows, initial};
use fp_longestarcs::Network;
use fp_model::{Instance, Leg, Member, Plan, test_plan};
use fp_relaxmodel::{
    NoMemory, RelaxedPlan, Stop, TimedWalk, coarsen, groups, is_route, relaxed_cost,
};
use fp_tests_examples::instance_of;
use std::alloc::Global;
use std::test::Fail;

// An arc from A to B and one back, and two shipments from A to B.
const THERE_AND_BACK: &str =
    "terminal,A\nterminal,B\narc,A,B,5,10,100,1\narc,B,A,5,10,100,1\nshipment,S1,A,B,4,0,10\nshipment,S2,A,B,5,3,12\n";

// Both shipments go over the first arc.
fn plan_at(alloc: Global, first: u32, second: u32) -> Result<Plan, NoMemory> {
    let first = vec![in alloc;
        Leg {
            arc: 0,
            depart: first
        },
    ]?;
    let second = vec![in alloc;
        Leg {
            arc: 0,
            depart: second
        },
    ]?;
    Ok(Plan {
        routes: vec![in alloc; first, second]?,
    })
}

// The relaxed plan of a plan, its cost and its groups.
fn relaxed(
    alloc: Global,
    instance: &Instance,
    windows: &Windows,
    network: &Network,
    plan: &Plan,
) -> Result<(RelaxedPlan, u128, Vec<Vec<Member>>), NoMemory>
    requires belongs { BelongsTo instance.now windows.now }
    requires covers { CoverPlans instance.now (windows_in windows.now) }
    requires whole { IsWholeNetwork instance.now network.now }
    requires plan { IsPlan instance.now 1 plan.now }
{
    let relaxed = coarsen(alloc, instance, windows, network, plan)?;
    let cost = relaxed_cost(instance, &relaxed);
    let groups = groups(alloc, &relaxed)?;
    Ok((relaxed, cost, groups))
}

// The point of the first class of a shipment.
fn first_point(relaxed: &RelaxedPlan, shipment: usize) -> Option<u32> {
    let walk = relaxed.walks.get(shipment)?;
    let stop = walk.stops.first()?;
    Some(stop.point)
}

#[test]
fn plans_coarsen(rt: HostRuntime) -> Result<(), Fail> {
    let alloc = rt.alloc();
    let instance = instance_of(alloc, THERE_AND_BACK)?;
    let windows = Windows::of(alloc, &instance)?;
    let network = Network::of(alloc, &instance, &initial(alloc, &instance, &windows)?, 0)?;
    for (departs, points, cost, sizes) in [
        ((0, 3), (0, 3), 209, [1, 1].as_slice()),
        ((4, 4), (3, 3), 109, [2].as_slice()),
    ] {
        let plan = plan_at(alloc, departs.0, departs.1)?;
        assert!(rt; test_plan(&instance, &plan).is_ok());
        let (plan, costs, groups) = relaxed(alloc, &instance, &windows, &network, &plan)?;
        assert_eq!(rt; first_point(&plan, 0), Some(points.0));
        assert_eq!(rt; first_point(&plan, 1), Some(points.1));
        assert_eq!(rt; costs, cost);
        let lens: Vec<usize> = groups.iter().map(|group| group.len()).collect(alloc)?;
        assert_eq!(rt; lens.as_slice(), sizes);
    }
    Ok(())
}

// Whether a walk by the first of these classes, or by both, is a route.
fn is_way(alloc: Global, instance: &Instance, stops: &[Stop]) -> Result<bool, NoMemory>
    requires { ArcsExist instance.now (legs_of stops.now) }
{
    let walk = TimedWalk {
        stops: stops.to_vec(alloc)?,
    };
    Ok(is_route(instance, &walk))
}

#[test]
fn routes(rt: HostRuntime) -> Result<(), Fail> {
    let alloc = rt.alloc();
    let instance = instance_of(alloc, THERE_AND_BACK)?;
    assert!(rt; instance.arcs().len() == 2);
    let there = Stop { arc: 0, point: 0 };
    let back = Stop { arc: 1, point: 0 };
    assert!(rt; is_way(alloc, &instance, &[there])? && is_way(alloc, &instance, &[])?);
    assert!(rt; !is_way(alloc, &instance, &[there, back])?);
    Ok(())
}
