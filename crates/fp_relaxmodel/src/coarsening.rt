//! The relaxed plan of a plan.
ghost use Rattle.std.specs.Prelude.{◌≡◌, ◌<◌, ◌≤◌, All, IfOk, length, map};
ghost use Rattle.fp_model.specs.Costs.{cost};
ghost use Rattle.fp_model.specs.Plans.{IsPlan};
ghost use Rattle.fp_model.specs.Routes.{ArcsExist};
ghost use Rattle.fp_flatnet.specs.Belonging.{BelongsTo};
ghost use Rattle.fp_flatnet.specs.Tables.{windows_in};
ghost use Rattle.fp_flatnet.specs.Windows.{PlanLiesWithin};
ghost use Rattle.fp_longestarcs.specs.Classes.{class_of};
ghost use Rattle.fp_longestarcs.specs.Networks.{points_in};
ghost use Rattle.fp_longestarcs.specs.Whole.{HasArcsOf, IsWholeNetwork};
ghost use Rattle.fp_relaxmodel.specs.Relaxed.{CoarsensPlans, IsRelaxedPlan, coarsened};
ghost use Rattle.fp_longestarcs.specs.Stops.{leg_of};

use crate::NoMemory;
use crate::relaxed_plans::RelaxedPlan;
use fp_flatnet::Windows;
use fp_longestarcs::{Network, Stop, TimedWalk};
use fp_model::{Instance, Leg, Plan};
use std::alloc::Global;

// The class of a leg.
fn class(instance: &Instance, network: &Network, leg: Leg) -> Stop
    requires arc { leg.arc < length instance.now.arcs }
    requires arcs { HasArcsOf instance.now network.now }
    ensures { leg_of result ≡ class_of instance.now (points_in network.now) 1 leg }
{
    Stop {
        arc: leg.arc,
        point: network.floor(instance.arc(leg.arc).from, leg.depart),
    }
}

// The classes of a route's legs.
fn classes(
    alloc: Global,
    instance: &Instance,
    network: &Network,
    route: &[Leg],
) -> Result<TimedWalk, NoMemory>
    requires route { ArcsExist instance.now route.now }
    requires arcs { HasArcsOf instance.now network.now }
    ensures { IfOk result (λ walk.
        walk ≡ map (class_of instance.now (points_in network.now) 1) route.now) }
{
    let mut stops = Vec::with_capacity(alloc, route.len())?;
    for leg in route {
        stops.push(class(instance, network, *leg))?;
    }
    Ok(TimedWalk { stops })
}

// The classes of the legs of all routes.
fn relaxed(
    alloc: Global,
    instance: &Instance,
    network: &Network,
    plan: &Plan,
) -> Result<RelaxedPlan, NoMemory>
    requires routes { All (ArcsExist instance.now) plan.now }
    requires arcs { HasArcsOf instance.now network.now }
    ensures { IfOk result (λ r. r ≡ coarsened instance.now (points_in network.now) 1 plan.now) }
{
    let mut walks = Vec::with_capacity(alloc, plan.routes.len())?;
    for route in &plan.routes {
        walks.push(classes(alloc, instance, network, route)?)?;
    }
    Ok(RelaxedPlan { walks })
}

/// The relaxed plan of a plan that lies within the windows: each departure is moved back to the
/// greatest point of its terminal that is not after it.
///
/// It costs no more than the plan. The same is true of every plan over any denominator that lies
/// within the windows, whatever the points of the network are. The windows belong to the instance,
/// and the network is whole for it; the windows serve the contract alone. `NoMemory` only where no
/// memory is found.
pub fn coarsen(
    alloc: Global,
    instance: &Instance,
    windows: &Windows,
    network: &Network,
    plan: &Plan,
) -> Result<RelaxedPlan, NoMemory>
    requires belongs { BelongsTo instance.now windows.now }
    requires whole { IsWholeNetwork instance.now network.now }
    requires plan { IsPlan instance.now 1 plan.now }
    requires within { PlanLiesWithin (windows_in windows.now) 1 plan.now }
    ensures exact { IfOk result (λ r.
        r ≡ coarsened instance.now (points_in network.now) 1 plan.now) }
    ensures relaxed { IfOk result
        (IsRelaxedPlan instance.now (windows_in windows.now) (points_in network.now)) }
    ensures cheaper { IfOk result (λ r. cost instance.now r ≤ cost instance.now plan.now) }
    ensures all { CoarsensPlans instance.now (windows_in windows.now) (points_in network.now) }
{
    relaxed(alloc, instance, network, plan)
}
