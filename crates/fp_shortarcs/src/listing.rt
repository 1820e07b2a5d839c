//! The too short legs of a relaxed plan.
ghost use Rattle.std.specs.Prelude.{ℕ, List, [], ◌≡◌, ◌≢◌, ◌+◌, ◌-◌, ◌<◌, ◌^◌, length};
ghost use Rattle.std.specs.Prelude.{All, IfOk, OnOk};
ghost use Rattle.fp_model.specs.declared.parts.Member.{Member};
ghost use Rattle.fp_model.specs.Members.{arc_lists};
ghost use Rattle.fp_flatnet.specs.Belonging.{BelongsTo};
ghost use Rattle.fp_flatnet.specs.Tables.{windows_in};
ghost use Rattle.fp_longestarcs.specs.Networks.{IsClass, points_in};
ghost use Rattle.fp_longestarcs.specs.Whole.{IsWholeNetwork};
ghost use Rattle.fp_allowed.specs.InitialPoints.{HasInitialPoints};
ghost use Rattle.fp_relaxmodel.specs.Groups.{AreGroups};
ghost use Rattle.fp_relaxmodel.specs.Relaxed.{IsRelaxedPlan};
ghost use Rattle.fp_longestarcs.specs.Stops.{leg_of};
ghost use Rattle.fp_dispatch.specs.Times.{HaveTimes};
ghost use Rattle.fp_shortarcs.specs.declared.shorts.Short.{Short};
ghost use Rattle.fp_shortarcs.specs.Listing.{AreTooShortBefore, IsMissed};
ghost use Rattle.fp_shortarcs.specs.TooShort.{AreTooShort, CanBePoint};

use crate::NoMemory;
use crate::shorts::Short;
use fp_flatnet::Windows;
use fp_longestarcs::Network;
use fp_model::Instance;
use fp_relaxmodel::{RelaxedPlan, Stop};
use fp_timenodes::Place;
use std::alloc::Global;

// The place that a class does not reach, if its head lies before the time at which a shipment can
// go on.
fn missed(instance: &Instance, network: &Network, stop: Stop) -> Option<Place>
    requires whole { IsWholeNetwork instance.now network.now }
    requires class { IsClass network.now (leg_of stop) }
    ensures { IsMissed instance.now (points_in network.now) (leg_of stop) result }
{
    let at = stop.point + instance.step(stop.arc);
    if network.head(stop.arc, stop.point) < at {
        Some(Place {
            terminal: instance.arc(stop.arc).to,
            at,
        })
    } else {
        None
    }
}

// The too short legs of a shipment's walk join those of the shipments before it.
fn add_walk(
    found: &mut Vec<Short>,
    instance: &Instance,
    network: &Network,
    relaxed: &RelaxedPlan,
    shipment: u32,
) -> Result<(), NoMemory>
    requires whole { IsWholeNetwork instance.now network.now }
    requires classes { All (All (IsClass network.now)) relaxed.now }
    requires few_legs { All (λ walk. length walk < 2 ^ 32 - 1) relaxed.now }
    requires exists { shipment < length relaxed.now }
    requires so_far { AreTooShortBefore instance.now (points_in network.now) relaxed.now
        (record { shipment = shipment; leg = 0 }) found.old.items }
    ensures { OnOk result (AreTooShortBefore instance.now (points_in network.now) relaxed.now
        (record { shipment = shipment + 1; leg = 0 }) found.new.items) }
{
    let stops = &relaxed.walks[shipment as usize].stops;
    for leg in 0..stops.len().saturating_sub(1) {
        if let Some(place) = missed(instance, network, stops[leg]) {
            found.push(Short {
                shipment,
                leg: leg as u32,
                terminal: place.terminal,
                at: place.at,
            })?;
        }
    }
    Ok(())
}

/// The legs of a relaxed plan that are too short: each that isn't the last of its walk and whose
/// class has its head before the class's point and the arc's step. They go by shipment and then
/// leg.
///
/// Each has its place, the arc's head terminal at that time, which is no point of the network yet.
/// Where there are no times, over whatever denominator, for the plan's routes with the legs of each
/// class in one group, some leg is too short. The windows belong to the instance, the network is
/// whole for it and has the initial points of both among its points, and the plan is a relaxed plan
/// of them; the windows serve the contract alone. `NoMemory` only where no memory is found.
pub fn too_short(
    alloc: Global,
    instance: &Instance,
    windows: &Windows,
    network: &Network,
    relaxed: &RelaxedPlan,
) -> Result<Vec<Short>, NoMemory>
    requires belongs { BelongsTo instance.now windows.now }
    requires whole { IsWholeNetwork instance.now network.now }
    requires initial { HasInitialPoints instance.now windows.now.anchors (points_in network.now) }
    requires relaxed { IsRelaxedPlan instance.now (windows_in windows.now) (points_in network.now)
        relaxed.now }
    ensures exact { IfOk result (λ shorts.
        AreTooShort instance.now (points_in network.now) relaxed.now shorts.items) }
    ensures only { (others : List Short) →
        AreTooShort instance.now (points_in network.now) relaxed.now others →
        IfOk result (λ shorts. shorts.items ≡ others) }
    ensures places { IfOk result (λ shorts.
        All (CanBePoint instance.now (points_in network.now)) shorts.items) }
    ensures clash { (groups : List (List Member)) → AreGroups relaxed.now groups →
        (HaveTimes instance.now (windows_in windows.now) (arc_lists relaxed.now) groups → ⊥) →
        IfOk result (λ shorts. shorts.items ≢ []) }
{
    let mut found = Vec::new(alloc);
    for shipment in 0..relaxed.walks.len() {
        add_walk(&mut found, instance, network, relaxed, shipment as u32)?;
    }
    Ok(found)
}
