//! Least times of walks, read from the labels of the flat network's graphs.
ghost use Rattle.std.specs.Prelude.{◌≡◌, ◌-◌, ◌<◌, ◌≤◌, length, IfOk, IfSome};
ghost use Rattle.std.specs.Option.{option_map};
ghost use Rattle.fp_labels.specs.Labels.{AreLabels};
ghost use Rattle.fp_model.specs.Problem.{IsShipment};
ghost use Rattle.fp_model.specs.Times.{IsDistance, IsFastest};
ghost use Rattle.fp_flatnet.specs.ArcGraphs.{backward_shape, forward_shape, step_costs, IsArcGraph};
ghost use Rattle.fp_flatnet.specs.Distances.{AreTimesFrom, AreTimesTo};

use crate::NoMemory;
use crate::arc_graphs::ArcGraph;
use fp_labels::Labels;
use fp_model::limits::{LONGEST_STEP, MOST_ARCS};
use fp_model::{Instance, Shipment};
use std::alloc::Global;

// No least time is longer than this, in the input's unit: a walk of least time goes by each arc at
// most once, and no step is longer than the longest.
pub(crate) const LONGEST_LEAST_TIME: u32 = 101_000_000;

const _: () = prove!(LONGEST_LEAST_TIME as usize == MOST_ARCS * LONGEST_STEP as usize);

// The time of a walk with these steps, the last of which has this hold.
fn without_hold(steps: Option<u128>, hold: u32) -> Option<u32>
    requires { IfSome steps (λ n. (hold ≤ n) × (n ≤ LONGEST_LEAST_TIME)) }
    ensures { result ≡ option_map (λ n. n - hold) steps }
{
    steps.map(|steps| (steps - u128::from(hold)) as u32)
}

// The least time from one terminal to another, read from the labels of the first.
fn time_from(instance: &Instance, labels: &Labels, here: u32, there: u32) -> Option<u32>
    requires labels { AreLabels (forward_shape instance.now) (step_costs instance.now) here labels.now }
    requires there { there < length instance.now.terminals }
    ensures { IsDistance instance.now here there result }
{
    if here == there {
        return Some(0);
    }
    without_hold(labels.to(there), instance.hold(there))
}

// The least time from one terminal to another, read from the labels of the second along the arcs
// turned round.
fn time_to(instance: &Instance, labels: &Labels, here: u32, there: u32) -> Option<u32>
    requires labels { AreLabels (backward_shape instance.now) (step_costs instance.now) there labels.now }
    requires here { here < length instance.now.terminals }
    requires there { there < length instance.now.terminals }
    ensures { IsDistance instance.now here there result }
{
    if here == there {
        return Some(0);
    }
    without_hold(labels.to(here), instance.hold(there))
}

// The fastest time of a shipment, if there is a walk from its origin to its destination.
pub(crate) fn fastest_time(
    alloc: Global,
    instance: &Instance,
    forward: &ArcGraph,
    shipment: &Shipment,
) -> Result<Option<u32>, NoMemory>
    requires forward { IsArcGraph instance.now (forward_shape instance.now) forward.now }
    requires shipment { IsShipment (length instance.now.terminals) shipment.now }
    ensures { IfOk result (IsFastest instance.now shipment.now) }
{
    let labels = forward.labels(alloc, instance, shipment.from)?;
    Ok(time_from(instance, &labels, shipment.from, shipment.to))
}

// For each terminal the least time of a walk from one terminal to it, if there is a walk.
pub(crate) fn times_from(
    alloc: Global,
    instance: &Instance,
    forward: &ArcGraph,
    here: u32,
) -> Result<Vec<Option<u32>>, NoMemory>
    requires forward { IsArcGraph instance.now (forward_shape instance.now) forward.now }
    requires here { here < length instance.now.terminals }
    ensures { IfOk result (λ times. AreTimesFrom instance.now here times.items) }
{
    let labels = forward.labels(alloc, instance, here)?;
    let mut times = Vec::new(alloc);
    for there in 0..instance.terminals().len() {
        times.push(time_from(instance, &labels, here, there as u32))?;
    }
    Ok(times)
}

// For each terminal the least time of a walk from it to one terminal, if there is a walk.
pub(crate) fn times_to(
    alloc: Global,
    instance: &Instance,
    backward: &ArcGraph,
    there: u32,
) -> Result<Vec<Option<u32>>, NoMemory>
    requires backward { IsArcGraph instance.now (backward_shape instance.now) backward.now }
    requires there { there < length instance.now.terminals }
    ensures { IfOk result (λ times. AreTimesTo instance.now there times.items) }
{
    let labels = backward.labels(alloc, instance, there)?;
    let mut times = Vec::new(alloc);
    for here in 0..instance.terminals().len() {
        times.push(time_to(instance, &labels, here as u32, there))?;
    }
    Ok(times)
}
