//! The direct plan: each shipment by itself, by the first arcs that begin walks of least time.
ghost use Rattle.std.specs.Prelude.{◌≡◌, ◌+◌, ◌<◌, ◌↔◌, length, IfOk, IsTrue};
ghost use Rattle.fp_model.specs.Plans.{IsPlan};
ghost use Rattle.fp_model.specs.Problem.{IsShipment, IsValid, arc_at};
ghost use Rattle.fp_model.specs.Times.{IsDistance};
ghost use Rattle.fp_flatnet.specs.Directs.{AreOnwardArcs, BeginsLeast, IsDirect, IsDirectPlan, IsFirstBelow};
ghost use Rattle.fp_flatnet.specs.Distances.{AreTimesTo};
ghost use Rattle.fp_flatnet.specs.Verdicts.{AllInTime, IsInTime};

use crate::NoMemory;
use crate::arc_graphs::backward_graph;
use crate::least_times::times_to;
use crate::window_rows::time_onward;
use fp_model::{Instance, Leg, Plan, Shipment};
use std::alloc::Global;

/// The direct plan of an instance for which the verdict is `All`.
///
/// At each terminal a shipment takes the arc of least number with which a walk of least time from
/// there to its destination begins. It leaves at its release, and leaves each next terminal at its
/// arrival plus the hold. `NoMemory` only where no memory is found.
pub fn direct(alloc: Global, instance: &Instance) -> Result<Plan, NoMemory>
    requires { AllInTime instance.now }
    ensures plan { IfOk result (IsPlan instance.now 1) }
    ensures exact { IfOk result (IsDirectPlan instance.now) }
{
    let backward = backward_graph(alloc, instance)?;
    let mut routes = Vec::new(alloc);
    for shipment in instance.shipments() {
        let times = times_to(alloc, instance, &backward, shipment.to)?;
        let onward = onward_arcs(alloc, instance, shipment.to, &times)?;
        routes.push(direct_route(alloc, instance, shipment, &times, &onward)?)?;
    }
    Ok(Plan { routes })
}

// Whether an arc begins a walk of least time to a terminal, where the least times from its tail and
// its head are known.
fn begins_least(
    instance: &Instance,
    there: u32,
    number: u32,
    from_tail: Option<u32>,
    from_head: Option<u32>,
) -> bool
    requires number { number < length instance.now.arcs }
    requires from_tail { IsDistance instance.now (arc_at instance.now number).from there from_tail }
    requires from_head { IsDistance instance.now (arc_at instance.now number).to there from_head }
    ensures begins { IsTrue result ↔ BeginsLeast instance.now (arc_at instance.now number).from there number }
    ensures valid { IsValid instance.now }
{
    // Brings the instance's validity into the proof, for the caller.
    let _known = instance.arcs();
    match (from_tail, from_head) {
        (Some(least), Some(after)) => time_onward(instance, there, number, after) == least,
        _ => false,
    }
}

// The first arc up to and with a number that begins a walk of least time from that arc's tail to a
// terminal, where the first one before it is known.
fn first_onward(
    instance: &Instance,
    there: u32,
    number: u32,
    earlier: Option<u32>,
    from_tail: Option<u32>,
    from_head: Option<u32>,
) -> Option<u32>
    requires number { number < length instance.now.arcs }
    requires earlier { IsFirstBelow instance.now there number (arc_at instance.now number).from earlier }
    requires from_tail { IsDistance instance.now (arc_at instance.now number).from there from_tail }
    requires from_head { IsDistance instance.now (arc_at instance.now number).to there from_head }
    ensures { IsFirstBelow instance.now there (number + 1) (arc_at instance.now number).from result }
{
    if earlier.is_some() {
        return earlier;
    }
    if begins_least(instance, there, number, from_tail, from_head) {
        return Some(number);
    }
    None
}

// For each terminal the arc of least number that begins a walk of least time from it to a terminal,
// if there is one.
pub(crate) fn onward_arcs(
    alloc: Global,
    instance: &Instance,
    there: u32,
    times: &[Option<u32>],
) -> Result<Vec<Option<u32>>, NoMemory>
    requires { AreTimesTo instance.now there times.now }
    ensures { IfOk result (λ onward. AreOnwardArcs instance.now there onward.items) }
{
    let mut onward = vec![in alloc; None; times.len()]?;
    for number in 0..instance.arcs().len() {
        let arc = instance.arc(number as u32);
        let tail = arc.from as usize;
        let from_head = times[arc.to as usize];
        let earlier = onward[tail];
        onward[tail] = first_onward(
            instance,
            there,
            number as u32,
            earlier,
            times[tail],
            from_head,
        );
    }
    Ok(onward)
}

// The direct route of a shipment that is in time.
pub(crate) fn direct_route(
    alloc: Global,
    instance: &Instance,
    shipment: &Shipment,
    times: &[Option<u32>],
    onward: &[Option<u32>],
) -> Result<Vec<Leg>, NoMemory>
    requires shipment { IsShipment (length instance.now.terminals) shipment.now }
    requires in_time { IsInTime instance.now shipment.now }
    requires times { AreTimesTo instance.now shipment.now.to times.now }
    requires onward { AreOnwardArcs instance.now shipment.now.to onward.now }
    ensures { IfOk result (λ legs. IsDirect instance.now shipment.now legs.items) }
{
    // Brings the instance's validity into the proof: so the walk's times are small.
    let _known = instance.arcs();
    let mut legs = Vec::new(alloc);
    let mut here = shipment.from;
    let mut ready = shipment.release;
    while let Some(arc) = onward[here as usize] {
        legs.push(Leg { arc, depart: ready })?;
        here = instance.arc(arc).to;
        ready += instance.step(arc);
    }
    Ok(legs)
}
