//! The way on from kept legs: fastest among the walks that avoid the terminals where a shipment was.
ghost use Rattle.std.specs.Prelude.{ℕ, ◌≡◌, ◌≢◌, ◌+◌, ◌<◌, ◌≤◌, ◌^◌, ◌↔◌, ◌++◌, List, [], length, map, MatchOption, IfOk, IfSome, IsTrue, IsSomeAnd, Some, None, slice_index_or};
ghost use Rattle.fp_base_lists.specs.Membership.{list_has};
ghost use Rattle.fp_labels.specs.Labels.{AreLabels, cost_to};
ghost use Rattle.fp_model.specs.Problem.{IsShipment, arc_at, hold_at};
ghost use Rattle.fp_model.specs.Routes.{ArcsExist, ArrivesBy, Carries, LeavesReady};
ghost use Rattle.fp_flatnet.specs.ArcGraphs.{backward_edge, backward_shape};
ghost use Rattle.fp_replan.specs.Beginnings.{IsBeginning};
ghost use Rattle.fp_replan.specs.KeptLegs.{place_after as place_after_of, places_seen};
ghost use Rattle.fp_replan.specs.Starts.{AddsTo, BeginsPast, BeginsPastFirst, GoesOnPast, HasLegsPast, open_cost as open_cost_of, open_costs as open_costs_of, ready_after as ready_after_of};

use crate::NoMemory;
use crate::beginnings::place_after;
use fp_labels::{Edge, Graph, Labels, distances};
use fp_model::{Instance, Leg, Shipment};
use std::alloc::Global;

/// The graph in which each arc leads from its head to its tail. `NoMemory` only where no memory is
/// found.
pub fn backward_graph(alloc: Global, instance: &Instance) -> Result<Graph, NoMemory>
    ensures { IfOk result (λ graph. graph ≡ backward_shape instance.now) }
{
    let edges = backward_edges(alloc, instance)?;
    Graph::new(alloc, instance.terminals().len() as u32, &edges)
}

// The arcs turned round.
fn backward_edges(alloc: Global, instance: &Instance) -> Result<Vec<Edge>, NoMemory>
    ensures { IfOk result (λ edges. edges.items ≡ map backward_edge instance.now.arcs) }
{
    let arcs = instance.arcs();
    arcs.iter()
        .map(|arc| Edge {
            from: arc.to,
            to: arc.from,
        })
        .collect(alloc)
}

/// Terminals, and then those where a shipment was that went by legs: its origin, and the end of each
/// leg. `NoMemory` only where no memory is found.
pub fn terminals_with(
    alloc: Global,
    instance: &Instance,
    terminals: &[u32],
    origin: u32,
    legs: &[Leg],
) -> Result<Vec<u32>, NoMemory>
    requires { ArcsExist instance.now legs.now }
    ensures { IfOk result (λ gone. gone.items ≡ terminals.now ++ places_seen instance.now origin legs.now) }
{
    let mut gone = terminals.to_vec(alloc)?;
    gone.push(origin)?;
    for leg in legs {
        gone.push(instance.arc(leg.arc).to)?;
    }
    Ok(gone)
}

/// Whether a terminal is one of those. Takes no memory.
pub fn is_among(terminals: &[u32], terminal: u32) -> bool
    ensures { result ≡ list_has terminals.now terminal }
{
    terminals.iter().any(|other| *other == terminal)
}

// The step of an arc as the cost of its edge, and nothing where it enters one of the terminals.
fn open_cost(instance: &Instance, gone: &[u32], number: u32) -> Option<u128>
    requires { number < length instance.now.arcs }
    ensures { result ≡ open_cost_of instance.now gone.now (arc_at instance.now number) }
{
    let to = instance.arc(number).to;
    if is_among(gone, to) {
        return None;
    }
    Some(u128::from(instance.step(number)))
}

// So of each arc.
fn open_costs(
    alloc: Global,
    instance: &Instance,
    gone: &[u32],
) -> Result<Vec<Option<u128>>, NoMemory>
    ensures { IfOk result (λ costs. costs.items ≡ open_costs_of instance.now gone.now) }
{
    let mut costs = Vec::new(alloc);
    for number in 0..instance.arcs().len() {
        costs.push(open_cost(instance, gone, number as u32))?;
    }
    Ok(costs)
}

// When a shipment can leave after legs, or `None` where one of them leaves before it can.
fn ready_after(instance: &Instance, release: u32, legs: &[Leg]) -> Option<u64>
    requires { ArcsExist instance.now legs.now }
    ensures ready { MatchOption result (LeavesReady instance.now 1 release legs.now → ⊥)
        (λ ready. LeavesReady instance.now 1 release legs.now × (ready ≡ ready_after_of instance.now release legs.now)) }
    ensures small { IfSome result (λ ready. ready ≤ 2 ^ 33) }
{
    let mut ready = u64::from(release);
    for leg in legs {
        let depart = u64::from(leg.depart);
        if depart < ready {
            return None;
        }
        ready = depart + u64::from(instance.step(leg.arc));
    }
    Some(ready)
}

// Whether the last of the legs arrives by the due time.
fn arrives_by(instance: &Instance, due: u32, legs: &[Leg]) -> bool
    requires { ArcsExist instance.now legs.now }
    ensures { IsTrue result ↔ ArrivesBy instance.now 1 due legs.now }
{
    if legs.is_empty() {
        return true;
    }
    let last = &legs[legs.len() - 1];
    u64::from(last.depart) + u64::from(instance.arc(last.arc).time) <= u64::from(due)
}

// Whether a shipment with so many steps left to its destination is there by its due time.
fn is_in_time(
    instance: &Instance,
    shipment: &Shipment,
    labels: &Labels,
    here: u32,
    ready: u64,
) -> bool
    requires here { here < length labels.now.costs }
    requires shipment { IsShipment (length instance.now.terminals) shipment.now }
    ensures { IsTrue result ↔ IsSomeAnd (cost_to labels.now here) (λ steps. ready + steps ≤ shipment.now.due + hold_at instance.now shipment.now.to) }
{
    match labels.to(here) {
        Some(steps) => {
            let latest = u128::from(shipment.due) + u128::from(instance.hold(shipment.to));
            u128::from(ready) + steps <= latest
        }
        None => false,
    }
}

// Whether an arc and the least steps on from its head are the steps that are left.
fn is_on_way(
    instance: &Instance,
    costs: &[Option<u128>],
    labels: &Labels,
    number: u32,
    left: u128,
) -> bool
    requires number { number < length instance.now.arcs }
    requires costs { length costs.now ≡ length instance.now.arcs }
    requires labels { length labels.now.costs ≡ length instance.now.terminals }
    ensures { IsTrue result ↔ AddsTo left (slice_index_or costs.now number None) (cost_to labels.now (arc_at instance.now number).to) }
{
    let head = instance.arc(number).to;
    match (costs[number as usize], labels.to(head)) {
        (Some(cost), Some(onward)) => onward <= left && left - onward == cost,
        _ => false,
    }
}

// The first arc that begins a walk of least time to the destination of a shipment, among those that
// avoid the terminals where it was, if there is one.
fn first_onward(
    instance: &Instance,
    shipment: &Shipment,
    gone: &[u32],
    costs: &[Option<u128>],
    labels: &Labels,
    here: u32,
) -> Option<u32>
    requires costs { costs.now ≡ open_costs_of instance.now gone.now }
    requires labels { AreLabels (backward_shape instance.now) (open_costs_of instance.now gone.now) shipment.now.to labels.now }
    requires here { here < length instance.now.terminals }
    ensures { MatchOption result
        ((a : ℕ) → a < length instance.now.arcs → BeginsPast instance.now gone.now here shipment.now.to a → ⊥)
        (BeginsPastFirst instance.now gone.now here shipment.now.to) }
{
    // Brings the instance's validity into the proof: so no arc takes no time.
    let _known = instance.arcs();
    let left = labels.to(here)?;
    for number in 0..instance.arcs().len() as u32 {
        if instance.arc(number).from == here && is_on_way(instance, costs, labels, number, left) {
            return Some(number);
        }
    }
    None
}

// Equal legs.
fn copy_legs(alloc: Global, legs: &[Leg]) -> Result<Vec<Leg>, NoMemory>
    ensures { IfOk result (λ copies. copies.items ≡ legs.now) }
{
    legs.to_vec(alloc)
}

// A route that begins with legs of a shipment, and goes on to its destination in time.
fn onward_legs(
    instance: &Instance,
    shipment: &Shipment,
    front: Vec<Leg>,
    gone: &[u32],
    costs: &[Option<u128>],
    labels: &Labels,
    ready: u32,
) -> Result<Vec<Leg>, NoMemory>
    requires begins { IsBeginning instance.now shipment.now front.items }
    requires shipment { IsShipment (length instance.now.terminals) shipment.now }
    requires costs { costs.now ≡ open_costs_of instance.now gone.now }
    requires labels { AreLabels (backward_shape instance.now) (open_costs_of instance.now gone.now) shipment.now.to labels.now }
    requires ready { ready ≡ ready_after_of instance.now shipment.now.release front.items }
    requires in_time { IsSomeAnd (cost_to labels.now (place_after_of instance.now shipment.now.from front.items))
        (λ steps. ready + steps ≤ shipment.now.due + hold_at instance.now shipment.now.to) }
    ensures { IfOk result (λ legs. GoesOnPast instance.now gone.now shipment.now front.items legs.items) }
{
    // Brings the instance's validity into the proof: so the walk's times are small.
    let _known = instance.arcs();
    let mut here = place_after(instance, shipment.from, &front);
    let mut legs = front;
    let mut ready = ready;
    while let Some(arc) = first_onward(instance, shipment, gone, costs, labels, here) {
        legs.push(Leg { arc, depart: ready })?;
        here = instance.arc(arc).to;
        ready += instance.step(arc);
    }
    Ok(legs)
}

/// A route of a shipment that begins with legs and goes on from them past terminals and those of the
/// legs, or `None` where no legs that carry it begin with them and enter none of the terminals, over
/// whatever denominator.
///
/// The graph is the [`backward_graph`] of the instance. The shipment is one as instances have them,
/// though it need not be one of the instance's. It goes on as [`start`](crate::start) says.
/// `NoMemory` only where no memory is found.
pub fn begun_route(
    alloc: Global,
    instance: &Instance,
    graph: &Graph,
    shipment: &Shipment,
    front: &[Leg],
    terminals: &[u32],
) -> Result<Option<Vec<Leg>>, NoMemory>
    requires graph { graph.now ≡ backward_shape instance.now }
    requires shipment { IsShipment (length instance.now.terminals) shipment.now }
    requires begins { IsBeginning instance.now shipment.now front.now }
    ensures { IfOk result (λ route. MatchOption route (HasLegsPast instance.now terminals.now shipment.now front.now → ⊥)
        (λ legs. Carries instance.now 1 shipment.now legs.items
        × GoesOnPast instance.now (terminals.now ++ places_seen instance.now shipment.now.from front.now) shipment.now front.now legs.items)) }
{
    // Brings the instance's validity into the proof: so costs are small.
    let _known = instance.arcs();
    let Some(ready) = ready_after(instance, shipment.release, front) else {
        return Ok(None);
    };
    let here = place_after(instance, shipment.from, front);
    if here == shipment.to {
        if arrives_by(instance, shipment.due, front) {
            return Ok(Some(copy_legs(alloc, front)?));
        }
        return Ok(None);
    }
    let gone = terminals_with(alloc, instance, terminals, shipment.from, front)?;
    let costs = open_costs(alloc, instance, &gone)?;
    let labels = distances(alloc, graph, &costs, shipment.to)?;
    if !is_in_time(instance, shipment, &labels, here, ready) {
        return Ok(None);
    }
    let begun = copy_legs(alloc, front)?;
    let legs = onward_legs(
        instance,
        shipment,
        begun,
        &gone,
        &costs,
        &labels,
        ready as u32,
    )?;
    Ok(Some(legs))
}
