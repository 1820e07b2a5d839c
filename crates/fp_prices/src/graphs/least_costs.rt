//! The least cost of a shipment's way, and a walk of that cost, by a search over the graph of
//! points.
ghost use Rattle.std.specs.Prelude.{ℕ, ◌≡◌, ◌*◌, ◌<◌, ◌≤◌, ◌↔◌, All, IfOk, IfSome, IsTrue, length};
ghost use Rattle.fp_model.specs.Numbered.{shipment_at};
ghost use Rattle.fp_model.specs.Problem.{IsValid};
ghost use Rattle.fp_longestarcs.specs.Networks.{point_count, points_in};
ghost use Rattle.fp_longestarcs.specs.Stops.{legs_of};
ghost use Rattle.fp_prices.specs.ClassCosts.{IsLeastOver};
ghost use Rattle.fp_prices.specs.LeastWalks.{IsLeastWalk, IsLeastWalkOver, IsWalkOfCost};
ghost use Rattle.fp_prices.specs.PointGraphs.{AreOriginLabels, IsPointGraph};
ghost use Rattle.fp_prices.specs.Points.{last_node};
ghost use Rattle.fp_prices.specs.PricedGraphs.{IsSearchOver, UnderCosts};

use crate::NoMemory;
use crate::graphs::class_walks::class_walk;
use crate::graphs::nodes_met::repeats_no_node;
use crate::graphs::point_graphs::last_node_of;
use crate::graphs::priced_graphs::PricedGraph;
use crate::graphs::timed_walks::is_timed_walk;
use fp_labels::{Labels, distances};
use fp_longestarcs::{Stop, TimedWalk};
use std::alloc::Global;

// The least costs and walks from the origin of a shipment over the graph of points. The costs are
// those of the classes, by their numbers, `None` where a class isn't allowed, and nothing for each
// holding edge.
fn origin_labels(
    alloc: Global,
    over: &PricedGraph,
    costs: &[Option<u128>],
    shipment: u32,
) -> Result<Labels, NoMemory>
    requires { IsSearchOver over.now shipment costs.now }
    ensures { IfOk result (AreOriginLabels over.now.pricing.now.instance.now over.now.pricing.now.network.now costs.now shipment) }
{
    let origin = over.pricing.instance.shipment(shipment).from;
    let start = over.graph.firsts[origin as usize];
    distances(alloc, &over.graph.graph, costs, start)
}

// The node at which a shipment ends: the last point of its destination.
fn end_node(over: &PricedGraph, shipment: u32) -> u32
    requires graph { IsPointGraph over.now.pricing.now.instance.now over.now.pricing.now.network.now over.now.graph.now }
    requires shipment { shipment < length over.now.pricing.now.instance.now.shipments }
    ensures valid { IsValid over.now.pricing.now.instance.now }
    ensures node { result ≡ last_node over.now.pricing.now.network.now (shipment_at over.now.pricing.now.instance.now shipment).to }
    ensures exists { result < point_count over.now.pricing.now.network.now }
{
    let destination = over.pricing.instance.shipment(shipment).to;
    last_node_of(over.pricing.network, &over.graph.firsts, destination)
}

/// The least cost over the allowed timed walks of a shipment, `None` exactly where it has none. The
/// costs are those of the classes, by their numbers, `None` where a class isn't allowed, and
/// nothing for each holding edge. `NoMemory` only where no memory is found.
pub(crate) fn least_cost(
    alloc: Global,
    over: &PricedGraph,
    costs: &[Option<u128>],
    shipment: u32,
) -> Result<Option<u128>, NoMemory>
    requires { IsSearchOver over.now shipment costs.now }
    ensures exact { IfOk result (λ cost. UnderCosts over.now shipment costs.now (λ allowed price.
        IsLeastOver over.now.pricing.now.instance.now (points_in over.now.pricing.now.network.now) allowed (shipment_at over.now.pricing.now.instance.now shipment) price cost)) }
    ensures small { IfOk result (λ cost. (most : ℕ) → All (λ o. IfSome o (λ n. n ≤ most)) costs.now →
        IfSome cost (λ n. n ≤ point_count over.now.pricing.now.network.now * most)) }
{
    let labels = origin_labels(alloc, over, costs, shipment)?;
    Ok(labels.to(end_node(over, shipment)))
}

// Whether the classes are an allowed timed walk of the shipment at a cost that repeats no timed
// node, under such costs.
fn is_walk_of_cost(
    alloc: Global,
    over: &PricedGraph,
    costs: &[Option<u128>],
    shipment: u32,
    walk: &[Stop],
    cost: u128,
) -> Result<bool, NoMemory>
    requires { IsSearchOver over.now shipment costs.now }
    ensures { IfOk result (λ yes. UnderCosts over.now shipment costs.now (λ allowed price.
        IsTrue yes ↔ IsWalkOfCost over.now.pricing.now.instance.now (points_in over.now.pricing.now.network.now) allowed (shipment_at over.now.pricing.now.instance.now shipment) price (legs_of walk.now) cost)) }
{
    let instance = over.pricing.instance;
    let network = over.pricing.network;
    if !is_timed_walk(instance, network, costs, shipment, walk, cost) {
        return Ok(false);
    }
    let from = instance.shipment(shipment).from;
    repeats_no_node(alloc, instance, network, from, walk)
}

/// A walk of least cost among the allowed timed walks of a shipment that repeats no timed node,
/// `None` exactly where it has none, under such costs: the preferred one, where that is one.
/// `NoMemory` only where no memory is found.
pub(crate) fn least_walk(
    alloc: Global,
    over: &PricedGraph,
    costs: &[Option<u128>],
    shipment: u32,
    preferred: &[Stop],
) -> Result<Option<TimedWalk>, NoMemory>
    requires { IsSearchOver over.now shipment costs.now }
    ensures least { IfOk result (λ walk. UnderCosts over.now shipment costs.now (λ allowed price.
        IsLeastWalkOver over.now.pricing.now.instance.now (points_in over.now.pricing.now.network.now) allowed (shipment_at over.now.pricing.now.instance.now shipment) price walk)) }
    ensures preferred { IfOk result (λ walk. UnderCosts over.now shipment costs.now (λ allowed price.
        IsLeastWalk over.now.pricing.now.instance.now (points_in over.now.pricing.now.network.now) allowed (shipment_at over.now.pricing.now.instance.now shipment) price (legs_of preferred.now) →
        walk ≡ Some (legs_of preferred.now))) }
{
    let labels = origin_labels(alloc, over, costs, shipment)?;
    let end = end_node(over, shipment);
    let least = match labels.to(end) {
        Some(least) => least,
        None => return Ok(None),
    };
    if is_walk_of_cost(alloc, over, costs, shipment, preferred, least)? {
        return Ok(Some(TimedWalk {
            stops: Vec::from_slice(alloc, preferred)?,
        }));
    }
    let edges = labels.walk(alloc, end)?;
    Ok(Some(class_walk(alloc, over.pricing.network, &edges)?))
}
