//! The graph of a network's points, over which each shipment goes at a leaf.
ghost use Rattle.std.specs.Prelude.{◌≡◌, ◌+◌, ◌-◌, ◌<◌, ◌≤◌, ◌++◌, IfOk, OnOk, length, map};
ghost use Rattle.std.specs.List.{range_with_len};
ghost use Rattle.fp_model.specs.Problem.{IsValid, arc_at};
ghost use Rattle.fp_longestarcs.specs.Ascending.{ArePoints};
ghost use Rattle.fp_base_lists.specs.Ascending.{place_in};
ghost use Rattle.fp_longestarcs.specs.Networks.{IsClass, class_count, point_count, points_in};
ghost use Rattle.fp_longestarcs.specs.Whole.{IsWholeNetwork};
ghost use Rattle.fp_allowed.specs.Listing.{class_at};
ghost use Rattle.fp_prices.specs.Points.{AreFirstNodes, class_edge, class_edges, holding_below, last_node, next_edge, point_node};
ghost use Rattle.fp_prices.specs.PointGraphs.{IsPointGraph};
ghost use Rattle.fp_prices.specs.ClassCosts.{IsFree};

use crate::NoMemory;
use fp_base_lists::place_among;
use fp_labels::{Edge, Graph};
use fp_longestarcs::Network;
use fp_model::Instance;
use fp_timenodes::MOST_POINTS;
use std::alloc::Global;

// The points of a network as nodes, by terminal and then by time. Its edges are first those of the
// classes, by their numbers, each from its point to its head, and then the holding edges, each from
// a point to the next one of its terminal, over which a shipment waits. The shape is that of the
// network alone, so all shipments share it.
#[derive(Drop)]
pub(crate) struct PointGraph {
    pub(crate) graph: Graph,
    // The first node of each terminal.
    pub(crate) firsts: Vec<u32>,
    // How many edges there are.
    pub(crate) edges: usize,
}

impl PointGraph {
    // The graph of a whole network.
    pub(crate) fn of(
        alloc: Global,
        instance: &Instance,
        network: &Network,
    ) -> Result<PointGraph, NoMemory>
        requires whole { IsWholeNetwork instance.now network.now }
        requires few { point_count network.now ≤ MOST_POINTS }
        ensures { IfOk result (IsPointGraph instance.now network.now) }
    {
        let (firsts, nodes) = first_nodes_of(alloc, instance, network)?;
        let mut edges = edges_of_classes(alloc, instance, network, &firsts)?;
        hold_at_all(&mut edges, instance, network, &firsts)?;
        let graph = Graph::new(alloc, nodes, &edges)?;
        Ok(PointGraph {
            graph,
            firsts,
            edges: edges.len(),
        })
    }

    // Costs of all edges, at which every one is free. Those of the classes come first, by their
    // numbers.
    pub(crate) fn free_costs(&self, alloc: Global) -> Result<Vec<Option<u128>>, NoMemory>
        ensures count { IfOk result (λ costs. length costs.items ≡ self.now.edges) }
        ensures free { IfOk result (λ costs. IsFree 0 costs.items) }
    {
        vec![in alloc; Some(0u128); self.edges]
    }
}

// The first node of each terminal, and how many nodes there are.
pub(crate) fn first_nodes_of(
    alloc: Global,
    instance: &Instance,
    network: &Network,
) -> Result<(Vec<u32>, u32), NoMemory>
    requires terminals { length network.now.points ≡ length instance.now.terminals }
    requires few { point_count network.now ≤ MOST_POINTS }
    ensures firsts { IfOk result (λ nodes. AreFirstNodes network.now nodes.0.items) }
    ensures count { IfOk result (λ nodes. nodes.1 ≡ point_count network.now) }
{
    let mut firsts = Vec::new(alloc);
    let mut next = 0;
    for terminal in 0..instance.terminals().len() as u32 {
        firsts.push(next)?;
        next += network.points(terminal).len() as u32;
    }
    Ok((firsts, next))
}

// Adds the holding edges of one terminal after the other to the edges of the classes.
pub(crate) fn hold_at_all(
    edges: &mut Vec<Edge>,
    instance: &Instance,
    network: &Network,
    firsts: &[u32],
) -> Result<(), NoMemory>
    requires whole { IsWholeNetwork instance.now network.now }
    requires few { point_count network.now ≤ MOST_POINTS }
    requires firsts { AreFirstNodes network.now firsts.now }
    ensures edges { OnOk result
        (edges.new.items ≡ edges.old.items ++ holding_below network.now (length network.now.points)) }
    ensures valid { IsValid instance.now }
{
    for terminal in 0..instance.terminals().len() as u32 {
        let last = last_node_of(network, firsts, terminal);
        hold_between(edges, firsts[terminal as usize], last)?;
    }
    Ok(())
}

// Adds the holding edges over the nodes from the first to the last.
fn hold_between(edges: &mut Vec<Edge>, first: u32, last: u32) -> Result<(), NoMemory>
    requires { first ≤ last }
    ensures { OnOk result
        (edges.new.items ≡ edges.old.items ++ map next_edge (range_with_len first (last - first))) }
{
    for node in first..last {
        edges.push(Edge {
            from: node,
            to: node + 1,
        })?;
    }
    Ok(())
}

// The edges of all classes, by their numbers.
fn edges_of_classes(
    alloc: Global,
    instance: &Instance,
    network: &Network,
    firsts: &[u32],
) -> Result<Vec<Edge>, NoMemory>
    requires whole { IsWholeNetwork instance.now network.now }
    requires few { point_count network.now ≤ MOST_POINTS }
    requires firsts { AreFirstNodes network.now firsts.now }
    ensures { IfOk result (λ edges. edges.items ≡ class_edges instance.now network.now) }
{
    let mut edges = Vec::with_capacity(alloc, network.classes() as usize)?;
    for class in 0..network.classes() {
        edges.push(edge_of_class(instance, network, firsts, class))?;
    }
    Ok(edges)
}

// The edge of the class with a number.
fn edge_of_class(instance: &Instance, network: &Network, firsts: &[u32], class: u32) -> Edge
    requires whole { IsWholeNetwork instance.now network.now }
    requires few { point_count network.now ≤ MOST_POINTS }
    requires firsts { AreFirstNodes network.now firsts.now }
    requires class { class < class_count network.now }
    ensures { result ≡ class_edge instance.now network.now (class_at network.now class) }
{
    let (arc, point) = network.of_class(class);
    let head = network.head(arc, point);
    edge_to(instance, network, firsts, arc, point, head)
}

// The edge of the class of an arc and a point, where it leads to a head.
pub(crate) fn edge_to(
    instance: &Instance,
    network: &Network,
    firsts: &[u32],
    arc: u32,
    point: u32,
    head: u32,
) -> Edge
    requires whole { IsWholeNetwork instance.now network.now }
    requires few { point_count network.now ≤ MOST_POINTS }
    requires firsts { AreFirstNodes network.now firsts.now }
    requires class { IsClass network.now (record { arc = arc; depart = point }) }
    ensures { result ≡ record {
      from = point_node network.now (arc_at instance.now arc).from point;
      to = point_node network.now (arc_at instance.now arc).to head;
    } }
{
    let taken = instance.arc(arc);
    Edge {
        from: node_of(network, firsts, taken.from, point),
        to: node_of(network, firsts, taken.to, head),
    }
}

// The node of a point of a terminal.
fn node_of(network: &Network, firsts: &[u32], terminal: u32, at: u32) -> u32
    requires terminal { terminal < length network.now.points }
    requires few { point_count network.now ≤ MOST_POINTS }
    requires firsts { AreFirstNodes network.now firsts.now }
    ensures { result ≡ point_node network.now terminal at }
{
    firsts[terminal as usize] + place_among(network.points(terminal), at) as u32
}

// The node of a terminal's last point.
pub(crate) fn last_node_of(network: &Network, firsts: &[u32], terminal: u32) -> u32
    requires terminal { terminal < length network.now.points }
    requires few { point_count network.now ≤ MOST_POINTS }
    requires firsts { AreFirstNodes network.now firsts.now }
    ensures { result ≡ last_node network.now terminal }
{
    firsts[terminal as usize] + (network.points(terminal).len() as u32 - 1)
}
