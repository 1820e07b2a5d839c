//! The graph of a network's points with the heads for one shipment.
ghost use Rattle.std.specs.Prelude.{◌≡◌, ◌<◌, ◌≤◌, IfOk, length};
ghost use Rattle.fp_flatnet.specs.Tables.{windows_in};
ghost use Rattle.fp_longestarcs.specs.Networks.{class_count, point_count, points_in};
ghost use Rattle.fp_longestarcs.specs.Whole.{IsWholeNetwork};
ghost use Rattle.fp_allowed.specs.Heads.{heads_within};
ghost use Rattle.fp_allowed.specs.Listing.{class_at};
ghost use Rattle.fp_prices.specs.Points.{AreFirstNodes, class_edge_by, class_edges_by, shape_by};

use crate::NoMemory;
use crate::graphs::point_graphs::{edge_to, first_nodes_of, hold_at_all};
use fp_allowed::Allowed;
use fp_labels::{Edge, Graph};
use fp_longestarcs::Network;
use fp_model::Instance;
use fp_timenodes::MOST_POINTS;
use std::alloc::Global;

// The graph of the points: its nodes and the numbers of its edges are those of the network's own
// graph.
pub(crate) fn graph_within(
    alloc: Global,
    instance: &Instance,
    network: &Network,
    allowed: &Allowed,
    shipment: u32,
) -> Result<Graph, NoMemory>
    requires instance { instance.now ≡ allowed.now.problem }
    requires network { network.now ≡ allowed.now.network }
    requires whole { IsWholeNetwork instance.now network.now }
    requires few { point_count network.now ≤ MOST_POINTS }
    requires shipment { shipment < length instance.now.shipments }
    ensures { IfOk result (λ graph. graph ≡ shape_by instance.now network.now
        (heads_within instance.now (windows_in allowed.now.windows) (points_in network.now) shipment)) }
{
    let (firsts, nodes) = first_nodes_of(alloc, instance, network)?;
    let mut edges = edges_within(alloc, instance, network, &firsts, allowed, shipment)?;
    hold_at_all(&mut edges, instance, network, &firsts)?;
    Graph::new(alloc, nodes, &edges)
}

// The edges of all classes, by their numbers.
fn edges_within(
    alloc: Global,
    instance: &Instance,
    network: &Network,
    firsts: &[u32],
    allowed: &Allowed,
    shipment: u32,
) -> Result<Vec<Edge>, NoMemory>
    requires instance { instance.now ≡ allowed.now.problem }
    requires network { network.now ≡ allowed.now.network }
    requires whole { IsWholeNetwork instance.now network.now }
    requires few { point_count network.now ≤ MOST_POINTS }
    requires firsts { AreFirstNodes network.now firsts.now }
    requires shipment { shipment < length instance.now.shipments }
    ensures { IfOk result (λ edges. edges.items ≡ class_edges_by instance.now network.now
        (heads_within instance.now (windows_in allowed.now.windows) (points_in network.now) shipment)) }
{
    let mut edges = Vec::with_capacity(alloc, network.classes() as usize)?;
    for class in 0..network.classes() {
        edges.push(edge_within(instance, network, firsts, allowed, shipment, class))?;
    }
    Ok(edges)
}

// The edge of the class with a number.
fn edge_within(
    instance: &Instance,
    network: &Network,
    firsts: &[u32],
    allowed: &Allowed,
    shipment: u32,
    class: u32,
) -> Edge
    requires instance { instance.now ≡ allowed.now.problem }
    requires network { network.now ≡ allowed.now.network }
    requires whole { IsWholeNetwork instance.now network.now }
    requires few { point_count network.now ≤ MOST_POINTS }
    requires firsts { AreFirstNodes network.now firsts.now }
    requires shipment { shipment < length instance.now.shipments }
    requires class { class < class_count network.now }
    ensures { result ≡ class_edge_by instance.now network.now
        (heads_within instance.now (windows_in allowed.now.windows) (points_in network.now) shipment)
        (class_at network.now class) }
{
    let (arc, point) = network.of_class(class);
    let head = allowed.head(shipment, arc, point);
    edge_to(instance, network, firsts, arc, point, head)
}
