//! What all leaves of one round share: the network with the points as of the round, and the graph
//! of its points.
ghost use Rattle.std.specs.Prelude.{◌≡◌, ◌+◌, ◌<◌, ◌≤◌, IfOk, length, map};
ghost use Rattle.fp_model.specs.Numbered.{shipment_at};
ghost use Rattle.fp_model.specs.Problem.{IsValid};
ghost use Rattle.fp_longestarcs.specs.Networks.{point_count};
ghost use Rattle.fp_longestarcs.specs.Whole.{IsNetworkOf, IsWholeNetwork};
ghost use Rattle.fp_prices.specs.ClassCosts.{IsFree};
ghost use Rattle.fp_prices.specs.Points.{edges_of, first_node, last_node, shape_of};
ghost use Rattle.fp_prices.specs.PointGraphs.{IsPointGraph};
ghost use Rattle.fp_prices.specs.Rates.{rate_of};

use crate::NoMemory;
use crate::classes::arc_rates::linear_rates;
use crate::graphs::point_graphs::{PointGraph, last_node_of};
use fp_labels::Graph;
use fp_longestarcs::Network;
use fp_model::Instance;
use fp_timenodes::{MOST_POINTS, Points};
use std::alloc::Global;
use std::marker::Model;

/// An instance and its network with the points as of a round, with the graph of these points over
/// which each shipment goes: what all leaves of the round share, made once for them.
///
/// Contracts see the instance and the network. It is whole for the instance and has at most [`MOST_POINTS`]
/// points.
#[derive(Drop)]
pub struct RoundNetwork<'a> {
    instance: &'a Instance,
    network: Network,
    graph: PointGraph,
    // What a unit of size pays for each arc by the linear price.
    rates: Vec<u128>,
}

impl<'a> Model for RoundNetwork<'a> {
    ghost use Rattle.fp_prices.specs.Rounds.{IsRoundNetwork, RoundModel};

    ghost Value = { RoundModel };

    ghost view = { λ r. record { problem = r.instance.now; network = r.network } };

    ghost invariant = { λ r. IsRoundNetwork (record { problem = r.instance.now; network = r.network }) r.graph r.rates.items };
}

impl<'a> RoundNetwork<'a> {
    /// The network of an instance with the points as of a round, which may be any number. The
    /// points have the instance's number of terminals; the terminals, the first points and the
    /// added points are together at most [`MOST_POINTS`]. `NoMemory` only where no memory is found.
    pub fn of(
        alloc: Global,
        instance: &'a Instance,
        points: &Points,
        round: u32,
    ) -> Result<RoundNetwork<'a>, NoMemory>
        requires terminals { points.now.terminals ≡ length instance.now.terminals }
        requires few { points.now.terminals + length points.now.first + length points.now.added ≤ MOST_POINTS }
        ensures instance { IfOk result (λ made. made.problem ≡ instance.now) }
        ensures network { IfOk result (λ made. IsNetworkOf instance.now points.now round made.network) }
    {
        let network = Network::of(alloc, instance, points, round)?;
        RoundNetwork::over(alloc, instance, network)
    }

    /// The same over a network that is whole for the instance and has at most [`MOST_POINTS`] points.
    /// `NoMemory` only where no memory is found.
    pub fn over(
        alloc: Global,
        instance: &'a Instance,
        network: Network,
    ) -> Result<RoundNetwork<'a>, NoMemory>
        requires whole { IsWholeNetwork instance.now network }
        requires few { point_count network ≤ MOST_POINTS }
        ensures { IfOk result (λ made. made ≡ record { problem = instance.now; network = network }) }
    {
        let graph = PointGraph::of(alloc, instance, &network)?;
        let rates = linear_rates(alloc, instance)?;
        Ok(RoundNetwork {
            instance,
            network,
            graph,
            rates,
        })
    }

    /// The instance.
    pub fn instance(&self) -> &'a Instance
        ensures same { result.now ≡ self.now.problem }
        ensures valid { IsValid self.now.problem }
    {
        self.instance
    }

    /// The network.
    pub fn network(&self) -> &Network
        ensures same { result.now ≡ self.now.network }
        ensures whole { IsWholeNetwork self.now.problem self.now.network }
        ensures few { point_count self.now.network ≤ MOST_POINTS }
    {
        &self.network
    }

    /// The graph of the network's points. Its nodes are the points, by terminal and then by time.
    /// Its edges are first those of the classes, by their numbers, each from its point to its
    /// head, and then the holding edges, from each point to the next one of its terminal.
    pub fn graph(&self) -> &Graph
        ensures { result.now ≡ shape_of self.now.problem self.now.network }
    {
        &self.graph.graph
    }

    /// Costs of all edges of the graph, at which every one is free, to be filled in for the classes
    /// by their numbers. `NoMemory` only where no memory is found.
    pub fn free_costs(&self, alloc: Global) -> Result<Vec<Option<u128>>, NoMemory>
        ensures count { IfOk result (λ costs. length costs.items ≡ length (edges_of self.now.problem self.now.network)) }
        ensures free { IfOk result (λ costs. IsFree 0 costs.items) }
    {
        self.point_graph().free_costs(alloc)
    }

    /// The node at which a shipment begins: the first point of its origin.
    pub fn start(&self, shipment: u32) -> u32
        requires { shipment < length self.now.problem.shipments }
        ensures node { result ≡ first_node self.now.network (shipment_at self.now.problem shipment).from }
        ensures exists { result < point_count self.now.network }
    {
        self.graph.firsts[self.instance.shipment(shipment).from as usize]
    }

    /// The node at which a shipment ends: the last point of its destination.
    pub fn end(&self, shipment: u32) -> u32
        requires { shipment < length self.now.problem.shipments }
        ensures node { result ≡ last_node self.now.network (shipment_at self.now.problem shipment).to }
        ensures exists { result < point_count self.now.network }
    {
        let to = self.instance.shipment(shipment).to;
        last_node_of(&self.network, &self.graph.firsts, to)
    }

    /// The graph with its numbers of nodes and edges.
    pub(crate) fn point_graph(&self) -> &PointGraph
        ensures { IsPointGraph self.now.problem self.now.network result.now }
    {
        &self.graph
    }

    /// What a unit of size pays for each arc by the linear price.
    pub(crate) fn rates(&self) -> &[u128]
        ensures { result.now ≡ map (rate_of self.now.problem.scale) self.now.problem.arcs }
    {
        &self.rates
    }
}
