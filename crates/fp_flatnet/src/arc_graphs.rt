//! The arcs of an instance as edges of graphs, as they lead and turned round, with their steps.
ghost use Rattle.std.specs.Prelude.{◌≡◌, ◌<◌, ◌^◌, length, map, All, IfOk};
ghost use Rattle.fp_labels.specs.Graphs.{HasEnds};
ghost use Rattle.fp_labels.specs.Labels.{AreLabels};
ghost use Rattle.fp_model.specs.Problem.{IsValid};
ghost use Rattle.fp_flatnet.specs.ArcGraphs.{backward_edge, backward_shape, forward_edge, forward_shape, step_costs, IsArcGraph};

use crate::NoMemory;
use fp_labels::{Edge, Graph, Labels, distances};
use fp_model::{Arc, Instance};
use std::alloc::Global;

// The arcs of an instance as the edges of a graph, with their steps as the costs of the edges.
#[derive(Drop)]
pub(crate) struct ArcGraph {
    graph: Graph,
    costs: Vec<Option<u128>>,
}

// The step of each arc, as the cost of its edge.
fn arc_costs(alloc: Global, instance: &Instance) -> Result<Vec<Option<u128>>, NoMemory>
    ensures { IfOk result (λ costs. costs.items ≡ step_costs instance.now) }
{
    let mut costs = Vec::new(alloc);
    for number in 0..instance.arcs().len() {
        costs.push(Some(u128::from(instance.step(number as u32))))?;
    }
    Ok(costs)
}

// The graph of the terminals and some edges, one for each arc.
fn arc_graph(alloc: Global, instance: &Instance, edges: &[Edge]) -> Result<ArcGraph, NoMemory>
    requires ends { HasEnds (length instance.now.terminals) edges.now }
    requires one_each { length edges.now ≡ length instance.now.arcs }
    ensures { IfOk result (IsArcGraph instance.now (record { nodes = length instance.now.terminals; edges = edges.now })) }
{
    let nodes = instance.terminals().len() as u32;
    Ok(ArcGraph {
        graph: Graph::new(alloc, nodes, edges)?,
        costs: arc_costs(alloc, instance)?,
    })
}

// The graph in which each arc leads from its tail to its head.
pub(crate) fn forward_graph(alloc: Global, instance: &Instance) -> Result<ArcGraph, NoMemory>
    ensures { IfOk result (IsArcGraph instance.now (forward_shape instance.now)) }
{
    let edges = forward_edges(alloc, instance.arcs())?;
    arc_graph(alloc, instance, &edges)
}

// The graph in which each arc leads from its head to its tail.
pub(crate) fn backward_graph(alloc: Global, instance: &Instance) -> Result<ArcGraph, NoMemory>
    ensures { IfOk result (IsArcGraph instance.now (backward_shape instance.now)) }
{
    let edges = backward_edges(alloc, instance.arcs())?;
    arc_graph(alloc, instance, &edges)
}

fn forward_edges(alloc: Global, arcs: &[Arc]) -> Result<Vec<Edge>, NoMemory>
    ensures { IfOk result (λ edges. edges.items ≡ map forward_edge arcs.now) }
{
    arcs.iter()
        .map(|arc| Edge {
            from: arc.from,
            to: arc.to,
        })
        .collect(alloc)
}

fn backward_edges(alloc: Global, arcs: &[Arc]) -> Result<Vec<Edge>, NoMemory>
    ensures { IfOk result (λ edges. edges.items ≡ map backward_edge arcs.now) }
{
    arcs.iter()
        .map(|arc| Edge {
            from: arc.to,
            to: arc.from,
        })
        .collect(alloc)
}

impl ArcGraph {
    // The least steps of walks from one terminal to each.
    pub(crate) fn labels(
        &self,
        alloc: Global,
        instance: &Instance,
        start: u32,
    ) -> Result<Labels, NoMemory>
        requires nodes { self.now.graph.nodes ≡ length instance.now.terminals }
        requires edges { length self.now.graph.edges ≡ length instance.now.arcs }
        requires costs { self.now.costs.items ≡ step_costs instance.now }
        requires start { start < length instance.now.terminals }
        ensures { IfOk result (AreLabels self.now.graph (step_costs instance.now) start) }
    {
        // Brings the instance's validity into the proof: so the costs are small.
        let _known = instance.arcs();
        distances(alloc, &self.graph, &self.costs, start)
    }
}
