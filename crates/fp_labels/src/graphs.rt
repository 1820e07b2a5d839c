//! A graph by its numbered edges, which are grouped by their tails once.

ghost use Rattle.std.specs.Prelude.{◌≡◌, ◌<◌, ◌≤◌, ◌-◌, ◌^◌, length, map, take, drop, IfOk};
ghost use Rattle.fp_labels.specs.Graphs.{Shape, edge_at, HasEnds, reversed_edge, reversed_graph};
ghost use Rattle.fp_labels.specs.Rows.{IsRow, IsGrouped};

use crate::NoMemory;
use crate::counting::{group_by_tail, row_ends};
use std::alloc::Global;
use std::marker::Model;

/// An edge from one node to another, by their numbers.
#[derive(Clone, Copy, Debug, PartialEq, Eq)]
pub struct Edge {
    /// The tail: the node that the edge leaves.
    pub from: u32,
    /// The head: the node that it enters.
    pub to: u32,
}

/// A directed graph. Its nodes are numbered from 0, and so are its edges, by their places. Loops
/// are allowed, and several edges with the same ends are too.
#[derive(Drop)]
pub struct Graph {
    nodes: u32,
    edges: Vec<Edge>,
    // Where the row of each node begins in `by_tail`, and at last where the last row ends.
    rows: Vec<u32>,
    // The numbers of the edges, grouped by their tails.
    by_tail: Vec<u32>,
}

impl Model for Graph {
    ghost Value = { Shape };

    ghost view = { λ g. record { nodes = g.nodes; edges = g.edges.items } };

    ghost invariant = { λ g. IsGrouped g.nodes g.edges.items g.rows.items g.by_tail.items };
}

impl Graph {
    /// The graph of `nodes` nodes and these edges. The ends of the edges are below `nodes`, and
    /// there are fewer than 2^32 - 1 edges. `NoMemory` only where no memory is found.
    pub fn new(alloc: Global, nodes: u32, edges: &[Edge]) -> Result<Graph, NoMemory>
        requires ends { HasEnds nodes edges.now }
        requires few { length edges.now < 2 ^ 32 - 1 }
        ensures { IfOk result (λ graph. graph ≡ record { nodes = nodes; edges = edges.now }) }
    {
        let kept: Vec<Edge> = edges.iter().copied().collect(alloc)?;
        let mut rows = row_ends(alloc, nodes, edges)?;
        let by_tail = group_by_tail(alloc, nodes, edges, &mut rows)?;
        Ok(Graph {
            nodes,
            edges: kept,
            rows,
            by_tail,
        })
    }

    // The graph with each edge turned round, under its number.
    pub(crate) fn reversed(&self, alloc: Global) -> Result<Graph, NoMemory>
        ensures { IfOk result (λ back. back ≡ reversed_graph self.now) }
    {
        let back = reversed_edges(alloc, &self.edges)?;
        Graph::new(alloc, self.nodes, &back)
    }

    // How many nodes there are. The ends of the edges are among them.
    pub(crate) fn nodes(&self) -> u32
        ensures value { result ≡ self.now.nodes }
        ensures ends { HasEnds self.now.nodes self.now.edges }
    {
        self.nodes
    }

    // The edges in the order of their numbers. Their ends are nodes.
    pub(crate) fn edges(&self) -> &[Edge]
        ensures same { result.now ≡ self.now.edges }
        ensures ends { HasEnds self.now.nodes self.now.edges }
    {
        &self.edges
    }

    // The numbers of the edges that leave a node.
    pub(crate) fn row(&self, node: u32) -> &[u32]
        requires { node < self.now.nodes }
        ensures { IsRow self.now.edges node result.now }
    {
        part(
            &self.by_tail,
            self.rows[node as usize],
            self.rows[node as usize + 1],
        )
    }

    // The node that an edge enters.
    pub(crate) fn head(&self, edge: u32) -> u32
        requires { edge < length self.now.edges }
        ensures value { result ≡ (edge_at self.now.edges edge).to }
        ensures inside { result < self.now.nodes }
    {
        self.edges[edge as usize].to
    }
}

// The numbers from one place up to another.
fn part(numbers: &[u32], first: u32, end: u32) -> &[u32]
    requires ordered { first ≤ end }
    requires inside { end ≤ length numbers.now }
    ensures { result.now ≡ take (end - first) (drop first numbers.now) }
{
    &numbers[first as usize..end as usize]
}

// The edges turned round, in the same order.
fn reversed_edges(alloc: Global, edges: &[Edge]) -> Result<Vec<Edge>, NoMemory>
    ensures { IfOk result (λ back. back.items ≡ map reversed_edge edges.now) }
{
    let mut back = Vec::new(alloc);
    for edge in edges {
        back.push(Edge {
            from: edge.to,
            to: edge.from,
        })?;
    }
    Ok(back)
}
