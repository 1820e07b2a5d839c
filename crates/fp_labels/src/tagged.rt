//! Least costs of walks that have an edge with each of some tags. For one tag the graph is copied
//! into two layers: in the lower one an edge with the tag leads up, and no edge leads down. So the
//! walks from the lower layer to the upper one are those that have an edge with the tag. For each
//! further tag this graph is copied again.

ghost use Rattle.std.specs.Prelude.{◌≡◌, ℕ, ◌+◌, ◌*◌, ◌-◌, ◌^◌, ◌<◌, ◌≤◌, ◌++◌, length, map, All, IfOk, IfSome};
ghost use Rattle.fp_labels.specs.Graphs.{HasEnds};
ghost use Rattle.fp_labels.specs.Walks.{IsDistance};
ghost use Rattle.fp_labels.specs.TaggedWalks.{IsTaggedDistance};
ghost use Rattle.fp_labels.specs.Labels.{IsSmallFor};
ghost use Rattle.fp_labels.specs.Layers.{is_tag as is_tag_of, lower_edge, upper_edge, AreLowerEdges, AreLayered};

use crate::graphs::{Edge, Graph};
use crate::{NoMemory, distances};
use std::alloc::Global;

/// The least cost of a walk from `start` to `end` that has an edge with each of the tags `wanted`,
/// and `None` exactly where no walk over open edges has. `tags` has the tag of each edge, if it has
/// one: any numbers, which edges may share. The walk may meet a node again. `costs` are as in `distances`:
/// `None` bars the edge. The nodes and the edges, doubled for each wanted tag, are below 2^32 and
/// 2^32 - 1, and each cost times the nodes, so doubled, is at most 2^127 - 1. The work is that of
/// `distances` over a graph of so many nodes and edges. `NoMemory` only where no memory is found.
pub fn tagged_distance(
    alloc: Global,
    graph: &Graph,
    costs: &[Option<u128>],
    tags: &[Option<u32>],
    wanted: &[u32],
    start: u32,
    end: u32,
) -> Result<Option<u128>, NoMemory>
    requires start { start < graph.now.nodes }
    requires end { end < graph.now.nodes }
    requires costs_len { length costs.now ≡ length graph.now.edges }
    requires tags_len { length tags.now ≡ length graph.now.edges }
    requires few_nodes { 2 ^ length wanted.now * graph.now.nodes < 2 ^ 32 }
    requires few_edges { 2 ^ length wanted.now * length graph.now.edges < 2 ^ 32 - 1 }
    requires small { All (IsSmallFor (2 ^ length wanted.now * graph.now.nodes)) costs.now }
    ensures exact { IfOk result (IsTaggedDistance graph.now.edges costs.now tags.now wanted.now start end) }
    ensures small { IfOk result (λ cost.
        (most : ℕ) → All (λ o. IfSome o (λ n. n ≤ most)) costs.now →
        IfSome cost (λ n. n ≤ 2 ^ length wanted.now * graph.now.nodes * most)) }
{
    let nodes = graph.nodes();
    match wanted.split_first() {
        None => distance(alloc, graph, costs, start, end),
        Some((tag, rest)) => {
            let both = layered(alloc, graph, tags, *tag)?;
            let both_costs = twice(alloc, costs)?;
            let both_tags = twice(alloc, tags)?;
            tagged_distance(
                alloc,
                &both,
                &both_costs,
                &both_tags,
                rest,
                start,
                nodes + end,
            )
        }
    }
}

// The least cost of a walk from one node to another.
fn distance(
    alloc: Global,
    graph: &Graph,
    costs: &[Option<u128>],
    start: u32,
    end: u32,
) -> Result<Option<u128>, NoMemory>
    requires ends { HasEnds graph.now.nodes graph.now.edges }
    requires start { start < graph.now.nodes }
    requires end { end < graph.now.nodes }
    requires costs_len { length costs.now ≡ length graph.now.edges }
    requires small { All (IsSmallFor graph.now.nodes) costs.now }
    ensures exact { IfOk result (IsDistance graph.now.edges costs.now start end) }
    ensures small { IfOk result (λ cost.
        (most : ℕ) → All (λ o. IfSome o (λ n. n ≤ most)) costs.now →
        IfSome cost (λ n. n ≤ graph.now.nodes * most)) }
{
    let labels = distances(alloc, graph, costs, start)?;
    Ok(labels.to(end))
}

// The graph in two layers, where the edges with a tag lead up.
fn layered(alloc: Global, graph: &Graph, tags: &[Option<u32>], tag: u32) -> Result<Graph, NoMemory>
    requires tags_len { length tags.now ≡ length graph.now.edges }
    requires few_nodes { graph.now.nodes + graph.now.nodes < 2 ^ 32 }
    requires few_edges { length graph.now.edges + length graph.now.edges < 2 ^ 32 - 1 }
    ensures nodes { IfOk result (λ both. both.nodes ≡ graph.now.nodes + graph.now.nodes) }
    ensures edges { IfOk result (λ both. AreLayered graph.now.nodes tag graph.now.edges tags.now both.edges) }
{
    let nodes = graph.nodes();
    let edges = graph.edges();
    let lower = lower_copies(alloc, nodes, edges, tags, tag)?;
    let both = with_upper_copies(lower, nodes, edges)?;
    Graph::new(alloc, nodes + nodes, &both)
}

// The copies of the edges in the lower layer.
fn lower_copies(
    alloc: Global,
    nodes: u32,
    edges: &[Edge],
    tags: &[Option<u32>],
    tag: u32,
) -> Result<Vec<Edge>, NoMemory>
    requires ends { HasEnds nodes edges.now }
    requires tags_len { length tags.now ≡ length edges.now }
    requires few { nodes + nodes < 2 ^ 32 }
    ensures { IfOk result (λ copies. AreLowerEdges nodes tag edges.now tags.now (length edges.now) copies.items) }
{
    let mut copies = Vec::new(alloc);
    for (number, edge) in edges.iter().enumerate() {
        copies.push(lower_copy(nodes, *edge, is_tag(tags[number], tag)))?;
    }
    Ok(copies)
}

// Whether what an edge has is the tag.
fn is_tag(own: Option<u32>, tag: u32) -> bool
    ensures { result ≡ is_tag_of own tag }
{
    match own {
        Some(number) => number == tag,
        None => false,
    }
}

// The copy of an edge in the lower layer.
fn lower_copy(nodes: u32, edge: Edge, is_tagged: bool) -> Edge
    requires { nodes + edge.to < 2 ^ 32 }
    ensures { result ≡ lower_edge nodes is_tagged edge }
{
    Edge {
        from: edge.from,
        to: if is_tagged { nodes + edge.to } else { edge.to },
    }
}

// Copies, and after them the copies of the edges in the upper layer.
fn with_upper_copies(
    mut copies: Vec<Edge>,
    nodes: u32,
    edges: &[Edge],
) -> Result<Vec<Edge>, NoMemory>
    requires ends { HasEnds nodes edges.now }
    requires few { nodes + nodes < 2 ^ 32 }
    ensures { IfOk result (λ both. both.items ≡ copies.items ++ map (upper_edge nodes) edges.now) }
{
    for edge in edges {
        copies.push(Edge {
            from: nodes + edge.from,
            to: nodes + edge.to,
        })?;
    }
    Ok(copies)
}

// The items, and then the same items again.
fn twice<T: Copy>(alloc: Global, items: &[T]) -> Result<Vec<T>, NoMemory>
    ensures { IfOk result (λ both. both.items ≡ items.now ++ items.now) }
{
    let mut both: Vec<T> = items.iter().copied().collect(alloc)?;
    both.extend_from_slice(items)?;
    Ok(both)
}
