//! Least costs of walks that have an edge: the least cost to its tail, its own cost, and the least
//! cost on from its head.

ghost use Rattle.std.specs.Prelude.{◌≡◌, ℕ, ◌*◌, ◌<◌, ◌≤◌, length, All, IfOk, IfSome};
ghost use Rattle.fp_labels.specs.Graphs.{HasEnds, reversed_graph};
ghost use Rattle.fp_labels.specs.Walks.{cost_of};
ghost use Rattle.fp_labels.specs.ThroughWalks.{IsLeastThrough, AreCostsThrough, cost_through, sum_of_costs};
ghost use Rattle.fp_labels.specs.Labels.{IsSmallFor, AreLabels, greatest_cost};

use crate::graphs::{Edge, Graph};
use crate::walks::Labels;
use crate::{NoMemory, distances};
use std::alloc::Global;

// The labels of the nodes from one node, over the edges turned round: least costs on to it.
fn labels_back(
    alloc: Global,
    graph: &Graph,
    costs: &[Option<u128>],
    end: u32,
) -> Result<Labels, NoMemory>
    requires inside { end < graph.now.nodes }
    requires costs_len { length costs.now ≡ length graph.now.edges }
    requires costs_small { All (IsSmallFor graph.now.nodes) costs.now }
    ensures { IfOk result (λ labels. AreLabels (reversed_graph graph.now) costs.now end labels) }
{
    let back = graph.reversed(alloc)?;
    distances(alloc, &back, costs, end)
}

/// For each edge, by its number, the least cost of a walk from `start` to `end` that has the edge,
/// and `None` exactly where no walk over open edges has it. The walk may meet a node again. `costs`
/// are as in `distances`: `None` bars the edge. `start` and `end` are nodes, and each cost times
/// twice the nodes is at most 2^127 - 1. The work is that of two calls of `distances`. `NoMemory`
/// only where no memory is found.
pub fn through_edges(
    alloc: Global,
    graph: &Graph,
    costs: &[Option<u128>],
    start: u32,
    end: u32,
) -> Result<Vec<Option<u128>>, NoMemory>
    requires start { start < graph.now.nodes }
    requires end { end < graph.now.nodes }
    requires costs_len { length costs.now ≡ length graph.now.edges }
    requires costs_small { All (IsSmallFor (2 * graph.now.nodes)) costs.now }
    ensures len { IfOk result (λ through. length through.items ≡ length graph.now.edges) }
    ensures exact { IfOk result (λ through. (edge : ℕ) → edge < length graph.now.edges →
        IsLeastThrough graph.now.edges costs.now start end edge (cost_of through.items edge)) }
    ensures small { IfOk result (λ through.
        (most : ℕ) → All (λ o. IfSome o (λ n. n ≤ most)) costs.now →
        All (λ o. IfSome o (λ n. n ≤ 2 * graph.now.nodes * most)) through.items) }
{
    let before = distances(alloc, graph, costs, start)?;
    let after = labels_back(alloc, graph, costs, end)?;
    costs_through(alloc, graph.edges(), costs, &before, &after)
}

// The sum for each edge, by the costs to each node and the costs on from each node.
fn costs_through(
    alloc: Global,
    edges: &[Edge],
    costs: &[Option<u128>],
    before: &Labels,
    after: &Labels,
) -> Result<Vec<Option<u128>>, NoMemory>
    requires before_ends { HasEnds (length before.now.costs) edges.now }
    requires after_ends { HasEnds (length after.now.costs) edges.now }
    requires costs_len { length costs.now ≡ length edges.now }
    requires small { (e : ℕ) → e < length edges.now →
        IfSome (cost_through edges.now costs.now before.now after.now e) (λ n. n ≤ greatest_cost) }
    ensures { IfOk result (λ through.
        AreCostsThrough edges.now costs.now before.now after.now (length edges.now) through.items) }
{
    let mut through = Vec::new(alloc);
    for (number, edge) in edges.iter().enumerate() {
        let to_tail = before.to(edge.from);
        let from_head = after.to(edge.to);
        through.push(sum_of(to_tail, costs[number], from_head))?;
    }
    Ok(through)
}

// The sum of three costs, if there are all.
fn sum_of(to_tail: Option<u128>, own: Option<u128>, from_head: Option<u128>) -> Option<u128>
    requires { IfSome (sum_of_costs to_tail own from_head) (λ n. n ≤ greatest_cost) }
    ensures { result ≡ sum_of_costs to_tail own from_head }
{
    match (to_tail, own, from_head) {
        (Some(before), Some(cost), Some(after)) => Some(before + cost + after),
        _ => None,
    }
}
