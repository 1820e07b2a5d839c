//! Least distances from one node of a numbered graph whose edges have costs of their own at each
//! call.
#![tactic(auto)]

ghost use Rattle.std.specs.Prelude.{◌≡◌, ◌<◌, length, All, IfOk};
ghost use Rattle.fp_labels.specs.Labels.{IsSmallFor, AreLabels};

mod counting;
mod graphs;
mod settling;
mod tagged;
mod through;
mod walks;

pub use graphs::{Edge, Graph};
use settling::find_labels;
use std::alloc::Global;
pub use tagged::tagged_distance;
pub use through::through_edges;
pub use walks::Labels;

/// The error of a call that finds no memory.
pub type NoMemory = std::alloc::AllocError;

/// The least costs from `start` to each node, and walks of these costs. `costs` has the cost of
/// each edge; `None` bars the edge. A cost may be 0, also of all edges round a cycle. `start` is a
/// node, and each cost times the number of nodes is at most 2^127 - 1. Each node is settled once:
/// the work grows as the nodes and edges, times the logarithm of the edges. `NoMemory` only where
/// no memory is found.
pub fn distances(
    alloc: Global,
    graph: &Graph,
    costs: &[Option<u128>],
    start: u32,
) -> Result<Labels, NoMemory>
    requires inside { start < graph.now.nodes }
    requires costs_len { length costs.now ≡ length graph.now.edges }
    requires costs_small { All (IsSmallFor graph.now.nodes) costs.now }
    ensures { IfOk result (λ labels. AreLabels graph.now costs.now start labels) }
{
    Ok(Labels::new(find_labels(alloc, graph, costs, start)?))
}
