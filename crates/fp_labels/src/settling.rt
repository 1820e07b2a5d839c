//! A search that settles one node after the other, the least label first: E. W. Dijkstra, "A note
//! on two problems in connexion with graphs", Numerische Mathematik 1, 1959.

ghost use Rattle.std.specs.Prelude.{◌≡◌, ◌<◌, ◌≤◌, ◌↔◌, length, All, IfOk, IfSome, IfNone, OnOk, OnErr, IsTrue};
ghost use Rattle.std.specs.BinaryHeap.{heap_items, HeapUnchanged};
ghost use Rattle.fp_labels.specs.Labels.{IsSmallFor, greatest_cost};
ghost use Rattle.fp_labels.specs.Searches.{IsWithin, IsQueue, AreSettled, SettlesNext, Improves, IsFresh, Relaxes, AreFound};

use crate::NoMemory;
use crate::graphs::Graph;
use crate::walks::{Label, Step};
use std::alloc::Global;
use std::cmp::Reverse;
use std::collections::BinaryHeap;

// Labels are final at settled nodes. The queue has an entry for each label of a node that isn't
// settled, and may have stale ones.
#[derive(Drop)]
struct Search {
    labels: Vec<Option<Label>>,
    settled: Vec<bool>,
    queue: BinaryHeap<Reverse<(u128, u32)>>,
}

impl Search {
    // Only the start is reached.
    fn new(alloc: Global, nodes: u32, start: u32) -> Result<Search, NoMemory>
        requires { start < nodes }
        ensures { IfOk result (λ search.
            IsFresh nodes start search.labels.items search.settled.items (heap_items search.queue)) }
    {
        let mut labels = vec![in alloc; None; nodes as usize]?;
        labels[start as usize] = Some(Label {
            cost: 0,
            step: None,
        });
        let settled = vec![in alloc; false; nodes as usize]?;
        let mut queue = BinaryHeap::new(alloc);
        queue.push(Reverse((0, start)))?;
        Ok(Search {
            labels,
            settled,
            queue,
        })
    }

    // Settles the node of the least label among those that aren't settled: that label's cost, and
    // the node.
    fn settle_next(&mut self) -> Option<(u128, u32)>
        requires len { length self.old.settled.items ≡ length self.old.labels.items }
        requires queued { IsQueue self.old.labels.items self.old.settled.items (heap_items self.old.queue) }
        ensures same { self.new.labels ≡ self.old.labels }
        ensures none { IfNone result (self.new.settled ≡ self.old.settled) }
        ensures none_left { IfNone result (AreSettled self.new.labels.items self.new.settled.items) }
        ensures some { IfSome result (λ next.
            SettlesNext self.new.labels.items self.old.settled.items self.new.settled.items
            (heap_items self.new.queue) next.0 next.1) }
    {
        while let Some(Reverse((cost, node))) = self.queue.pop() {
            if !self.settled[node as usize] {
                self.settled[node as usize] = true;
                return Some((cost, node));
            }
        }
        None
    }

    // Takes a way to a node if it is cheaper than the node's label.
    fn improve(&mut self, node: u32, cost: u128, step: Step) -> Result<(), NoMemory>
        requires { node < length self.old.labels.items }
        ensures settled { self.new.settled ≡ self.old.settled }
        ensures ok { OnOk result
            (Improves self.old.labels.items (heap_items self.old.queue)
            self.new.labels.items (heap_items self.new.queue) node cost step) }
        ensures err { OnErr result
            ((self.new.labels ≡ self.old.labels) × HeapUnchanged self.old.queue self.new.queue) }
    {
        if is_within(&self.labels, node, cost) {
            return Ok(());
        }
        self.queue.push(Reverse((cost, node)))?;
        self.labels[node as usize] = Some(Label {
            cost,
            step: Some(step),
        });
        Ok(())
    }

    // Goes on over each open edge that leaves a node, which is settled at this cost. It takes the
    // search by value, since a search whose memory was refused midway is of no use.
    fn relax(
        mut self,
        graph: &Graph,
        costs: &[Option<u128>],
        node: u32,
        cost: u128,
    ) -> Result<Search, NoMemory>
        requires costs_len { length costs.now ≡ length graph.now.edges }
        requires costs_small { All (IsSmallFor graph.now.nodes) costs.now }
        requires inside { node < graph.now.nodes }
        requires labels_len { length self.labels.items ≡ graph.now.nodes }
        requires small { cost ≤ greatest_cost }
        ensures settled { IfOk result (λ search. search.settled ≡ self.settled) }
        ensures relaxed { IfOk result (λ search.
            Relaxes graph.now costs.now node cost self.labels.items self.settled.items
            (heap_items self.queue) search.labels.items (heap_items search.queue)) }
    {
        for edge in graph.row(node) {
            let edge_cost = costs[*edge as usize];
            if let Some(more) = edge_cost {
                let step = Step {
                    edge: *edge,
                    from: node,
                };
                self.improve(graph.head(*edge), cost + more, step)?;
            }
        }
        Ok(self)
    }
}

// The labels of all nodes, once every node that can be reached is settled.
pub(crate) fn find_labels(
    alloc: Global,
    graph: &Graph,
    costs: &[Option<u128>],
    start: u32,
) -> Result<Vec<Option<Label>>, NoMemory>
    requires inside { start < graph.now.nodes }
    requires costs_len { length costs.now ≡ length graph.now.edges }
    requires costs_small { All (IsSmallFor graph.now.nodes) costs.now }
    ensures { IfOk result (λ labels. AreFound graph.now costs.now start labels.items) }
{
    let mut search = Search::new(alloc, graph.nodes(), start)?;
    for _ in 0..graph.nodes() {
        match search.settle_next() {
            None => return Ok(search.labels),
            Some((cost, node)) => search = search.relax(graph, costs, node, cost)?,
        }
    }
    Ok(search.labels)
}

// Whether a node has a label of at most this cost.
fn is_within(labels: &[Option<Label>], node: u32, cost: u128) -> bool
    requires { node < length labels.now }
    ensures { IsTrue result ↔ IsWithin labels.now node cost }
{
    match labels[node as usize] {
        None => false,
        Some(label) => label.cost <= cost,
    }
}
