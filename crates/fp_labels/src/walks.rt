//! What a search found: the least cost to each node, and the edge by which it is reached.

ghost use Rattle.std.specs.Prelude.{◌≡◌, ◌<◌, ◌≤◌, length, IfOk, IfSome, IsSome};
ghost use Rattle.fp_labels.specs.Labels.{Distances, distances_of, cost_to, walk_to, greatest_cost, label_at, step_to, traced, AreSound};

use crate::NoMemory;
use std::alloc::Global;
use std::marker::Model;

// The last edge of a walk, and the node that it leaves.
#[derive(Clone, Copy)]
pub(crate) struct Step {
    pub(crate) edge: u32,
    pub(crate) from: u32,
}

// What reaching a node costs, and its last step; the start has none.
#[derive(Clone, Copy)]
pub(crate) struct Label {
    pub(crate) cost: u128,
    pub(crate) step: Option<Step>,
}

/// The least cost to each node from one start, and a walk of that cost.
#[derive(Drop)]
pub struct Labels {
    labels: Vec<Option<Label>>,
}

impl Model for Labels {
    ghost Value = { Distances };

    ghost view = { λ it. distances_of it.labels.items };

    ghost invariant = { λ it. AreSound it.labels.items };
}

impl Labels {
    pub(crate) fn new(labels: Vec<Option<Label>>) -> Labels
        requires { AreSound labels.items }
        ensures { result ≡ distances_of labels.items }
    {
        Labels { labels }
    }

    /// The least cost over all walks from the start to a node, at most 2^127 - 1. `None` exactly
    /// where there is no walk over edges that aren't barred.
    pub fn to(&self, node: u32) -> Option<u128>
        requires { node < length self.now.costs }
        ensures label { result ≡ cost_to self.now node }
        ensures small { IfSome result (λ cost. cost ≤ greatest_cost) }
    {
        match self.labels[node as usize] {
            None => None,
            Some(label) => Some(label.cost),
        }
    }

    /// The numbers of the edges of a walk of least cost from the start to a reached node. It
    /// repeats no node, and is empty for the start. `NoMemory` only where no memory is found.
    pub fn walk(&self, alloc: Global, node: u32) -> Result<Vec<u32>, NoMemory>
        requires inside { node < length self.now.costs }
        requires reached { IsSome (cost_to self.now node) }
        ensures { IfOk result (λ walk. walk.items ≡ walk_to self.now node) }
    {
        trace(alloc, &self.labels, node)
    }
}

// The walk to a node, read back from its last step.
fn trace(alloc: Global, labels: &[Option<Label>], node: u32) -> Result<Vec<u32>, NoMemory>
    requires inside { node < length labels.now }
    requires sound { AreSound labels.now }
    ensures { IfOk result (λ walk. walk.items ≡ traced labels.now (length labels.now) node) }
{
    let mut walk = Vec::new(alloc);
    let mut here = node;
    for _ in 0..labels.len() {
        match last_step(labels, here) {
            None => break,
            Some(step) => {
                walk.push(step.edge)?;
                here = step.from;
            }
        }
    }
    walk.reverse();
    Ok(walk)
}

fn last_step(labels: &[Option<Label>], node: u32) -> Option<Step>
    requires { node < length labels.now }
    ensures { result ≡ step_to labels.now node }
{
    match labels[node as usize] {
        None => None,
        Some(label) => label.step,
    }
}
