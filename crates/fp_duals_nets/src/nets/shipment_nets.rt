//! The net of each shipment: the nodes and edges of its allowed timed walks.

use crate::NoMemory;
use crate::nets::least_walks::{Edge, Label, cost_of, label_nodes};
use crate::slices::part_mut;
use std::alloc::Global;

/// No pool, or no node.
pub const NONE: u32 = u32::MAX;

/// No place among the prices.
pub const NO_PART: usize = usize::MAX;

/// What an edge of a net stands for.
#[derive(Clone, Copy)]
pub struct EdgeUse {
    /// The class, or `WAIT`.
    pub class: u32,
    /// Whether the shipment is forced to use the class.
    pub forced: bool,
    /// The pool of the class's prices, or `NONE`.
    pub pool: u32,
    /// The place of the shipment's weight among all parts, or `NO_PART`.
    pub part: usize,
    /// What the freight costs.
    pub flow: u64,
}

/// The net of a shipment: its edges and nodes among those of all nets. No edges where it has no
/// allowed timed walk. Several edges may stand for one class where its walks go by arcs that count at
/// the leaf: one before such an arc, and one after it.
#[derive(Clone, Copy)]
pub struct Net {
    pub size: u64,
    pub first_edge: usize,
    pub end_edge: usize,
    pub first_node: usize,
    pub end_node: usize,
    pub start: u32,
    pub goal: u32,
}

/// The nets of all shipments.
#[derive(Drop)]
pub struct Nets {
    pub list: Vec<Net>,
    pub edges: Vec<Edge>,
    pub uses: Vec<EdgeUse>,
    /// The least cost of freight from each node to the goal of its net.
    pub rests: Vec<u64>,
    /// The labels of one net, as many as the greatest has nodes.
    pub labels: Vec<Label>,
}

// How many shipments so far have edges that stand for a class, and the newest of them.
#[derive(Clone, Copy)]
struct Users {
    count: u32,
    newest: u32,
}

// Counts a shipment whose edges stand for these classes, once for each.
fn count_user(users: &mut [Users], uses: &[EdgeUse], shipment: u32) {
    for edge in uses {
        if let Some(users) = users.get_mut(edge.class as usize)
            && users.newest != shipment
        {
            *users = Users {
                count: users.count.wrapping_add(1),
                newest: shipment,
            };
        }
    }
}

impl Nets {
    /// No nets.
    pub(crate) fn new(alloc: Global) -> Nets {
        Nets {
            list: Vec::new(alloc),
            edges: Vec::new(alloc),
            uses: Vec::new(alloc),
            rests: Vec::new(alloc),
            labels: Vec::new(alloc),
        }
    }

    /// How many shipments have edges that stand for each of so many classes.
    pub(crate) fn count_users(&self, alloc: Global, classes: usize) -> Result<Vec<u32>, NoMemory> {
        let nobody = Users {
            count: 0,
            newest: NONE,
        };
        let mut users = vec![in alloc; nobody; classes]?;
        let mut shipment = 0u32;
        for net in &self.list {
            count_user(&mut users, self.uses_of(net), shipment);
            shipment = shipment.wrapping_add(1);
        }
        let mut counts = Vec::with_capacity(alloc, classes)?;
        for users in &users {
            counts.push(users.count)?;
        }
        Ok(counts)
    }

    /// The edges of a net.
    pub fn edges_of(&self, net: &Net) -> &[Edge] {
        self.edges.get(net.first_edge..net.end_edge).unwrap_or(&[])
    }

    /// What the edges of a net stand for.
    pub fn uses_of(&self, net: &Net) -> &[EdgeUse] {
        self.uses.get(net.first_edge..net.end_edge).unwrap_or(&[])
    }

    /// Labels the nodes of a net at the costs that are set; the least cost of a walk.
    pub fn label_net(&mut self, net: &Net) -> u64 {
        let count = net.end_node.saturating_sub(net.first_node);
        if let (Some(edges), Some(labels)) = (
            self.edges.get(net.first_edge..net.end_edge),
            part_mut(&mut self.labels, 0, count),
        ) {
            label_nodes(edges, labels, net.start);
        }
        cost_of(&self.labels, net.goal)
    }
}
