//! The walks of all shipments, and the loads that they make.

use crate::NoMemory;
use crate::classes::class_nodes::WAIT;
use crate::leaf_nets::LeafNets;
use crate::nets::least_walks::{Edge, Label, UNREACHED, cost_of, label_nodes, last_edge};
use crate::nets::shipment_nets::{Net, Nets};
use crate::slices::part_mut;
use crate::walks::load_costs::LoadCosts;
use fp_longestarcs::{Stop, TimedWalk};
use std::alloc::Global;

// Where the edges stand that a shipment may go by.
#[derive(Clone, Copy)]
struct Ways {
    first: usize,
    end: usize,
}

/// A walk of each shipment over the edges that it may go by, and the loads that the walks make
/// together. A walk is given by the numbers of its edges among those of all nets, the last first,
/// without those for waiting.
#[derive(Drop)]
pub struct SharedWalks {
    ways: Vec<Ways>,
    // The edges that the shipments may go by, at what they cost at the loads when they were last
    // looked at, and the number of each among those of the nets.
    edges: Vec<Edge>,
    names: Vec<usize>,
    /// The walks of the shipments, by their numbers.
    pub walks: Vec<Vec<usize>>,
    // The walks that were given up for now.
    former: Vec<Vec<usize>>,
    loads: Vec<u64>,
    labels: Vec<Label>,
}

impl SharedWalks {
    // No shipment yet, over so many classes and nets of at most so many nodes.
    fn new(alloc: Global, classes: usize, nodes: usize) -> Result<SharedWalks, NoMemory> {
        Ok(SharedWalks {
            ways: Vec::new(alloc),
            edges: Vec::new(alloc),
            names: Vec::new(alloc),
            walks: Vec::new(alloc),
            former: Vec::new(alloc),
            loads: vec![in alloc; 0u64; classes]?,
            labels: vec![in alloc; UNREACHED; nodes]?,
        })
    }

    // Adds an edge by its number.
    fn push_edge(&mut self, edge: Edge, number: usize) -> Result<(), NoMemory> {
        self.edges.push(edge)?;
        self.names.push(number)?;
        Ok(())
    }

    // Adds the shipment of a net, which may go by the edges from a place on, without a walk. Its lists
    // have room for walks that come to no node twice.
    fn push_shipment(&mut self, alloc: Global, net: &Net, first: usize) -> Result<(), NoMemory> {
        let end = self.edges.len();
        let nodes = net.end_node.saturating_sub(net.first_node);
        let room = nodes.min(self.labels.len());
        self.ways.push(Ways { first, end })?;
        self.walks.push(Vec::with_capacity(alloc, room)?)?;
        self.former.push(Vec::with_capacity(alloc, room)?)?;
        Ok(())
    }

    // Adds all edges of a net.
    fn push_all(&mut self, nets: &Nets, net: &Net) -> Result<(), NoMemory> {
        let mut number = net.first_edge;
        for edge in nets.edges_of(net) {
            self.push_edge(*edge, number)?;
            number = number.wrapping_add(1);
        }
        Ok(())
    }

    // Adds the edges of a net that lie on least walks, where its nodes are labelled.
    fn push_least(&mut self, nets: &Nets, net: &Net) -> Result<(), NoMemory> {
        let goal = cost_of(&nets.labels, net.goal);
        let mut number = net.first_edge;
        for edge in nets.edges_of(net) {
            let through = cost_of(&nets.labels, edge.tail).wrapping_add(edge.cost);
            if through <= goal && through == cost_of(&nets.labels, edge.head) {
                self.push_edge(*edge, number)?;
            }
            number = number.wrapping_add(1);
        }
        Ok(())
    }

    /// No walks yet; each shipment may go by all edges of its net.
    pub fn over_all(alloc: Global, model: &LeafNets) -> Result<SharedWalks, NoMemory> {
        let nodes = model.nets.labels.len();
        let mut shared = SharedWalks::new(alloc, model.classes.len(), nodes)?;
        for net in &model.nets.list {
            let first = shared.edges.len();
            shared.push_all(&model.nets, net)?;
            shared.push_shipment(alloc, net, first)?;
        }
        Ok(shared)
    }

    /// No walks yet; each shipment may go by the edges that lie on least walks at the costs that are
    /// set.
    pub(crate) fn over_least(alloc: Global, model: &mut LeafNets) -> Result<SharedWalks, NoMemory> {
        let nodes = model.nets.labels.len();
        let mut shared = SharedWalks::new(alloc, model.classes.len(), nodes)?;
        for number in 0..model.nets.list.len() {
            if let Some(net) = model.nets.list.get(number).copied() {
                model.nets.label_net(&net);
                let first = shared.edges.len();
                shared.push_least(&model.nets, &net)?;
                shared.push_shipment(alloc, &net, first)?;
            }
        }
        Ok(shared)
    }

    /// Takes the walk of a shipment out of the loads. What is saved by it.
    pub(crate) fn leave(&mut self, costs: &LoadCosts, shipment: usize) -> u64 {
        let mut saved = 0u64;
        let size = costs.size(shipment);
        if let Some(walk) = self.walks.get(shipment) {
            for number in walk {
                saved = saved.saturating_add(costs.unload(&mut self.loads, *number, size));
            }
        }
        saved
    }

    /// Puts the walk of a shipment into the loads. What it adds to the cost.
    pub fn join(&mut self, costs: &LoadCosts, shipment: usize) -> u64 {
        let mut added = 0u64;
        let size = costs.size(shipment);
        if let Some(walk) = self.walks.get(shipment) {
            for number in walk {
                added = added.saturating_add(costs.load(&mut self.loads, *number, size));
            }
        }
        added
    }

    // Exchanges the walk of a shipment and the one that was given up.
    fn turn_back(&mut self, shipment: usize) {
        if let (Some(walk), Some(former)) = (
            self.walks.get_mut(shipment),
            self.former.get_mut(shipment),
        ) {
            std::mem::swap(walk, former);
        }
    }

    /// Takes shipments out of the loads, and exchanges their walks and those that were given up. What
    /// is saved.
    pub fn leave_all(&mut self, costs: &LoadCosts, shipments: &[usize]) -> u64 {
        let mut saved = 0u64;
        for shipment in shipments {
            saved = saved.saturating_add(self.leave(costs, *shipment));
            self.turn_back(*shipment);
        }
        saved
    }

    /// Lets shipments that were taken out choose one after the other. What they add. It takes no
    /// memory.
    pub fn choose_all(&mut self, costs: &LoadCosts, shipments: &[usize], parts: u64) -> u64 {
        let mut added = 0u64;
        for shipment in shipments {
            self.choose(costs, *shipment, parts);
            added = added.saturating_add(self.join(costs, *shipment));
        }
        added
    }

    /// Gives shipments the walks back that they gave up.
    pub fn go_back(&mut self, costs: &LoadCosts, shipments: &[usize]) {
        self.leave_all(costs, shipments);
        for shipment in shipments {
            self.join(costs, *shipment);
        }
    }

    /// Gives a shipment the walk over these classes, where each of them is in its net, and they are
    /// no more than its nodes. Whether that is so; otherwise it has no walk. It takes no memory.
    pub fn put(&mut self, costs: &LoadCosts, shipment: usize, stops: &[Stop]) -> bool {
        let (Some(net), Some(walk)) = (costs.net(shipment), self.walks.get_mut(shipment)) else {
            return false;
        };
        walk.clear();
        for stop in stops.iter().rev() {
            let Some(number) = costs.edge_at(&net, *stop) else {
                walk.clear();
                return false;
            };
            if walk.len() >= walk.capacity() {
                walk.clear();
                return false;
            }
            walk.push_reserved(number);
        }
        true
    }

    /// Chooses for a shipment, of the walks over its edges, one of least cost at the loads, as
    /// `LoadCosts` guides it by so many parts. It takes no memory.
    pub fn choose(&mut self, costs: &LoadCosts, shipment: usize, parts: u64) {
        let (Some(net), Some(ways)) = (costs.net(shipment), self.ways.get(shipment).copied()) else {
            return;
        };
        let names = self.names.get(ways.first..ways.end).unwrap_or(&[]);
        let count = net.end_node.saturating_sub(net.first_node);
        let (Some(edges), Some(labels), Some(walk)) = (
            part_mut(&mut self.edges, ways.first, ways.end),
            part_mut(&mut self.labels, 0, count),
            self.walks.get_mut(shipment),
        ) else {
            return;
        };
        for (edge, name) in edges.iter_mut().zip(names.iter()) {
            if let Some(edge_use) = costs.nets.uses.get(*name) {
                edge.cost = costs.guide(&self.loads, edge_use, net.size, parts);
            }
        }
        label_nodes(edges, labels, net.start);
        trace(costs, edges, names, labels, net.goal, walk);
    }
}

// Puts in the walk to a node, by the names of its edges, the last first, without those for waiting.
// The list has room for all of them, as a least walk comes to no node twice.
fn trace(
    costs: &LoadCosts,
    edges: &[Edge],
    names: &[usize],
    labels: &[Label],
    goal: u32,
    walk: &mut Vec<usize>,
) {
    walk.clear();
    let mut node = goal;
    for _ in 0..edges.len() {
        let Some((number, tail)) = last_edge(edges, labels, node) else {
            break;
        };
        if let Some(name) = names.get(number)
            && let Some(edge) = costs.nets.uses.get(*name)
            && edge.class != WAIT
            && walk.len() < walk.capacity()
        {
            walk.push_reserved(*name);
        }
        node = tail;
    }
}

// The classes of a walk whose edges have these numbers, the last first.
fn timed_walk(alloc: Global, costs: &LoadCosts, walk: &[usize]) -> Result<TimedWalk, NoMemory> {
    let mut stops = Vec::with_capacity(alloc, walk.len())?;
    for number in walk.iter().rev() {
        if let Some(class) = costs.class(*number) {
            stops.push(class.stop)?;
        }
    }
    Ok(TimedWalk { stops })
}

/// The classes of each of these walks, whose edges are given as in [`SharedWalks`].
pub fn timed_walks(
    alloc: Global,
    costs: &LoadCosts,
    walks: &[Vec<usize>],
) -> Result<Vec<TimedWalk>, NoMemory> {
    let mut timed = Vec::with_capacity(alloc, walks.len())?;
    for walk in walks {
        timed.push(timed_walk(alloc, costs, walk)?)?;
    }
    Ok(timed)
}
