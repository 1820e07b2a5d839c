//! How the net of a shipment is made of the edges between its groups of points.

use crate::NoMemory;
use crate::nets::least_walks::{Edge, FAR, Label, UNREACHED, cost_of, label_nodes};
use crate::nets::point_groups::GroupEdge;
use crate::nets::shipment_nets::{EdgeUse, NO_PART, NONE, Net, Nets};
use std::alloc::Global;

/// A shipment as its net is made: its size, the classes that it's forced to use, and the groups in
/// which it starts and ends, of so many.
#[derive(Clone, Copy)]
pub(crate) struct Traveler<'a> {
    pub size: u64,
    pub forced: &'a [u32],
    pub start: u32,
    pub goal: u32,
    pub groups: u32,
}

/// What nets are made in, kept from one to the next.
#[derive(Drop)]
pub(crate) struct NetDraft {
    /// The edges between the groups of the shipment.
    pub between: Vec<GroupEdge>,
    edges: Vec<Edge>,
    ahead: Vec<Label>,
    back: Vec<Label>,
    // The groups on walks from the start to the goal, by their labels: these are the nodes.
    order: Vec<(u64, u32)>,
    // The node of each group, or `NONE`.
    places: Vec<u32>,
    // The edges on these walks: their ends, and their places in `between`.
    kept: Vec<(u32, u32, usize)>,
}

// Puts in the edges between groups, by their tails: ahead at the prices that go by size alone, or
// back at what the freight costs.
fn list_edges(between: &[GroupEdge], edges: &mut Vec<Edge>, back: bool) -> Result<(), NoMemory> {
    edges.clear();
    for edge in between {
        let (tail, head, cost) = if back {
            (edge.head, edge.tail, edge.flow)
        } else {
            (edge.tail, edge.head, edge.cost)
        };
        edges.push(Edge { tail, head, cost })?;
    }
    edges.sort_by_key(|edge| edge.tail)
}

// The node of a group, or `NONE` where it's on no walk.
fn node_of(places: &[u32], group: u32) -> u32 {
    places.get(group as usize).copied().unwrap_or(NONE)
}

impl NetDraft {
    /// Nothing yet.
    pub(crate) fn new(alloc: Global) -> NetDraft {
        NetDraft {
            between: Vec::new(alloc),
            edges: Vec::new(alloc),
            ahead: Vec::new(alloc),
            back: Vec::new(alloc),
            order: Vec::new(alloc),
            places: Vec::new(alloc),
            kept: Vec::new(alloc),
        }
    }

    /// Adds the net that the edges between the groups make for a shipment.
    pub(crate) fn push_net(
        &mut self,
        nets: &mut Nets,
        traveler: &Traveler,
    ) -> Result<(), NoMemory> {
        self.label_groups(traveler)?;
        self.order_nodes()?;
        self.number_nodes(traveler.groups)?;
        self.keep_edges()?;
        let first_edge = nets.edges.len();
        let first_node = nets.rests.len();
        self.push_edges(nets, traveler.forced)?;
        self.push_rests(nets)?;
        let nodes = self.order.len();
        if nodes > nets.labels.len() {
            nets.labels.resize(nodes, UNREACHED)?;
        }
        nets.list.push(Net {
            size: traveler.size,
            first_edge,
            end_edge: nets.edges.len(),
            first_node,
            end_node: nets.rests.len(),
            start: node_of(&self.places, traveler.start),
            goal: node_of(&self.places, traveler.goal),
        })?;
        Ok(())
    }

    // Labels the groups from the start on, and back from the goal.
    fn label_groups(&mut self, traveler: &Traveler) -> Result<(), NoMemory> {
        let groups = traveler.groups as usize;
        list_edges(&self.between, &mut self.edges, false)?;
        self.ahead.resize(groups, UNREACHED)?;
        label_nodes(&self.edges, &mut self.ahead, traveler.start);
        list_edges(&self.between, &mut self.edges, true)?;
        self.back.resize(groups, UNREACHED)?;
        label_nodes(&self.edges, &mut self.back, traveler.goal);
        Ok(())
    }

    // Orders the groups on walks from the start to the goal by their labels.
    fn order_nodes(&mut self) -> Result<(), NoMemory> {
        self.order.clear();
        let mut group = 0u32;
        for (ahead, back) in self.ahead.iter().zip(self.back.iter()) {
            if ahead.cost < FAR && back.cost < FAR {
                self.order.push((ahead.cost, group))?;
            }
            group = group.wrapping_add(1);
        }
        self.order.sort()
    }

    // Numbers the nodes in their order.
    fn number_nodes(&mut self, groups: u32) -> Result<(), NoMemory> {
        self.places.clear();
        self.places.resize(groups as usize, NONE)?;
        let mut node = 0u32;
        for (_, group) in &self.order {
            if let Some(place) = self.places.get_mut(*group as usize) {
                *place = node;
            }
            node = node.wrapping_add(1);
        }
        Ok(())
    }

    // Keeps the edges on walks from the start to the goal, by their nodes.
    fn keep_edges(&mut self) -> Result<(), NoMemory> {
        self.kept.clear();
        let mut number = 0usize;
        for edge in &self.between {
            let tail = node_of(&self.places, edge.tail);
            let head = node_of(&self.places, edge.head);
            if tail != NONE && head != NONE {
                self.kept.push((tail, head, number))?;
            }
            number = number.wrapping_add(1);
        }
        self.kept.sort()
    }

    // Adds the kept edges to those of all nets.
    fn push_edges(&self, nets: &mut Nets, forced: &[u32]) -> Result<(), NoMemory> {
        for (tail, head, number) in &self.kept {
            if let Some(edge) = self.between.get(*number) {
                nets.edges.push(Edge {
                    tail: *tail,
                    head: *head,
                    cost: edge.flow,
                })?;
                nets.uses.push(EdgeUse {
                    class: edge.class,
                    forced: forced.contains(&edge.class),
                    pool: NONE,
                    part: NO_PART,
                    flow: edge.flow,
                })?;
            }
        }
        Ok(())
    }

    // Adds the least costs of freight from the nodes to the goal.
    fn push_rests(&self, nets: &mut Nets) -> Result<(), NoMemory> {
        for (_, group) in &self.order {
            nets.rests.push(cost_of(&self.back, *group))?;
        }
        Ok(())
    }
}
