//! The points of a network in groups, and the edges of a shipment between them.

use crate::NoMemory;
use crate::classes::class_nodes::{PointNodes, WAIT, arc_of};
use crate::nets::all_nets::NetParts;
use crate::nets::least_walks::FAR;
use crate::nets::steps::Step;
use std::alloc::Global;

/// An edge between groups of points, for a class, or for waiting.
#[derive(Clone, Copy)]
pub(crate) struct GroupEdge {
    pub tail: u32,
    pub head: u32,
    pub class: u32,
    /// What the freight costs.
    pub flow: u64,
    /// The same with what a truck costs by size alone.
    pub cost: u64,
}

// What is known of a point: whether it's its terminal's first, whether allowed classes come to it
// or leave it, and its group.
#[derive(Clone, Copy)]
struct PointMark {
    first: bool,
    entered: bool,
    left: bool,
    group: u32,
}

/// The points of a network in groups. Points of one terminal are in one group where a shipment at
/// any of them can leave as from all: no class comes to one of them after a class has left another.
#[derive(Drop)]
pub(crate) struct PointGroups {
    marks: Vec<PointMark>,
    /// How many groups there are.
    pub count: u32,
}

impl PointGroups {
    /// Groups for the points of a network, before any shipment is looked at.
    pub(crate) fn of(alloc: Global, nodes: &PointNodes) -> Result<PointGroups, NoMemory> {
        let unmarked = PointMark {
            first: false,
            entered: false,
            left: false,
            group: 0,
        };
        let mut marks = vec![in alloc; unmarked; nodes.points.len()]?;
        for first in &nodes.firsts {
            if let Some(mark) = marks.get_mut(*first) {
                mark.first = true;
            }
        }
        Ok(PointGroups { marks, count: 0 })
    }

    /// Groups the points for a shipment that may take these steps.
    pub(crate) fn group(&mut self, steps: &[Step]) {
        for mark in self.marks.iter_mut() {
            mark.entered = false;
            mark.left = false;
        }
        for step in steps {
            self.mark_ends(step);
        }
        self.number_groups();
    }

    // Marks the ends of a step.
    fn mark_ends(&mut self, step: &Step) {
        if let Some(mark) = self.marks.get_mut(step.tail) {
            mark.left = true;
        }
        if let Some(mark) = self.marks.get_mut(step.head) {
            mark.entered = true;
        }
    }

    // Numbers the groups from 0.
    fn number_groups(&mut self) {
        let mut begun = 0u32;
        let mut left = false;
        for mark in self.marks.iter_mut() {
            if mark.first || mark.entered && left {
                begun = begun.wrapping_add(1);
                left = false;
            }
            mark.group = begun.wrapping_sub(1);
            left |= mark.left;
        }
        self.count = begun;
    }

    /// The group of a node.
    pub(crate) fn of_node(&self, node: usize) -> u32 {
        match self.marks.get(node) {
            Some(mark) => mark.group,
            None => 0,
        }
    }

    // The edge of a step for a size.
    fn edge(&self, parts: &NetParts, step: &Step, size: u64) -> Option<GroupEdge> {
        let arc = arc_of(step.class, parts.classes, parts.arcs)?;
        let flow = arc.flow(parts.unit, size);
        Some(GroupEdge {
            tail: self.of_node(step.tail),
            head: self.of_node(step.head),
            class: step.class,
            flow,
            cost: flow.saturating_add(arc.linear(size)).min(FAR - 1),
        })
    }

    // Adds the edges over which a shipment waits, from each group to the next of its terminal.
    fn push_waits(&self, edges: &mut Vec<GroupEdge>) -> Result<(), NoMemory> {
        let mut last = 0u32;
        for mark in self.marks.iter() {
            if mark.group != last && !mark.first {
                edges.push(GroupEdge {
                    tail: last,
                    head: mark.group,
                    class: WAIT,
                    flow: 0,
                    cost: 0,
                })?;
            }
            last = mark.group;
        }
        Ok(())
    }

    /// Puts in the edges of a shipment of a size that may take these steps, once the points are
    /// grouped for it: those of the steps, and those over which it waits.
    pub(crate) fn list_edges(
        &self,
        parts: &NetParts,
        steps: &[Step],
        size: u64,
        edges: &mut Vec<GroupEdge>,
    ) -> Result<(), NoMemory> {
        edges.clear();
        for step in steps {
            if let Some(edge) = self.edge(parts, step, size) {
                edges.push(edge)?;
            }
        }
        self.push_waits(edges)
    }
}
