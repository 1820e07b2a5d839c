//! The points of a network as nodes, and its classes between them.
ghost use Rattle.fp_longestarcs.specs.Whole.{IsWholeNetwork};

use crate::NoMemory;
use crate::money::arc_money::ArcMoney;
use fp_longestarcs::{Network, Stop};
use fp_model::Instance;
use std::alloc::Global;

/// No class: the edge of a shipment that waits.
pub const WAIT: u32 = u32::MAX;

/// The points of a network as nodes, by terminal and then by time.
#[derive(Drop)]
pub(crate) struct PointNodes {
    /// The time of each node.
    pub points: Vec<u32>,
    /// The first node of each terminal, and at last how many nodes there are.
    pub firsts: Vec<usize>,
}

/// A class, and the nodes of its point and of its head.
#[derive(Clone, Copy)]
pub struct ClassNodes {
    pub stop: Stop,
    /// The arc's tail.
    pub from: u32,
    /// The node of its point, among those of all terminals.
    pub tail: usize,
    /// The node of its head.
    pub head: usize,
}

impl PointNodes {
    /// The points of all terminals of a network.
    pub(crate) fn of(
        alloc: Global,
        instance: &Instance,
        network: &Network,
    ) -> Result<PointNodes, NoMemory>
        requires whole { IsWholeNetwork instance.now network.now }
    {
        let mut points = Vec::new(alloc);
        let mut firsts = Vec::new(alloc);
        for terminal in 0..instance.terminals().len() as u32 {
            firsts.push(points.len())?;
            points.extend_from_slice(network.points(terminal))?;
        }
        firsts.push(points.len())?;
        Ok(PointNodes { points, firsts })
    }

    /// The first node of a terminal.
    pub(crate) fn first(&self, terminal: u32) -> usize {
        self.firsts.get(terminal as usize).copied().unwrap_or(0)
    }

    /// The node of a point of a terminal.
    pub(crate) fn node(&self, terminal: u32, at: u32) -> usize {
        let first = self.first(terminal);
        let end = self.first(terminal.wrapping_add(1));
        let place = match self.points.get(first..end) {
            Some(points) => points.partition_point(|point| *point < at),
            None => 0,
        };
        first.wrapping_add(place)
    }
}

/// The classes of a network, by their numbers.
pub(crate) fn all_classes(
    alloc: Global,
    instance: &Instance,
    network: &Network,
    nodes: &PointNodes,
) -> Result<Vec<ClassNodes>, NoMemory> {
    let mut classes = Vec::with_capacity(alloc, network.classes() as usize)?;
    for class in 0..network.classes() {
        let (arc, point) = network.of_class(class);
        if let Some(taken) = instance.arcs().get(arc as usize) {
            classes.push(ClassNodes {
                stop: Stop { arc, point },
                from: taken.from,
                tail: nodes.node(taken.from, point),
                head: nodes.node(taken.to, network.head(arc, point)),
            })?;
        }
    }
    Ok(classes)
}

/// What the arc of a class costs; `None` for `WAIT`.
pub fn arc_of(class: u32, classes: &[ClassNodes], arcs: &[ArcMoney]) -> Option<ArcMoney> {
    if class == WAIT {
        return None;
    }
    let class = classes.get(class as usize)?;
    arcs.get(class.stop.arc as usize).copied()
}
