//! Walks that go by given arcs: nets with layers.
//!
//! A side may ask a shipment to go by an arc. At a leaf that spans price it's worth the least costs over
//! walks that do, so a net has its groups twice for each such arc: in a lower layer before a walk has gone
//! by the arc, and in an upper one from there on. A walk begins in the lowest layer and ends in the
//! uppermost.

use crate::NoMemory;
use crate::classes::class_nodes::ClassNodes;
use crate::nets::net_drafts::Traveler;
use crate::nets::point_groups::GroupEdge;
use crate::nets::steps::Heads;
use fp_prices::Leaf;
use fp_prices_spans::{MOST_WAYS, leaf_ways};
use std::alloc::Global;

/// The arcs by which the walks of each shipment go in the nets of a leaf by such heads: none by those of
/// the classes, by which nothing that spans price is valued.
pub(crate) fn all_ways(
    alloc: Global,
    leaf: &Leaf,
    heads: Heads,
) -> Result<Vec<Vec<u32>>, NoMemory> {
    let mut ways = Vec::new(alloc);
    if heads == Heads::WithinWindows {
        for shipment in 0..leaf.round().instance().shipments().len() as u32 {
            ways.push(leaf_ways(alloc, leaf, shipment)?)?;
        }
    }
    Ok(ways)
}

/// How many layers the net with the most of them has, where walks go by these arcs.
pub(crate) fn most_layers(ways: &[Vec<u32>]) -> usize {
    let mut most = 0usize;
    for arcs in ways {
        most = most.max(arcs.len());
    }
    1 << most.min(MOST_WAYS)
}

// Whether an edge stands for a class of an arc.
fn is_by(edge: &GroupEdge, classes: &[ClassNodes], arc: u32) -> bool {
    match classes.get(edge.class as usize) {
        Some(class) => class.stop.arc == arc,
        None => false,
    }
}

// Lets the edges between so many groups lead by an arc: each of them gets a copy in an upper layer, and
// where it goes by the arc it leads there itself.
fn add_layer(
    edges: &mut Vec<GroupEdge>,
    classes: &[ClassNodes],
    arc: u32,
    groups: u32,
) -> Result<(), NoMemory> {
    for number in 0..edges.len() {
        if let Some(lower) = edges.get_mut(number) {
            let upper = GroupEdge {
                tail: lower.tail.wrapping_add(groups),
                head: lower.head.wrapping_add(groups),
                ..*lower
            };
            if is_by(lower, classes, arc) {
                lower.head = upper.head;
            }
            edges.push(upper)?;
        }
    }
    Ok(())
}

/// Lets the edges between the groups of a traveler lead by these arcs, in any order. The traveler with the
/// groups of all layers, who ends in the uppermost.
pub(crate) fn lead_by<'a>(
    traveler: Traveler<'a>,
    arcs: &[u32],
    classes: &[ClassNodes],
    edges: &mut Vec<GroupEdge>,
) -> Result<Traveler<'a>, NoMemory> {
    let mut led = traveler;
    for arc in arcs {
        add_layer(edges, classes, *arc, led.groups)?;
        led.goal = led.goal.wrapping_add(led.groups);
        led.groups = led.groups.wrapping_mul(2);
    }
    Ok(led)
}
