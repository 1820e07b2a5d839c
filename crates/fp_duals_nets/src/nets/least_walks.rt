//! Least walks in a net, by labels that are lowered edge by edge (R. Bellman, "On a routing
//! problem", Quarterly of Applied Mathematics 16, 1958).
//!
//! The edges stand by their tails, and nodes are numbered so that least walks rarely lead back. So
//! one pass over the edges mostly settles all labels.

/// An edge of a net.
#[derive(Clone, Copy)]
pub struct Edge {
    pub tail: u32,
    pub head: u32,
    pub cost: u64,
}

/// No edge.
pub(crate) const NO_EDGE: u32 = u32::MAX;

/// The cost of a node that isn't reached, above all others.
pub const FAR: u64 = 1 << 63;

/// What it costs to come to a node, and the last edge of the way.
#[derive(Clone, Copy)]
pub struct Label {
    pub cost: u64,
    pub edge: u32,
}

/// The label of a node that isn't reached.
pub const UNREACHED: Label = Label {
    cost: FAR,
    edge: NO_EDGE,
};

// Lowers labels along each edge, in their order. Whether a label was lowered along an edge that
// doesn't lead on, so that edges before may lower labels further.
fn lower_labels(edges: &[Edge], labels: &mut [Label]) -> bool {
    let mut back = false;
    let mut number = 0u32;
    for edge in edges {
        let here = match labels.get(edge.tail as usize) {
            Some(label) => label.cost,
            None => FAR,
        };
        let through = here.wrapping_add(edge.cost);
        if let Some(label) = labels.get_mut(edge.head as usize)
            && through < label.cost
        {
            *label = Label {
                cost: through,
                edge: number,
            };
            back |= edge.head <= edge.tail;
        }
        number = number.wrapping_add(1);
    }
    back
}

/// Labels the nodes with the least costs of walks from the start. The edges stand by their tails.
pub fn label_nodes(edges: &[Edge], labels: &mut [Label], start: u32) {
    for label in labels.iter_mut() {
        *label = UNREACHED;
    }
    if let Some(label) = labels.get_mut(start as usize) {
        label.cost = 0;
    }
    for _ in 0..labels.len() {
        if !lower_labels(edges, labels) {
            break;
        }
    }
}

/// The cost of a node.
pub fn cost_of(labels: &[Label], node: u32) -> u64 {
    match labels.get(node as usize) {
        Some(label) => label.cost,
        None => FAR,
    }
}

/// The number of the last edge of the way to a node, and the node that it comes from; `None` at the
/// start.
pub fn last_edge(edges: &[Edge], labels: &[Label], node: u32) -> Option<(usize, u32)> {
    let number = labels.get(node as usize)?.edge as usize;
    let edge = edges.get(number)?;
    Some((number, edge.tail))
}
