//! What a shipment needs to pay for the classes of its net, so that its least cost stays.
//!
//! A shipment's labels, cut at what the goal's label leaves, rise along no edge by more than it
//! costs. So no class has to cost more than the rise along it, and at prices between that and the
//! price that was set the least cost is as before.

use fp_duals_nets::{Edge, EdgeUse, Label, Net, Nets, cost_of, part_mut};

// Cuts each label at what the goal's leaves for the rest of the way.
fn cut_labels(labels: &mut [Label], rests: &[u64], goal: u64) {
    for (label, rest) in labels.iter_mut().zip(rests.iter()) {
        label.cost = label.cost.min(goal.saturating_sub(*rest));
    }
}

// The rise of the labels along each edge, above what its freight costs.
fn list_needs(edges: &[Edge], uses: &[EdgeUse], labels: &[Label], needs: &mut [u64]) {
    for ((edge, edge_use), need) in edges.iter().zip(uses.iter()).zip(needs.iter_mut()) {
        *need = cost_of(labels, edge.head)
            .saturating_sub(cost_of(labels, edge.tail))
            .saturating_sub(edge_use.flow);
    }
}

/// Puts in what the shipment of a net needs to pay over each of its edges, at the costs that are
/// set. The least cost of a walk.
pub fn find_needs(nets: &mut Nets, net: &Net, needs: &mut [u64]) -> u64 {
    let goal = nets.label_net(net);
    if let Some(rests) = nets.rests.get(net.first_node..net.end_node) {
        cut_labels(&mut nets.labels, rests, goal);
    }
    if let Some(needs) = part_mut(needs, net.first_edge, net.end_edge) {
        list_needs(nets.edges_of(net), nets.uses_of(net), &nets.labels, needs);
    }
    goal
}

/// The same for all nets.
pub fn find_all_needs(nets: &mut Nets, needs: &mut [u64]) {
    for number in 0..nets.list.len() {
        if let Some(net) = nets.list.get(number).copied() {
            find_needs(nets, &net, needs);
        }
    }
}
