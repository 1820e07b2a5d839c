//! The graph of a network's points, and the walks of shipments in it.
pub(crate) mod class_walks;
pub(crate) mod least_costs;
pub(crate) mod nodes_met;
pub(crate) mod point_graphs;
pub(crate) mod priced_graphs;
pub(crate) mod shipment_graphs;
pub(crate) mod timed_walks;
