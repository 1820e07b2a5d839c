//! The prices of a leaf over the graph of its network's points.
use crate::classes::class_prices::ClassPricing;
use crate::graphs::point_graphs::PointGraph;

/// Over what the ways of a leaf's shipments are searched: what the classes of its network cost each
/// of them, and the graph of the network's points.
#[derive(Clone, Copy)]
pub(crate) struct PricedGraph<'a> {
    pub(crate) pricing: &'a ClassPricing<'a>,
    pub(crate) graph: &'a PointGraph,
}
