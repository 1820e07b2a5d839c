//! The nets of the shipments, and least walks in them.
pub(crate) mod all_nets;
pub(crate) mod class_pools;
pub(crate) mod layers;
pub(crate) mod least_walks;
pub(crate) mod net_drafts;
pub(crate) mod point_groups;
pub(crate) mod shipment_nets;
pub(crate) mod steps;
