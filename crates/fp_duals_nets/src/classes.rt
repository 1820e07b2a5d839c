//! The classes of a leaf's network, and the shipments that use them.
pub(crate) mod class_nodes;
pub(crate) mod forced_loads;
pub(crate) mod set_bits;
pub(crate) mod users;
