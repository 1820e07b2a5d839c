//! Walks of all shipments, and the loads that they make together.
pub(crate) mod draws;
pub(crate) mod load_costs;
pub(crate) mod shared_walks;
pub(crate) mod truck_sharing;
