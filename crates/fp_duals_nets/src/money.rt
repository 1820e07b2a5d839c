//! The money of a search: its unit, and what arcs cost.
pub(crate) mod arc_money;
pub(crate) mod units;
