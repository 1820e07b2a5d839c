//! The rules of an accepted certificate, one subject a file.
pub(crate) mod added_points;
pub(crate) mod claims;
pub(crate) mod departures;
pub(crate) mod fastest_times;
pub(crate) mod leaf_ways;
pub(crate) mod leaves;
pub(crate) mod narrow_sides;
pub(crate) mod narrowed_ways;
pub(crate) mod narrowings;
pub(crate) mod orders;
pub(crate) mod plans;
pub(crate) mod price_gifts;
pub(crate) mod price_spans;
pub(crate) mod price_tables;
pub(crate) mod prices;
pub(crate) mod trees;
