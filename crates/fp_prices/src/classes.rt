//! What the classes of a network cost a shipment under a kind of prices.
pub(crate) mod arc_rates;
pub(crate) mod bases;
pub(crate) mod class_prices;
pub(crate) mod class_rules;
pub(crate) mod class_users;
pub(crate) mod share_prices;
pub(crate) mod share_searches;
