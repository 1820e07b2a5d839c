//! What leaves are worth, one by one and over the network of a round.
pub(crate) mod bounds;
pub(crate) mod known_costs;
pub(crate) mod leaf_pricings;
pub(crate) mod leaf_walks;
pub(crate) mod leaves;
pub(crate) mod round_bounds;
pub(crate) mod rounds;
