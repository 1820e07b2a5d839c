//! Tables of prices: shares of classes, and weights of shipments.
use std::marker::Model;

/// What a shipment, by its number, pays for a class beside what goes by its size. `w` counts parts
/// of a unit of money.
#[derive(Clone, Copy, Debug, PartialEq, Eq)]
pub struct Weight {
    pub shipment: u32,
    pub w: u128,
}

/// How the trucks of one class, an arc and a point of its tail, are paid: `v` for each unit of
/// size, and a weight for each of some shipments. Both count parts of a unit of money, of which the
/// instance's scale makes one.
///
/// The price rule: all weights and `v` times the arc's capacity are together at most the scale
/// times the arc's truck cost. Contracts see a share as the record of its numbers and its list of
/// weights.
#[derive(Drop)]
pub struct Share {
    pub arc: u32,
    pub point: u32,
    pub v: u128,
    pub weights: Vec<Weight>,
}

impl Model for Share {
    ghost use Rattle.fp_prices.specs.Shares.{ClassShare};

    ghost Value = { ClassShare };

    ghost view = { λ s. record { arc = s.arc; point = s.point; v = s.v; weights = s.weights.items } };
}

/// Prices of some classes. Contracts see a table as the list of its shares. Tables are numbered
/// from 1 by their places in a list of tables, and shares from 0 in their table.
#[derive(Drop)]
pub struct Table {
    pub shares: Vec<Share>,
}

impl Model for Table {
    ghost use Rattle.std.specs.Prelude.{List};
    ghost use Rattle.fp_prices.specs.Shares.{ClassShare};

    ghost Value = { List ClassShare };

    ghost view = { λ t. t.shares.items };
}

/// A share that breaks the price rule: the number of its table, from 1, and its number in the
/// table, from 0.
#[derive(Clone, Copy, Debug, PartialEq, Eq)]
pub struct TableFault {
    pub table: u32,
    pub share: u32,
}
