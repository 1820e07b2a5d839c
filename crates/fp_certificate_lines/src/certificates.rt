//! What a certificate is made of.
use fp_prices::{LeafPrice, Table};
use fp_prices_gifts::TableGifts;
use fp_prices_spans::TableSpans;
use fp_timenodes::AddedPoint;
use fp_timetable::{LegLine, TruckLine};
use fp_tree::Split;
use std::marker::Model;

/// What a search had spent when it ended before its answer was proved the cheapest.
#[derive(Clone, Copy, Debug, PartialEq, Eq)]
pub enum Spent {
    /// All the rounds of refinement that it was given.
    Rounds,
    /// All the branches that it was given.
    Branches,
    /// All the time that it was given.
    Time,
}

/// What a certificate claims. Costs and bounds are in the input's unit of money, at most `2^127 -
/// 1` in a certificate that was read.
#[derive(Clone, Copy, Debug, PartialEq, Eq)]
pub enum Answer {
    /// The legs are a plan of this cost, and no more.
    Direct {
        cost: u128,
    },
    /// The legs are a plan of this cost, and no plan costs less.
    Optimal {
        cost: u128,
    },
    /// The legs are a plan of this cost, no plan costs less than `bound`, and the search had spent
    /// what it was given.
    Unfinished {
        cost: u128,
        bound: u128,
        spent: Spent,
    },
    /// The shipment with this number can't be carried in time. `time` is the fastest time from its
    /// origin to its destination, in the input's unit, and `None` where it has no route.
    Infeasible {
        shipment: u32,
        time: Option<u32>,
    },
}

/// How a leaf is valued: its price, and under how many of its sides, from the root on; under all of
/// them where `sides` is `None`, and where it has no more.
#[derive(Clone, Copy, Debug, PartialEq, Eq)]
pub struct Valuation {
    /// Its price.
    pub price: LeafPrice,
    /// Under so many of its sides.
    pub sides: Option<u32>,
}

/// A narrowing at a node: below the node a class is barred for a shipment where the node's value under the
/// price, with the shipment made to go by the class, is worth what the certificate claims; or so much, where
/// `worth` names more than that.
#[derive(Clone, Copy, Debug, PartialEq, Eq)]
pub struct Narrowing {
    /// The price that it is by.
    pub price: LeafPrice,
    /// From which worth on classes are barred, where that is more than the claim; in the input's unit of money.
    pub worth: Option<u128>,
}

/// A node of the tree of a search, or a narrowing at the node that follows.
#[derive(Clone, Copy, Debug, PartialEq, Eq)]
pub enum Node {
    /// A split. Its first side and then its second follow it.
    Branch { split: Split },
    /// A leaf, and how it is valued.
    Leaf { valuation: Valuation },
    /// A narrowing at the next node that is none.
    Narrow { narrowing: Narrowing },
}

/// An answer with all that tells why it is true. Contracts see a certificate as the record of these
/// parts, with lists.
///
/// A certificate may be of any numbers: `read` gives only those in range, and the checker tells
/// which are true.
#[derive(Drop)]
pub struct Certificate {
    /// What it claims.
    pub answer: Answer,
    /// How many parts of prices make a unit of money, 1 to 1,000,000,000. `None` stands for
    /// 1,000,000.
    pub scale: Option<u32>,
    /// A number that divides what each plan costs, by which bounds are rounded up, at least 1. `None`
    /// where they aren't.
    pub unit: Option<u128>,
    /// The legs of the plan, by departure and then by shipment.
    pub legs: Vec<LegLine>,
    /// The departures of the plan with their trucks, by departure and then by arc.
    pub trucks: Vec<TruckLine>,
    /// The points that were added to the first ones, in the order of adding.
    pub points: Vec<AddedPoint>,
    /// The tables of prices, numbered from 1.
    pub tables: Vec<Table>,
    /// The spans beside each table, in the order of the tables.
    pub spans: Vec<TableSpans>,
    /// The gifts beside each table, in the order of the tables.
    pub gifts: Vec<TableGifts>,
    /// Whether leaves are priced by moments by each table, in the order of the tables: by the windows
    /// that their sides narrow, where only a span that is charged at the leaf has to pay.
    pub moments: Vec<bool>,
    /// The tree of the search in preorder, with the narrowings at a node before it.
    pub tree: Vec<Node>,
}

impl Model for Certificate {
    ghost use Rattle.fp_certificate_lines.specs.Statements.{Statement};

    ghost Value = { Statement };

    ghost view = { λ c. record {
      answer = c.answer;
      scale = c.scale;
      unit = c.unit;
      legs = c.legs.items;
      trucks = c.trucks.items;
      points = c.points.items;
      tables = c.tables.items;
      spans = c.spans.items;
      gifts = c.gifts.items;
      moments = c.moments.items;
      tree = c.tree.items;
    } };
}
