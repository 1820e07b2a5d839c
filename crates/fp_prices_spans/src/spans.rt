//! Spans of prices.
use fp_prices::Weight;
use std::marker::Model;

/// The weights of all spans of a list come together to less than this, in parts of a unit of money,
/// so that no sum of prices passes 128 bits: a search adds up at most a weight for each of 65,000
/// points, and a leaf what 500 shipments pay.
pub const MOST_SPAN_WEIGHT: u128 = 1 << 100;

/// How the trucks of a run of classes of one arc are paid: those whose points lie from `point` up
/// to, and without, `until`.
///
/// `money` is the part of the cost of one truck that the run has, in each of its classes. Each
/// shipment pays its weight in each class that it uses, and nothing where it has none. `charge` is
/// what the weights of shipments may pass the money of their trucks by; a leaf is worth so much
/// less where the span holds for a class that counts. All three count parts of a unit of money, of
/// which the instance's scale makes one.
///
/// Shipments whose windows share no moment never leave together. So the moments of the span, from
/// `point` on, are divided into runs, and each departure lies in one of them: `groups` has the
/// moments, in the input's unit of time, at which further groups of departures begin. They ascend
/// strictly, after `point` and before `until`. The charge has a part for each run, where only the
/// shipments count that can leave in the run. Without groups there is one run.
///
/// Contracts see a span as the record of its numbers, its list of weights and its list of groups
/// (`ClassSpan`).
#[derive(Drop)]
pub struct Span {
    pub arc: u32,
    pub point: u32,
    pub until: u32,
    pub money: u128,
    pub charge: u128,
    pub weights: Vec<Weight>,
    pub groups: Vec<u32>,
}

impl Model for Span {
    ghost use Rattle.fp_prices_spans.specs.Spans.{ClassSpan};

    ghost Value = { ClassSpan };

    ghost view = { λ s. record { arc = s.arc; point = s.point; until = s.until; money = s.money; charge = s.charge; weights = s.weights.items; groups = s.groups.items } };
}
