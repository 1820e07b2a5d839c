//! The bound of a leaf under prices by spans.
ghost use Rattle.std.specs.Prelude.{ℕ, ◌≤◌, ◌*◌, IfOk, List};
ghost use Rattle.fp_model.specs.Problem.{IsValid, alone_total};
ghost use Rattle.fp_flatnet.specs.Tables.{windows_in};
ghost use Rattle.fp_longestarcs.specs.Networks.{points_in};
ghost use Rattle.fp_prices.specs.Leaves.{BoundsPlans};
ghost use Rattle.fp_prices.specs.Tables.{AreTables, HasKind};
ghost use Rattle.fp_prices_spans.specs.MomentRuns.{AreAmong};
ghost use Rattle.fp_prices_spans.specs.SpanCosts.{IsFoundBySpans};
ghost use Rattle.fp_prices_spans.specs.SpanLeaves.{IsSmallSpanBound, IsSpanBoundOf};
ghost use Rattle.fp_prices_spans.specs.SpanLists.{AreSpans};
ghost use Rattle.fp_prices_spans.specs.SpanPricings.{IsSpanPricing};
ghost use Rattle.fp_prices_spans.specs.SpanRules.{KeepSpanRules};

use crate::NoMemory;
use crate::spans::Span;
use crate::values::leaf_bases::bases;
use crate::values::leaf_charges::after_charges;
use crate::values::span_costs::{SpanPricing, least_cost};
use crate::values::spanned_rows::spanned_row;
use fp_prices::{Kind, Leaf, LeafBound, Table};
use std::alloc::Global;

/// The bases and the least cost of each shipment under prices by spans, before charges are taken off, or
/// the first shipment that has no allowed walk by the leaf's heads and ways. `bases` is what
/// [`bases`](crate::bases) finds. `NoMemory` only where no memory is found.
pub fn value_before_charges(
    alloc: Global,
    by_spans: &SpanPricing,
    bases: u128,
) -> Result<LeafBound, NoMemory>
    requires by_spans { IsSpanPricing by_spans.now }
    requires bases { bases ≤ by_spans.now.pricing.now.leaf.setting.problem.scale * alone_total by_spans.now.pricing.now.leaf.setting.problem.arcs by_spans.now.pricing.now.leaf.setting.problem.shipments }
    ensures valid { IfOk result (λ _. IsValid by_spans.now.pricing.now.leaf.setting.problem) }
    ensures exact { IfOk result (IsFoundBySpans by_spans.now.pricing.now by_spans.now.spans.now bases) }
    ensures small { IfOk result IsSmallSpanBound }
{
    let round = by_spans.pricing.leaf().round();
    let mut costs = round.free_costs(alloc)?;
    let mut prices = vec![in alloc; 0; round.network().classes() as usize]?;
    let mut value = bases;
    for shipment in 0..round.instance().shipments().len() as u32 {
        match least_cost(alloc, by_spans, shipment, &mut prices, &mut costs)? {
            Some(cost) => value += cost,
            None => return Ok(LeafBound::Empty { shipment }),
        }
    }
    Ok(LeafBound::Value { value })
}

/// The bound of a leaf under prices by spans: what the trucks of its forced chains cost, where
/// forced classes are paid whole, and the least cost of each shipment's allowed walks by the leaf's
/// heads, less the charges of the spans that are charged, once each, and at least 0; or that the leaf
/// is empty by these heads, with the first shipment that has no allowed walk by them.
///
/// Where spans stand, the head of a class for a shipment is [`Leaf::head`]: it counts that the
/// shipment never leaves before its window for the class's arc begins. Without spans it is the head
/// of the class, so that a walk is an allowed timed walk. A leaf may be empty by its heads and have
/// allowed timed walks.
///
/// A class that isn't forced and for which spans hold is priced by the spans alone, and every other
/// class as [`Leaf::bound`] prices it by the tables and the kind. A span is charged where it holds
/// for a class that isn't forced and is allowed for some shipment.
///
/// Where the spans keep the money rule and the set rule, as [`check_spans`](crate::check_spans) and
/// [`check_charges`](crate::check_charges) find, by these windows and by first points that are all
/// points of the leaf's network, the scale times the cost of each plan of the leaf is at least the
/// value, over every denominator, and an empty leaf has no plan. The value counts parts of a unit
/// of money; it is at most 65,537 times the scale times what all shipments cost that each go over
/// every arc alone, and 2^125, so it's below 2^128.
///
/// The tables are in order and keep the price rule, and a kind by a table names one of them; the
/// spans are in order, of arcs and shipments that exist, and their weights come together to less
/// than [`MOST_SPAN_WEIGHT`](crate::MOST_SPAN_WEIGHT). `NoMemory` only where no memory is found.
/// One search over the points for each shipment, where spans stand over a graph of its own, and
/// beside it time that grows with the classes and with the classes of the spans.
pub fn span_bound(
    alloc: Global,
    leaf: &Leaf,
    tables: &[Table],
    spans: &[Span],
    kind: Kind,
    forced: bool,
) -> Result<LeafBound, NoMemory>
    requires tables { AreTables leaf.now.setting.problem tables.now }
    requires kind { HasKind tables.now kind }
    requires spans { AreSpans leaf.now.setting.problem spans.now }
    ensures exact { IfOk result (IsSpanBoundOf leaf.now.setting.problem (windows_in leaf.now.setting.windows)
        (points_in leaf.now.setting.network) leaf.now.sides tables.now spans.now kind forced) }
    ensures plans { (first : ℕ → List ℕ) → AreAmong leaf.now.setting.problem first (points_in leaf.now.setting.network) →
        KeepSpanRules leaf.now.setting.problem (windows_in leaf.now.setting.windows) first spans.now →
        IfOk result (BoundsPlans leaf.now.setting.problem (windows_in leaf.now.setting.windows) leaf.now.sides) }
    ensures small { IfOk result IsSmallSpanBound }
{
    let pricing = leaf.pricing(alloc, tables, kind, forced)?;
    let row = spanned_row(alloc, &pricing, spans)?;
    let by_spans = SpanPricing {
        pricing: &pricing,
        spans,
        row: &row,
    };
    let found = value_before_charges(alloc, &by_spans, bases(&pricing))?;
    Ok(match found {
        LeafBound::Value { value } => LeafBound::Value {
            value: after_charges(&pricing, spans, value),
        },
        LeafBound::Empty { shipment } => LeafBound::Empty { shipment },
    })
}
