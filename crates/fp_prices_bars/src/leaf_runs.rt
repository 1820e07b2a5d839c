//! The bars of a leaf under prices by spans.
ghost use Rattle.std.specs.Prelude.{◌≤◌, ◌^◌, ◌≡◌, IfOk, true};
ghost use Rattle.fp_flatnet.specs.Tables.{windows_in};
ghost use Rattle.fp_longestarcs.specs.Networks.{points_in};
ghost use Rattle.fp_prices.specs.Tables.{AreTables, HasKind};
ghost use Rattle.fp_prices_spans.specs.SpanBars.{AreSpanBars};
ghost use Rattle.fp_prices_spans.specs.SpanLists.{AreSpans};
ghost use Rattle.fp_prices_spans.specs.SpanPricings.{IsSpanPricing};
ghost use Rattle.fp_prices_spans.specs.Ways.{ways_fit as fit_ways};
ghost use Rattle.fp_prices_bars.specs.LeafValues.{IsLeafValueOf};
ghost use Rattle.fp_prices_bars.specs.Limits.{ReachesLimit};

use crate::NoMemory;
use crate::bar_runs::add_classes;
use crate::bar_tests::BarTest;
use crate::leaf_values::{LeafValue, leaf_value};
use crate::limits::BarLimit;
use crate::through_costs::through_costs;
use fp_prices::{Kind, Leaf, Table};
use fp_prices_spans::{Span, SpanPricing, least_cost, spanned_row, ways_fit};
use fp_tree::Side;
use std::alloc::Global;

// The bars of a leaf that isn't empty, of this value.
fn bars_over(
    alloc: Global,
    by_spans: &SpanPricing,
    value: LeafValue,
    limit: BarLimit,
) -> Result<Vec<Side>, NoMemory>
    requires by_spans { IsSpanPricing by_spans.now }
    requires fits { fit_ways by_spans.now.pricing.now.leaf.setting.problem ≡ true }
    requires value { IsLeafValueOf by_spans.now.pricing.now by_spans.now.spans.now value }
    requires small { limit.more ≤ 2 ^ 122 }
    ensures { IfOk result (λ bars. AreSpanBars by_spans.now.pricing.now.leaf.setting.problem (windows_in by_spans.now.pricing.now.leaf.setting.windows)
        (points_in by_spans.now.pricing.now.leaf.setting.network) by_spans.now.pricing.now.leaf.sides by_spans.now.pricing.now.tables by_spans.now.spans.now
        by_spans.now.pricing.now.kind by_spans.now.pricing.now.forced (ReachesLimit limit by_spans.now.pricing.now.leaf.setting.problem.scale) bars.items) }
{
    let round = by_spans.pricing.leaf().round();
    let mut costs = round.free_costs(alloc)?;
    let mut prices = vec![in alloc; 0; round.network().classes() as usize]?;
    let mut bars = Vec::new(alloc);
    for shipment in 0..round.instance().shipments().len() as u32 {
        let Some(own) = least_cost(alloc, by_spans, shipment, &mut prices, &mut costs)? else {
            return Ok(Vec::new(alloc));
        };
        let through = through_costs(alloc, by_spans, shipment, &mut prices, &mut costs)?;
        let test = BarTest {
            rest: value.total - own,
            charges: value.charges,
            scale: round.instance().scale(),
            limit,
        };
        add_classes(
            round.instance(),
            round.network(),
            shipment,
            by_spans.pricing.leaf().row(shipment),
            &through,
            &test,
            &mut bars,
        )?;
    }
    Ok(bars)
}

/// The classes that are barred at a leaf under prices by spans, as sides that bar runs of them: for each
/// shipment those that are allowed for it and that no walk of it has by the leaf's heads, or where the
/// leaf's value with the shipment made to go by the class reaches the limit.
///
/// Made to go by a class, a shipment costs the least cost of its walks that have the class, in the place
/// of its own least cost; these walks need not go by the arcs that sides ask for. Nothing is barred where
/// the leaf is empty, or where sums of prices over sixteen times as many points don't fit into 128 bits.
/// Neighbouring classes that are barred for a shipment make one run.
///
/// The conditions are those of [`span_bound`](fp_prices_spans::span_bound), and `more` is at most 2^122.
/// `NoMemory` only where no memory is found. Four searches over the points for each shipment.
pub fn span_bars(
    alloc: Global,
    leaf: &Leaf,
    tables: &[Table],
    spans: &[Span],
    kind: Kind,
    forced: bool,
    limit: BarLimit,
) -> Result<Vec<Side>, NoMemory>
    requires tables { AreTables leaf.now.setting.problem tables.now }
    requires kind { HasKind tables.now kind }
    requires spans { AreSpans leaf.now.setting.problem spans.now }
    requires small { limit.more ≤ 2 ^ 122 }
    ensures { IfOk result (λ bars. AreSpanBars leaf.now.setting.problem (windows_in leaf.now.setting.windows)
        (points_in leaf.now.setting.network) leaf.now.sides tables.now spans.now kind forced
        (ReachesLimit limit leaf.now.setting.problem.scale) bars.items) }
{
    if !ways_fit(leaf.round().instance()) {
        return Ok(Vec::new(alloc));
    }
    let pricing = leaf.pricing(alloc, tables, kind, forced)?;
    let row = spanned_row(alloc, &pricing, spans)?;
    let by_spans = SpanPricing {
        pricing: &pricing,
        spans,
        row: &row,
    };
    match leaf_value(alloc, &by_spans)? {
        Some(value) => bars_over(alloc, &by_spans, value, limit),
        None => Ok(Vec::new(alloc)),
    }
}
