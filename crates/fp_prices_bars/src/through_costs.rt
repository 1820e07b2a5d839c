//! What it costs shipments at a leaf under prices by spans to go by each class.
ghost use Rattle.std.specs.Prelude.{◌≡◌, ◌*◌, ◌<◌, ◌≤◌, All, IfOk, length, true};
ghost use Rattle.fp_labels.specs.Labels.{IsSmallFor};
ghost use Rattle.fp_longestarcs.specs.Networks.{class_count, point_count};
ghost use Rattle.fp_prices.specs.ClassCosts.{IsFree};
ghost use Rattle.fp_prices.specs.Points.{edges_of};
ghost use Rattle.fp_prices_spans.specs.SpanCosts.{heads_at};
ghost use Rattle.fp_prices_spans.specs.SpanPricings.{IsSpanPricing};
ghost use Rattle.fp_prices_bars.specs.ThroughCosts.{AreThroughBySpans, AreThroughEdges, IsSmallThrough};
ghost use Rattle.fp_prices_spans.specs.Ways.{ways_fit};

use crate::NoMemory;
use fp_labels::through_edges;
use fp_prices_spans::{SpanPricing, fill_costs};
use std::alloc::Global;

// For each edge the least cost of the walks of a shipment by the leaf's heads that have it, where
// these are the costs of the edges: over the round's graph where no span stands, so that there the
// heads are those of the classes.
fn costs_by_edges(
    alloc: Global,
    by_spans: &SpanPricing,
    shipment: u32,
    costs: &[Option<u128>],
) -> Result<Vec<Option<u128>>, NoMemory>
    requires shipment { shipment < length by_spans.now.pricing.now.leaf.setting.problem.shipments }
    requires edges { length costs.now ≡ length (edges_of by_spans.now.pricing.now.leaf.setting.problem by_spans.now.pricing.now.leaf.setting.network) }
    requires small { All (IsSmallFor (2 * point_count by_spans.now.pricing.now.leaf.setting.network)) costs.now }
    ensures { IfOk result (λ through. AreThroughEdges by_spans.now.pricing.now.leaf.setting.problem by_spans.now.pricing.now.leaf.setting.network
        (heads_at by_spans.now.pricing.now.leaf by_spans.now.spans.now shipment) shipment costs.now through.items) }
{
    let leaf = by_spans.pricing.leaf();
    let round = leaf.round();
    let start = round.start(shipment);
    let end = round.end(shipment);
    if by_spans.spans.is_empty() {
        return through_edges(alloc, round.graph(), costs, start, end);
    }
    let graph = leaf.graph(alloc, shipment)?;
    through_edges(alloc, &graph, costs, start, end)
}

/// For each class, by its number, the least cost of a shipment's allowed walks by the leaf's heads
/// that have the class, under prices by spans; `None` exactly where no such walk has it. The walks
/// need not go by the leaf's ways. Entries past the classes are of no use.
///
/// Prices and costs are put in anew. `NoMemory` only where no memory is found. Two searches over the
/// points, and where spans stand one graph of them.
pub(crate) fn through_costs(
    alloc: Global,
    by_spans: &SpanPricing,
    shipment: u32,
    prices: &mut [u128],
    costs: &mut [Option<u128>],
) -> Result<Vec<Option<u128>>, NoMemory>
    requires by_spans { IsSpanPricing by_spans.now }
    requires fits { ways_fit by_spans.now.pricing.now.leaf.setting.problem ≡ true }
    requires shipment { shipment < length by_spans.now.pricing.now.leaf.setting.problem.shipments }
    requires long { length prices.old ≡ class_count by_spans.now.pricing.now.leaf.setting.network }
    requires edges { length costs.old ≡ length (edges_of by_spans.now.pricing.now.leaf.setting.problem by_spans.now.pricing.now.leaf.setting.network) }
    requires free { IsFree (class_count by_spans.now.pricing.now.leaf.setting.network) costs.old }
    ensures free { IsFree (class_count by_spans.now.pricing.now.leaf.setting.network) costs.new }
    ensures len { IfOk result (λ through. class_count by_spans.now.pricing.now.leaf.setting.network ≤ length through.items) }
    ensures exact { IfOk result (λ through. AreThroughBySpans by_spans.now.pricing.now by_spans.now.spans.now shipment through.items) }
    ensures small { IfOk result (λ through. All IsSmallThrough through.items) }
{
    fill_costs(by_spans, shipment, prices, costs);
    costs_by_edges(alloc, by_spans, shipment, costs)
}
