//! What shipments cost at a leaf under prices by spans.
ghost use Rattle.std.specs.Prelude.{ℕ, ◌≡◌, ◌*◌, ◌<◌, ◌≤◌, ◌^◌, All, IfOk, IfSome, None, if◌then◌else◌, length, slice_index_or};
ghost use Rattle.std.specs.Option.{option_map};
ghost use Rattle.fp_model.specs.Problem.{IsValid};
ghost use Rattle.fp_labels.specs.Labels.{IsSmallFor};
ghost use Rattle.fp_timenodes.specs.declared.places.TheConstants.{MOST_POINTS};
ghost use Rattle.fp_longestarcs.specs.Networks.{class_count, point_count};
ghost use Rattle.fp_longestarcs.specs.Whole.{IsWholeNetwork};
ghost use Rattle.fp_allowed.specs.Bits.{bit_of};
ghost use Rattle.fp_prices.specs.ClassCosts.{IsFree};
ghost use Rattle.fp_prices.specs.PointGraphs.{AreOriginLabelsBy};
ghost use Rattle.fp_prices.specs.Points.{edges_of};
ghost use Rattle.fp_prices_spans.specs.declared.spans.TheConstants.{MOST_SPAN_WEIGHT};
ghost use Rattle.fp_prices_spans.specs.declared.ways.TheConstants.{MOST_WAYS};
ghost use Rattle.fp_prices_spans.specs.SpanCosts.{AreSpanCostsOf, IsLeastBySpans, IsSmallBySpans, cost_at, heads_at, ways_at};
ghost use Rattle.fp_prices_spans.specs.SpanPricings.{IsSpanPricing};
ghost use Rattle.fp_prices_spans.specs.TaggedEdges.{IsDistanceVia};

use crate::NoMemory;
use crate::spans::Span;
use crate::values::span_prices::fill_prices;
use crate::ways::{arc_tags, leaf_ways};
use fp_labels::{Labels, distances, tagged_distance};
use fp_longestarcs::Network;
use fp_model::Instance;
use fp_prices::LeafPricing;
use fp_rows::Row;
use std::alloc::Global;

/// The prices of a leaf by spans, with a row that tells which classes are priced by the spans.
#[derive(Clone, Copy)]
pub struct SpanPricing<'a> {
    pub pricing: &'a LeafPricing<'a>,
    pub spans: &'a [Span],
    pub row: &'a Row,
}

// What a class costs a shipment, where these are the prices of the classes: its price and the flow.
fn class_cost(
    instance: &Instance,
    network: &Network,
    prices: &[u128],
    shipment: u32,
    class: u32,
) -> u128
    requires whole { IsWholeNetwork instance.now network.now }
    requires shipment { shipment < length instance.now.shipments }
    requires class { class < class_count network.now }
    requires long { length prices.now ≡ class_count network.now }
    requires small { All (λ price. price < MOST_SPAN_WEIGHT) prices.now }
    ensures { result ≡ cost_at instance.now network.now prices.now shipment class }
{
    let arc = instance.arc(network.of_class(class).0);
    let size = instance.shipment(shipment).size;
    let flow = u128::from(instance.scale()) * u128::from(arc.freight) * u128::from(size);
    prices[class as usize] + flow
}

// Another cost, where there is a cost.
fn replaced(cost: Option<u128>, other: u128) -> Option<u128>
    ensures { result ≡ option_map (λ _. other) cost }
{
    match cost {
        Some(_) => Some(other),
        None => None,
    }
}

// Puts in what the classes of a row cost a shipment, where these are their prices and they have
// costs. Other entries stay.
fn put_in(
    instance: &Instance,
    network: &Network,
    row: &Row,
    prices: &[u128],
    shipment: u32,
    costs: &mut [Option<u128>],
)
    requires whole { IsWholeNetwork instance.now network.now }
    requires shipment { shipment < length instance.now.shipments }
    requires row { length row.now ≡ class_count network.now }
    requires long { length prices.now ≡ class_count network.now }
    requires small { All (λ price. price < MOST_SPAN_WEIGHT) prices.now }
    requires room { class_count network.now ≤ length costs.old }
    ensures { (n : ℕ) → slice_index_or costs.new n None
        ≡ (if bit_of row.now n then option_map (λ _. cost_at instance.now network.now prices.now shipment n) (slice_index_or costs.old n None)
        else slice_index_or costs.old n None) }
{
    let mut next = 0;
    while let Some(class) = row.first_from(next) {
        let cost = class_cost(instance, network, prices, shipment, class);
        costs[class as usize] = replaced(costs[class as usize], cost);
        next = class + 1;
    }
}

/// Puts in, for each class by its number, what it costs the shipment under prices by spans, and
/// `None` where it isn't allowed for the shipment. Entries past the classes stay. What the shipment
/// pays for each class by the spans is put into `prices`. There is room for one of each for every
/// class. Takes no memory.
pub fn fill_costs(
    by_spans: &SpanPricing,
    shipment: u32,
    prices: &mut [u128],
    costs: &mut [Option<u128>],
)
    requires by_spans { IsSpanPricing by_spans.now }
    requires shipment { shipment < length by_spans.now.pricing.now.leaf.setting.problem.shipments }
    requires long { length prices.old ≡ class_count by_spans.now.pricing.now.leaf.setting.network }
    requires room { class_count by_spans.now.pricing.now.leaf.setting.network ≤ length costs.old }
    ensures valid { IsValid by_spans.now.pricing.now.leaf.setting.problem }
    ensures whole { IsWholeNetwork by_spans.now.pricing.now.leaf.setting.problem by_spans.now.pricing.now.leaf.setting.network }
    ensures few { point_count by_spans.now.pricing.now.leaf.setting.network ≤ MOST_POINTS }
    ensures costs { AreSpanCostsOf by_spans.now.pricing.now by_spans.now.spans.now shipment costs.new }
    ensures others { (n : ℕ) → class_count by_spans.now.pricing.now.leaf.setting.network ≤ n → slice_index_or costs.new n None ≡ slice_index_or costs.old n None }
{
    let round = by_spans.pricing.leaf().round();
    by_spans.pricing.fill_costs(shipment, costs);
    fill_prices(
        round.instance(),
        round.network(),
        by_spans.spans,
        shipment,
        prices,
    );
    put_in(
        round.instance(),
        round.network(),
        by_spans.row,
        prices,
        shipment,
        costs,
    );
}

// The least costs and walks of a shipment from its origin by the leaf's heads, where these are the
// costs of the edges: over the round's graph where no span stands, so that there the heads are those
// of the classes.
fn labels(
    alloc: Global,
    by_spans: &SpanPricing,
    shipment: u32,
    costs: &[Option<u128>],
) -> Result<Labels, NoMemory>
    requires shipment { shipment < length by_spans.now.pricing.now.leaf.setting.problem.shipments }
    requires edges { length costs.now ≡ length (edges_of by_spans.now.pricing.now.leaf.setting.problem by_spans.now.pricing.now.leaf.setting.network) }
    requires small { All (IsSmallFor (point_count by_spans.now.pricing.now.leaf.setting.network)) costs.now }
    ensures { IfOk result (λ labels. AreOriginLabelsBy by_spans.now.pricing.now.leaf.setting.problem by_spans.now.pricing.now.leaf.setting.network
        (heads_at by_spans.now.pricing.now.leaf by_spans.now.spans.now shipment) costs.now shipment labels) }
{
    let leaf = by_spans.pricing.leaf();
    let round = leaf.round();
    let start = round.start(shipment);
    if by_spans.spans.is_empty() {
        return distances(alloc, round.graph(), costs, start);
    }
    let graph = leaf.graph(alloc, shipment)?;
    distances(alloc, &graph, costs, start)
}

// The arcs by which the walks of a shipment go: none where no span stands.
fn ways(alloc: Global, by_spans: &SpanPricing, shipment: u32) -> Result<Vec<u32>, NoMemory>
    ensures { IfOk result (λ ways. ways.items ≡ ways_at by_spans.now.pricing.now.leaf by_spans.now.spans.now shipment) }
{
    if by_spans.spans.is_empty() {
        return Ok(Vec::new(alloc));
    }
    leaf_ways(alloc, by_spans.pricing.leaf(), shipment)
}

// The least cost of the walks of a shipment by the leaf's heads that go by arcs, where these are the
// costs of the edges. Spans stand at the leaf.
fn least_via(
    alloc: Global,
    by_spans: &SpanPricing,
    shipment: u32,
    ways: &[u32],
    costs: &[Option<u128>],
) -> Result<Option<u128>, NoMemory>
    requires valid { IsValid by_spans.now.pricing.now.leaf.setting.problem }
    requires whole { IsWholeNetwork by_spans.now.pricing.now.leaf.setting.problem by_spans.now.pricing.now.leaf.setting.network }
    requires points { point_count by_spans.now.pricing.now.leaf.setting.network ≤ MOST_POINTS }
    requires shipment { shipment < length by_spans.now.pricing.now.leaf.setting.problem.shipments }
    requires edges { length costs.now ≡ length (edges_of by_spans.now.pricing.now.leaf.setting.problem by_spans.now.pricing.now.leaf.setting.network) }
    requires few { length ways.now ≤ MOST_WAYS }
    requires small { All (IsSmallFor (2 ^ length ways.now * point_count by_spans.now.pricing.now.leaf.setting.network)) costs.now }
    ensures exact { IfOk result (IsDistanceVia by_spans.now.pricing.now.leaf ways.now shipment costs.now) }
    ensures small { IfOk result (λ cost. (most : ℕ) → All (λ o. IfSome o (λ n. n ≤ most)) costs.now →
        IfSome cost (λ n. n ≤ 2 ^ length ways.now * point_count by_spans.now.pricing.now.leaf.setting.network * most)) }
{
    let leaf = by_spans.pricing.leaf();
    let round = leaf.round();
    let graph = leaf.graph(alloc, shipment)?;
    let tags = arc_tags(alloc, round.network(), costs.len())?;
    tagged_distance(
        alloc,
        &graph,
        costs,
        &tags,
        ways,
        round.start(shipment),
        round.end(shipment),
    )
}

/// The least cost of a shipment under prices by spans, `None` exactly where it has no allowed walk by
/// the leaf's heads and ways. Prices and costs are put in anew. `NoMemory` only where no memory is
/// found. One search over the points, which are doubled for each way, and where spans stand one graph
/// of them.
pub fn least_cost(
    alloc: Global,
    by_spans: &SpanPricing,
    shipment: u32,
    prices: &mut [u128],
    costs: &mut [Option<u128>],
) -> Result<Option<u128>, NoMemory>
    requires by_spans { IsSpanPricing by_spans.now }
    requires shipment { shipment < length by_spans.now.pricing.now.leaf.setting.problem.shipments }
    requires long { length prices.old ≡ class_count by_spans.now.pricing.now.leaf.setting.network }
    requires edges { length costs.old ≡ length (edges_of by_spans.now.pricing.now.leaf.setting.problem by_spans.now.pricing.now.leaf.setting.network) }
    requires free { IsFree (class_count by_spans.now.pricing.now.leaf.setting.network) costs.old }
    ensures free { IsFree (class_count by_spans.now.pricing.now.leaf.setting.network) costs.new }
    ensures exact { IfOk result (IsLeastBySpans by_spans.now.pricing.now by_spans.now.spans.now shipment) }
    ensures small { IfOk result (IsSmallBySpans by_spans.now.pricing.now.leaf.setting.problem by_spans.now.spans.now shipment) }
{
    fill_costs(by_spans, shipment, prices, costs);
    let ways = ways(alloc, by_spans, shipment)?;
    if !ways.is_empty() {
        return least_via(alloc, by_spans, shipment, &ways, costs);
    }
    let round = by_spans.pricing.leaf().round();
    let found = labels(alloc, by_spans, shipment, costs)?;
    Ok(found.to(round.end(shipment)))
}
