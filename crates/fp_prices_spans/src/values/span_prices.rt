//! What a shipment pays for each class by the spans that hold for it.
ghost use Rattle.std.specs.Prelude.{ℕ, ◌≡◌, ◌+◌, ◌<◌, ◌≤◌, ◌^◌, All, if◌then◌else◌, length, slice_index};
ghost use Rattle.fp_longestarcs.specs.Networks.{class_count};
ghost use Rattle.fp_longestarcs.specs.Whole.{IsWholeNetwork};
ghost use Rattle.fp_prices.specs.Prices.{weight_in};
ghost use Rattle.fp_prices_spans.specs.ClassRanges.{ArePricesBySpans, in_range};
ghost use Rattle.fp_prices_spans.specs.SpanLists.{AreSpans};
ghost use Rattle.fp_prices_spans.specs.SpanRules.{WeightsAscend};

use crate::spans::Span;
use crate::values::class_ranges::{ClassRange, range_of};
use fp_longestarcs::Network;
use fp_model::Instance;
use fp_prices::Weight;

// The weight of a shipment, where weights ascend by shipment, and 0 where it has none.
fn weight_of(weights: &[Weight], shipment: u32) -> u128
    requires { WeightsAscend weights.now }
    ensures { result ≡ weight_in weights.now shipment }
{
    let place = weights.partition_point(|weight| weight.shipment < shipment);
    if place < weights.len() && weights[place].shipment == shipment {
        weights[place].w
    } else {
        0
    }
}

// Adds a weight to the sums of the classes of a range.
fn add_weight(sums: &mut [u128], range: ClassRange, weight: u128)
    requires order { range.first ≤ range.end }
    requires within { range.end ≤ length sums.old }
    requires room { All (λ sum. sum + weight < 2 ^ 128) sums.old }
    ensures sums { (n : ℕ) → n < length sums.old → slice_index sums.new n ≡ slice_index sums.old n + (if in_range range n then weight else 0) }
{
    for class in range.first..range.end {
        sums[class as usize] += weight;
    }
}

/// Puts in, for each class by its number, what a shipment pays for it by the spans that hold for it.
/// Takes no memory, and time that grows with the classes, the spans, and for each span in which the
/// shipment has a weight with the classes of the span.
pub(crate) fn fill_prices(
    instance: &Instance,
    network: &Network,
    spans: &[Span],
    shipment: u32,
    sums: &mut [u128],
)
    requires whole { IsWholeNetwork instance.now network.now }
    requires spans { AreSpans instance.now spans.now }
    requires long { length sums.old ≡ class_count network.now }
    ensures { ArePricesBySpans network.now spans.now shipment sums.new }
{
    sums.fill(0);
    for span in spans {
        let weight = weight_of(&span.weights, shipment);
        if weight > 0 {
            add_weight(sums, range_of(instance, network, span), weight);
        }
    }
}
