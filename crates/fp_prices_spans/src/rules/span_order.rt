//! Whether spans are in order.
ghost use Rattle.std.specs.Prelude.{◌<◌, ◌↔◌, All, AllPairs, IsTrue};
ghost use Rattle.fp_base_lists.specs.Order.{Precedes};
ghost use Rattle.fp_prices_spans.specs.Spans.{ClassSpan};
ghost use Rattle.fp_prices_spans.specs.SpanLists.{AreSpansInOrder, AscendBetween, MomentsAscend, StandsBefore};
ghost use Rattle.fp_prices_spans.specs.SpanRules.{WeightsAscend};

use crate::spans::Span;
use fp_prices::Weight;

// Whether weights stand by shipment.
fn weights_ascend(weights: &[Weight]) -> bool
    ensures { IsTrue result ↔ WeightsAscend weights.now }
{
    for place in 1..weights.len() {
        if weights[place - 1].shipment >= weights[place].shipment {
            return false;
        }
    }
    true
}

// Whether one pair of numbers stands before another.
fn precedes(first: (u32, u32), second: (u32, u32)) -> bool
    ensures { IsTrue result ↔ Precedes first.0 first.1 second.0 second.1 }
{
    first.0 < second.0 || (first.0 == second.0 && first.1 < second.1)
}

// Whether one span stands before another.
fn stands_before(first: &Span, second: &Span) -> bool
    ensures { IsTrue result ↔ StandsBefore first.now second.now }
{
    first.arc < second.arc
        || (first.arc == second.arc
            && precedes((first.point, first.until), (second.point, second.until)))
}

// Whether spans stand by arc, then by point, then by where they end.
fn spans_ascend(spans: &[Span]) -> bool
    ensures { IsTrue result ↔ AllPairs StandsBefore spans.now }
{
    for place in 1..spans.len() {
        if !stands_before(&spans[place - 1], &spans[place]) {
            return false;
        }
    }
    true
}

// Whether the weights of each span stand by shipment.
fn span_weights_ascend(spans: &[Span]) -> bool
    ensures { IsTrue result ↔ All (λ (s : ClassSpan). WeightsAscend s.weights) spans.now }
{
    for span in spans {
        if !weights_ascend(span.weights.as_slice()) {
            return false;
        }
    }
    true
}

// Whether moments ascend from one through some to another.
fn ascend_between(from: u32, moments: &[u32], until: u32) -> bool
    ensures { IsTrue result ↔ AscendBetween from moments.now until }
{
    let mut last = from;
    for moment in moments {
        if *moment <= last {
            return false;
        }
        last = *moment;
    }
    last < until
}

// Whether the moments of each span ascend: its point, where further groups begin, and its end.
fn span_moments_ascend(spans: &[Span]) -> bool
    ensures { IsTrue result ↔ All MomentsAscend spans.now }
{
    for span in spans {
        if !ascend_between(span.point, &span.groups, span.until) {
            return false;
        }
    }
    true
}

// Whether spans, their weights and their moments are in order.
pub(crate) fn are_in_order(spans: &[Span]) -> bool
    ensures { IsTrue result ↔ AreSpansInOrder spans.now }
{
    spans_ascend(spans) && span_weights_ascend(spans) && span_moments_ascend(spans)
}
