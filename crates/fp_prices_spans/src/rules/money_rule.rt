//! Tests spans: their order, their weights, and the money rule.
ghost use Rattle.std.specs.Prelude.{◌≡◌, ◌-◌, ◌*◌, ◌<◌, ◌≤◌, ◌^◌, ◌↔◌, All, AllPairs, IfOk, IsTrue, MatchOption, length};
ghost use Rattle.fp_model.specs.Problem.{arc_at};
ghost use Rattle.fp_prices_spans.specs.HeldMoney.{BeginTogether, IsFirstBeside};
ghost use Rattle.fp_prices_spans.specs.Spans.{ClassSpan};
ghost use Rattle.fp_prices_spans.specs.SpanRules.{KeepsMoneyRule};
ghost use Rattle.fp_prices_spans.specs.SpanLists.{AreCountableSpans, IsFirstOver, IsSpanFault, IsSpanList, StandsBefore};

use crate::NoMemory;
use crate::rules::held_money::HeldMoney;
use crate::rules::span_faults::SpanFault;
use crate::rules::span_order::are_in_order;
use crate::rules::weight_rule::are_light;
use crate::spans::Span;
use fp_model::Instance;
use std::alloc::Global;

// Whether two spans begin at one class.
fn begin_together(first: &Span, second: &Span) -> bool
    ensures { IsTrue result ↔ BeginTogether first.now second.now }
{
    first.arc == second.arc && first.point == second.point
}

// The number of the first of the spans that begin together with the one at a number, where that of
// the spans before it is known.
fn first_beside(spans: &[Span], first: usize, number: usize) -> usize
    requires inside { number < length spans.now }
    requires before { first ≤ number }
    ensures { IsFirstBeside spans.now first number result }
{
    if begin_together(&spans[first], &spans[number]) {
        first
    } else {
        number
    }
}

// The most money that spans of an arc may have at a class.
fn most_money(instance: &Instance, arc: u32) -> u128
    requires { arc < length instance.now.arcs }
    ensures { result ≡ instance.now.scale * (arc_at instance.now arc).truck }
{
    u128::from(instance.scale()) * u128::from(instance.arc(arc).truck)
}

// The number of the first span, of spans in order, that breaks the money rule. The spans are gone
// through by the classes at which they begin, with the money of those that hold there: at no other
// class is there more.
fn first_over(alloc: Global, instance: &Instance, spans: &[Span]) -> Result<Option<u32>, NoMemory>
    requires ordered { AllPairs StandsBefore spans.now }
    requires few { length spans.now < 2 ^ 32 - 1 }
    requires arcs { All (λ (s : ClassSpan). s.arc < length instance.now.arcs) spans.now }
    ensures { IfOk result (λ over. MatchOption over (All (KeepsMoneyRule instance.now spans.now) spans.now)
        (IsFirstOver instance.now spans.now)) }
{
    let mut held = HeldMoney::new(alloc);
    let mut first = 0;
    for (number, span) in spans.iter().enumerate() {
        held.turn(&spans[first], span);
        first = first_beside(spans, first, number);
        if !held.take(span, most_money(instance, span.arc))? {
            return Ok(Some(first as u32));
        }
    }
    Ok(None)
}

/// The first rule that spans break, `None` exactly where they are in order and light, and keep the
/// money rule: at the point of each span, the spans of its arc that hold there have together at
/// most the scale times the cost of the arc's truck. Then they have no more at any class of the
/// arc.
///
/// In order: the spans ascend strictly by arc, point and until, the weights of each strictly by
/// shipment, and in each its point, the moments at which groups begin and `until` strictly. Light:
/// the weights of all spans come together to less than
/// [`MOST_SPAN_WEIGHT`](crate::MOST_SPAN_WEIGHT). The spans are of arcs that exist, and fewer than
/// 2^32 - 1. The order comes before the weights, these before the money, and of the spans the first
/// one is told that breaks the money rule. Weights and money may be any numbers: no sum of them
/// passes 128 bits. `NoMemory` only where no memory is found. Takes time that grows with the
/// weights, and with the number n of the spans as n log n.
pub fn check_spans(
    alloc: Global,
    instance: &Instance,
    spans: &[Span],
) -> Result<Option<SpanFault>, NoMemory>
    requires { AreCountableSpans instance.now spans.now }
    ensures { IfOk result (λ fault. MatchOption fault (IsSpanList instance.now spans.now)
        (IsSpanFault instance.now spans.now)) }
{
    if !are_in_order(spans) {
        return Ok(Some(SpanFault::Order));
    }
    if !are_light(spans) {
        return Ok(Some(SpanFault::Weights));
    }
    match first_over(alloc, instance, spans)? {
        Some(number) => Ok(Some(SpanFault::Money(number))),
        None => Ok(None),
    }
}
