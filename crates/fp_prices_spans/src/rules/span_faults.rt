//! Which rule a list of spans breaks.

/// The first rule that a list of spans breaks: `Order` where the spans, or the weights or the
/// moments of one of them, don't ascend; otherwise `Weights` where the weights of all spans come
/// together to [`MOST_SPAN_WEIGHT`](crate::MOST_SPAN_WEIGHT) or more; and otherwise `Money` with
/// the number, from 0, of the first span at whose point the money of the spans that hold there is
/// above the cost of a truck.
#[derive(Clone, Copy, Debug, PartialEq, Eq)]
pub enum SpanFault {
    Order,
    Weights,
    Money(u32),
}
