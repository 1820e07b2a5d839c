//! The last of the lists of spans that are read, and its last span: what comes next is theirs.
ghost use Rattle.std.specs.Prelude.{◌≡◌, ◌<◌, length, OnOk, true};
ghost use Rattle.fp_certificate.specs.Tables.{and_last_span_weight, and_span, and_span_weight, has_span, with_last};

use crate::NoMemory;
use fp_prices::Weight;
use fp_prices_spans::{Span, TableSpans};

/// Whether a span stands in the last table.
pub fn has_span(spans: &[TableSpans]) -> bool
    ensures { result ≡ has_span spans.now }
{
    match spans.last() {
        Some(beside) => !beside.spans.is_empty(),
        None => false,
    }
}

/// Adds a span to the last list of spans. The only error is `NoMemory`.
pub fn push_span(spans: &mut [TableSpans], span: Span) -> Result<(), NoMemory>
    requires { 0 < length spans.old }
    ensures { OnOk result (spans.new ≡ with_last (and_span span) spans.old) }
{
    let last = spans.len() - 1;
    let beside = &mut spans[last];
    beside.spans.push(span)?;
    Ok(())
}

// Adds a weight to the last of some spans. The only error is `NoMemory`.
fn push_to_spans(spans: &mut [Span], weight: Weight) -> Result<(), NoMemory>
    requires { 0 < length spans.old }
    ensures { OnOk result (spans.new ≡ with_last (and_span_weight weight) spans.old) }
{
    let last = spans.len() - 1;
    let span = &mut spans[last];
    span.weights.push(weight)?;
    Ok(())
}

// Adds a weight to the last span beside a table. The only error is `NoMemory`.
fn push_beside(beside: &mut TableSpans, weight: Weight) -> Result<(), NoMemory>
    requires { 0 < length beside.old }
    ensures { OnOk result (beside.new ≡ with_last (and_span_weight weight) beside.old) }
{
    push_to_spans(&mut beside.spans, weight)
}

/// Adds a weight to the last span of the last table. The only error is `NoMemory`.
pub fn push_span_weight(spans: &mut [TableSpans], weight: Weight) -> Result<(), NoMemory>
    requires { has_span spans.old ≡ true }
    ensures { OnOk result (spans.new ≡ and_last_span_weight weight spans.old) }
{
    let last = spans.len() - 1;
    push_beside(&mut spans[last], weight)
}
