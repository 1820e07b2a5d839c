//! The groups of the last span that is read: what comes next is theirs.
ghost use Rattle.std.specs.Prelude.{◌≡◌, ◌<◌, length, OnOk, true};
ghost use Rattle.fp_certificate.specs.Tables.{and_group, and_last_group, has_group, has_span, is_grouped, last_is, with_last};

use crate::NoMemory;
use fp_prices_spans::{Span, TableSpans};

// Whether the last of some spans has a group.
fn ends_grouped(spans: &[Span]) -> bool
    ensures { result ≡ last_is is_grouped spans.now }
{
    match spans.last() {
        Some(span) => !span.groups.is_empty(),
        None => false,
    }
}

/// Whether the last span of the last table has a group.
pub fn has_group(spans: &[TableSpans]) -> bool
    ensures { result ≡ has_group spans.now }
{
    match spans.last() {
        Some(beside) => ends_grouped(&beside.spans),
        None => false,
    }
}

// Adds a group to the last of some spans. The only error is `NoMemory`.
fn push_to_last(spans: &mut [Span], moment: u32) -> Result<(), NoMemory>
    requires { 0 < length spans.old }
    ensures { OnOk result (spans.new ≡ with_last (and_group moment) spans.old) }
{
    let last = spans.len() - 1;
    let span = &mut spans[last];
    span.groups.push(moment)?;
    Ok(())
}

// Adds a group to the last span beside a table. The only error is `NoMemory`.
fn push_group_beside(beside: &mut TableSpans, moment: u32) -> Result<(), NoMemory>
    requires { 0 < length beside.old }
    ensures { OnOk result (beside.new ≡ with_last (and_group moment) beside.old) }
{
    push_to_last(&mut beside.spans, moment)
}

/// Adds a group, which begins at the moment, to the last span of the last table. The only error is
/// `NoMemory`.
pub fn push_group(spans: &mut [TableSpans], moment: u32) -> Result<(), NoMemory>
    requires { has_span spans.old ≡ true }
    ensures { OnOk result (spans.new ≡ and_last_group moment spans.old) }
{
    let last = spans.len() - 1;
    push_group_beside(&mut spans[last], moment)
}
