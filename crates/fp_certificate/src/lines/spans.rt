//! Lines `span,FROM,TO,POINT,UNTIL,MONEY,CHARGE`, each followed by its weights and then its groups.
ghost use Rattle.std.specs.Prelude.{◌≡◌, ◌<◌, length, OnOk, Some, None, MatchResult};
ghost use Rattle.fp_records_fields.specs.Findings.{IsFirstFault, first_code};
ghost use Rattle.fp_certificate.specs.Codes.{code_of};
ghost use Rattle.fp_certificate.specs.Tables.{span_faults, span_in, with_span};

use crate::drafts::Draft;
use crate::lines::faults::LineFault;
use crate::lines::fields::{departure_at, end_at, figure_at, have_numbers};
use crate::lines::sections::Section;
use crate::open_gifts::has_gift;
use fp_prices_spans::Span;
use fp_records::Record;
use fp_records_fields::fields::has_fields;
use fp_records_fields::{Lookup, RecordError};

// The span of a line, which has neither weights nor groups yet, or the first of the line's faults.
fn span_of(lookup: &Lookup<'_>, draft: &Draft, line: &Record) -> Result<Span, LineFault>
    ensures faults { MatchResult result
        (λ span. (first_code (span_faults lookup.now draft.now line.now) ≡ None) × (span ≡ span_in lookup.now line.now))
        (λ fault. first_code (span_faults lookup.now draft.now line.now) ≡ Some (code_of fault)) }
    ensures table { OnOk result (0 < length draft.now.certificate.spans) }
{
    if !has_fields(line, 7) {
        return Err(LineFault::Fields);
    }
    if !have_numbers(line, 3, 4) || !have_numbers(line, 5, 6) {
        return Err(LineFault::Digits);
    }
    if draft.is_misplaced(Section::Tables)
        || draft.certificate.spans.is_empty()
        || has_gift(&draft.certificate.gifts)
    {
        return Err(LineFault::Order);
    }
    let (arc, point) = departure_at(lookup, line)?;
    let Some(until) = end_at(line, 3, 4, point) else {
        return Err(LineFault::Range);
    };
    let Some(money) = figure_at(line, 5) else {
        return Err(LineFault::Range);
    };
    let Some(charge) = figure_at(line, 6) else {
        return Err(LineFault::Range);
    };
    Ok(Span {
        arc,
        point,
        until,
        money,
        charge,
        weights: Vec::new(draft.allocator()),
        groups: Vec::new(draft.allocator()),
    })
}

/// Adds the span of a line to those of the last table, or tells the first of the line's faults.
pub fn read_span(
    lookup: &Lookup<'_>,
    draft: &mut Draft,
    line: &Record,
) -> Result<(), RecordError<LineFault>>
    ensures { MatchResult result
        (λ _. (first_code (span_faults lookup.now draft.old line.now) ≡ None)
        × (draft.new ≡ with_span draft.old (span_in lookup.now line.now)))
        (λ e. IsFirstFault code_of e (first_code (span_faults lookup.now draft.old line.now))) }
{
    let span = span_of(lookup, draft, line)?;
    draft.add_span(span)?;
    Ok(())
}
