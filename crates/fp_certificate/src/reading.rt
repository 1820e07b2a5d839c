//! Reads a certificate.
ghost use Rattle.std.specs.Prelude.{◌≡◌, ◌≤◌, ◌+◌, ◌-◌, ◌^◌, ◌<◌, ℕ, List, drop, length, All, Err, IfOk, MatchResult, None, Ok};
ghost use Rattle.fp_prices.specs.Tables.{AreCountable};
ghost use Rattle.fp_prices_spans.specs.Spans.{ClassSpan};
ghost use Rattle.fp_records_fields.specs.Indexes.{entries_of};
ghost use Rattle.fp_records_fields.specs.Findings.{IsFirstFault, first_code};
ghost use Rattle.fp_certificate.specs.Codes.{code_of};
ghost use Rattle.fp_certificate.specs.Outcomes.{IsFirst};
ghost use Rattle.fp_certificate_lines.specs.Ranges.{IsInRange};
ghost use Rattle.fp_certificate.specs.Reading.{certificate_from, certificate_of, faults_of, finished, line_code, nothing_read, with_kind, with_line};

use crate::drafts::Draft;
use crate::faults::CertFault;
use crate::lines::answers::{read_direct, read_infeasible, read_optimal, read_unfinished};
use crate::lines::ends::read_end;
use crate::lines::faults::LineFault;
use crate::lines::gifts::read_gift;
use crate::lines::groups::read_group;
use crate::lines::kinds::{LineKind, kind_of};
use crate::lines::leaves::read_leaf;
use crate::lines::legs::read_leg;
use crate::lines::narrowings::read_narrowing;
use crate::lines::points::read_point;
use crate::lines::scales::read_scale;
use crate::lines::shares::read_share;
use crate::lines::spans::read_span;
use crate::lines::splits::{read_by_arc, read_by_time, read_by_trucks, read_by_way};
use crate::lines::tables::read_table;
use crate::lines::trucks::read_truck;
use crate::lines::units::read_unit;
use crate::lines::weights::read_weight;
use fp_certificate_lines::Certificate;
use fp_model::Instance;
use fp_records::Record;
use fp_records_fields::{Index, Lookup, RecordError};
use std::alloc::Global;

// Adds what a line of a kind gives, or tells the first of the line's faults.
fn read_kind(
    lookup: &Lookup<'_>,
    draft: &mut Draft,
    kind: LineKind,
    line: &Record,
) -> Result<(), RecordError<LineFault>>
    requires { length draft.old.certificate.tables < 2 ^ 32 }
    ensures { MatchResult result
        (λ _. (first_code (faults_of lookup.now draft.old kind line.now) ≡ None) × (draft.new ≡ with_kind lookup.now draft.old kind line.now))
        (λ e. IsFirstFault code_of e (first_code (faults_of lookup.now draft.old kind line.now))) }
{
    match kind {
        LineKind::Direct => read_direct(draft, line),
        LineKind::Optimal => read_optimal(draft, line),
        LineKind::Unfinished => read_unfinished(draft, line),
        LineKind::Infeasible => read_infeasible(lookup, draft, line),
        LineKind::Scale => read_scale(lookup, draft, line),
        LineKind::Unit => read_unit(draft, line),
        LineKind::Leg => read_leg(lookup, draft, line),
        LineKind::Truck => read_truck(lookup, draft, line),
        LineKind::Point => read_point(lookup, draft, line),
        LineKind::Table => read_table(draft, line),
        LineKind::Share => read_share(lookup, draft, line),
        LineKind::Span => read_span(lookup, draft, line),
        LineKind::Weight => read_weight(lookup, draft, line),
        LineKind::Group => read_group(draft, line),
        LineKind::Gift => read_gift(lookup, draft, line),
        LineKind::ByArc => read_by_arc(lookup, draft, line),
        LineKind::ByTime => read_by_time(lookup, draft, line),
        LineKind::ByTrucks => read_by_trucks(lookup, draft, line),
        LineKind::ByWay => read_by_way(lookup, draft, line),
        LineKind::Leaf => read_leaf(draft, line),
        LineKind::Narrow => read_narrowing(draft, line),
        LineKind::End => read_end(draft, line),
    }
}

// Adds what a line gives, or tells the first of the line's faults.
fn read_line(
    lookup: &Lookup<'_>,
    draft: &mut Draft,
    line: &Record,
) -> Result<(), RecordError<LineFault>>
    requires { length draft.old.certificate.tables < 2 ^ 32 }
    ensures { MatchResult result
        (λ _. (line_code lookup.now draft.old line.now ≡ None) × (draft.new ≡ with_line lookup.now draft.old line.now))
        (λ e. IsFirstFault code_of e (line_code lookup.now draft.old line.now)) }
{
    if draft.has_ended() {
        return Err(RecordError::Fault(LineFault::AfterEnd));
    }
    match kind_of(line) {
        Some(kind) => read_kind(lookup, draft, kind, line),
        None => Err(RecordError::Fault(LineFault::Kind)),
    }
}

// What lines give, of which the first has the ordinal `first`, or the first of them with a fault.
fn draft_of(
    alloc: Global,
    lookup: &Lookup<'_>,
    lines: &[Record],
    first: usize,
) -> Result<Draft, CertFault>
    requires { first + length lines.now < 2 ^ 32 }
    ensures { MatchResult result
        (λ d. certificate_from lookup.now nothing_read first lines.now ≡ finished d (first + length lines.now))
        (λ e. IsFirst e (certificate_from lookup.now nothing_read first lines.now)) }
{
    let mut draft = Draft::new(alloc);
    for (place, line) in lines.iter().enumerate() {
        match read_line(lookup, &mut draft, line) {
            Ok(()) => {}
            Err(RecordError::Fault(fault)) => {
                return Err(CertFault::Bad {
                    ordinal: (first + place) as u32,
                    code: fault.code(),
                });
            }
            Err(RecordError::NoMemory) => return Err(CertFault::NoMemory),
        }
    }
    Ok(draft)
}

/// The certificate of an instance that the records from place `from` on give, or the first fault.
///
/// There are fewer than `2^32 - 1` records, and `from` is at most their number. Ordinals count from
/// 1 over all records. The records are the lines that [`fp_certificate_lines::write`] tells of, in
/// that order; legs, trucks, shares, spans, weights, groups and gifts may stand in any order
/// among themselves. A number is one or more ASCII digits, leading zeros allowed. A certificate that was
/// read is in range: times are at most 100,000, a span, a gift and the run
/// of a split by trucks end after their point and at most at 100,001, the number of such a split is at
/// most 4,294,967,295,
/// rounds are at most 4,000, a point's round at least 1, a fastest time at most 10,000,000, a scale
/// is 1 to 1,000,000,000 and fits the instance, a unit is at least 1, all other numbers are at most
/// `2^127 - 1`, and the tables that leaves name exist. Its tables, and the shares and the spans of
/// each, are fewer than `2^32 - 1`.
///
/// `Bad` comes exactly where there is a fault: the first record with one decides ([`CertFault`] has
/// the codes). `NoMemory` comes only where no memory is found.
pub fn read(
    alloc: Global,
    instance: &Instance,
    lines: &[Record],
    from: usize,
) -> Result<Certificate, CertFault>
    requires from { from ≤ length lines.now }
    requires few { length lines.now < 2 ^ 32 - 1 }
    ensures read { IfOk result (λ c. certificate_of instance.now (from + 1) (drop from lines.now) ≡ Ok c) }
    ensures bad { (ordinal code : ℕ) → result ≡ Err (CertFault.Bad ordinal code)
        → certificate_of instance.now (from + 1) (drop from lines.now) ≡ Err (record { ordinal = ordinal; code = code }) }
    ensures range { IfOk result (IsInRange instance.now) }
    ensures countable { IfOk result (λ c. AreCountable instance.now c.tables) }
    ensures few { IfOk result (λ c. All (λ (list : List ClassSpan). length list < 2 ^ 32 - 1) c.spans) }
{
    let index = Index::of(alloc, instance)?;
    read_with_index(alloc, instance, &index, lines, from)
}

/// What [`read`] reads, where the index of the instance is there already.
pub fn read_with_index(
    alloc: Global,
    instance: &Instance,
    index: &Index<'_>,
    lines: &[Record],
    from: usize,
) -> Result<Certificate, CertFault>
    requires index { index.now ≡ entries_of instance.now }
    requires from { from ≤ length lines.now }
    requires few { length lines.now < 2 ^ 32 - 1 }
    ensures read { IfOk result (λ c. certificate_of instance.now (from + 1) (drop from lines.now) ≡ Ok c) }
    ensures bad { (ordinal code : ℕ) → result ≡ Err (CertFault.Bad ordinal code)
        → certificate_of instance.now (from + 1) (drop from lines.now) ≡ Err (record { ordinal = ordinal; code = code }) }
    ensures range { IfOk result (IsInRange instance.now) }
    ensures countable { IfOk result (λ c. AreCountable instance.now c.tables) }
    ensures few { IfOk result (λ c. All (λ (list : List ClassSpan). length list < 2 ^ 32 - 1) c.spans) }
{
    let lookup = Lookup::new(instance, index);
    let draft = draft_of(alloc, &lookup, &lines[from..], from + 1)?;
    draft.finish(lines.len() as u32 + 1)
}
