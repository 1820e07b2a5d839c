//! Lines `share,FROM,TO,POINT,V`, each followed by its weights.
ghost use Rattle.std.specs.Prelude.{◌≡◌, ◌<◌, length, OnOk, Some, None, MatchResult};
ghost use Rattle.fp_records_fields.specs.Findings.{IsFirstFault, first_code};
ghost use Rattle.fp_certificate.specs.Codes.{code_of};
ghost use Rattle.fp_certificate.specs.Tables.{share_faults, share_in, with_share};

use crate::drafts::Draft;
use crate::lines::faults::LineFault;
use crate::lines::fields::{departure_at, figure_at, have_numbers};
use crate::lines::sections::Section;
use crate::open_gifts::has_gift;
use crate::open_spans::has_span;
use fp_prices::Share;
use fp_records::Record;
use fp_records_fields::fields::has_fields;
use fp_records_fields::{Lookup, RecordError};

// The share of a line, which has no weights yet, or the first of the line's faults.
fn share_of(lookup: &Lookup<'_>, draft: &Draft, line: &Record) -> Result<Share, LineFault>
    ensures faults { MatchResult result
        (λ share. (first_code (share_faults lookup.now draft.now line.now) ≡ None) × (share ≡ share_in lookup.now line.now))
        (λ fault. first_code (share_faults lookup.now draft.now line.now) ≡ Some (code_of fault)) }
    ensures table { OnOk result (0 < length draft.now.certificate.tables) }
{
    if !has_fields(line, 5) {
        return Err(LineFault::Fields);
    }
    if !have_numbers(line, 3, 4) {
        return Err(LineFault::Digits);
    }
    if draft.is_misplaced(Section::Tables)
        || draft.certificate.tables.is_empty()
        || has_span(&draft.certificate.spans)
        || has_gift(&draft.certificate.gifts)
    {
        return Err(LineFault::Order);
    }
    let (arc, point) = departure_at(lookup, line)?;
    let Some(v) = figure_at(line, 4) else {
        return Err(LineFault::Range);
    };
    Ok(Share {
        arc,
        point,
        v,
        weights: Vec::new(draft.allocator()),
    })
}

/// Adds the share of a line to the last table, or tells the first of the line's faults.
pub fn read_share(
    lookup: &Lookup<'_>,
    draft: &mut Draft,
    line: &Record,
) -> Result<(), RecordError<LineFault>>
    ensures { MatchResult result
        (λ _. (first_code (share_faults lookup.now draft.old line.now) ≡ None)
        × (draft.new ≡ with_share draft.old (share_in lookup.now line.now)))
        (λ e. IsFirstFault code_of e (first_code (share_faults lookup.now draft.old line.now))) }
{
    let share = share_of(lookup, draft, line)?;
    draft.add_share(share)?;
    Ok(())
}
