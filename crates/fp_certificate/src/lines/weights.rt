//! Lines `weight,SHIPMENT,W`.
ghost use Rattle.std.specs.Prelude.{◌≡◌, false, OnOk, Some, None, MatchResult};
ghost use Rattle.fp_records_fields.specs.Findings.{IsFirstFault, first_code};
ghost use Rattle.fp_records_fields.specs.Fields.{has_number};
ghost use Rattle.fp_certificate.specs.Codes.{code_of};
ghost use Rattle.fp_certificate.specs.Tables.{bars_weight, weight_faults, weight_in, with_weight};

use crate::drafts::Draft;
use crate::lines::faults::LineFault;
use crate::lines::fields::figure_at;
use crate::lines::sections::Section;
use fp_prices::Weight;
use fp_records::Record;
use fp_records_fields::fields::{has_fields, has_number};
use fp_records_fields::{Lookup, RecordError};

// The weight of a line, or the first of the line's faults.
fn weight_of(lookup: &Lookup<'_>, draft: &Draft, line: &Record) -> Result<Weight, LineFault>
    ensures faults { MatchResult result
        (λ weight. (first_code (weight_faults lookup.now draft.now line.now) ≡ None) × (weight ≡ weight_in lookup.now line.now))
        (λ fault. first_code (weight_faults lookup.now draft.now line.now) ≡ Some (code_of fault)) }
    ensures some { OnOk result
        (bars_weight draft.now.certificate.tables draft.now.certificate.spans draft.now.certificate.gifts ≡ false) }
{
    if !has_fields(line, 3) {
        return Err(LineFault::Fields);
    }
    if !has_number(line, 2) {
        return Err(LineFault::Digits);
    }
    if draft.is_misplaced(Section::Tables) || draft.bars_weight() {
        return Err(LineFault::Order);
    }
    let Some(shipment) = lookup.shipment_at(line, 1) else {
        return Err(LineFault::Name);
    };
    let Some(w) = figure_at(line, 2) else {
        return Err(LineFault::Range);
    };
    Ok(Weight { shipment, w })
}

/// Adds the weight of a line to the last span or share, or tells the first of the line's faults.
pub fn read_weight(
    lookup: &Lookup<'_>,
    draft: &mut Draft,
    line: &Record,
) -> Result<(), RecordError<LineFault>>
    ensures { MatchResult result
        (λ _. (first_code (weight_faults lookup.now draft.old line.now) ≡ None)
        × (draft.new ≡ with_weight draft.old (weight_in lookup.now line.now)))
        (λ e. IsFirstFault code_of e (first_code (weight_faults lookup.now draft.old line.now))) }
{
    let weight = weight_of(lookup, draft, line)?;
    draft.add_weight(weight)?;
    Ok(())
}
