//! Reads kept legs.
ghost use Rattle.std.specs.Prelude.{ℕ, ◌≡◌, ◌≤◌, ◌<◌, ◌+◌, ◌-◌, ◌^◌, ◌++◌, ◌∷◌, [], drop, length, Ok, Err, Some, None, IfOk, OnOk, MatchResult};
ghost use Rattle.fp_base_lists.specs.Vectors.{lists_of};
ghost use Rattle.fp_records_fields.specs.Findings.{first_code};
ghost use Rattle.fp_records_fields.specs.Indexes.{entries_of};
ghost use Rattle.fp_replan.specs.declared.kept.TheConstants.{MOST_KEPT};
ghost use Rattle.fp_replan.specs.Beginnings.{AreBeginnings};
ghost use Rattle.fp_replan.specs.Codes.{code_of};
ghost use Rattle.fp_replan.specs.KeptLegs.{AreKept};
ghost use Rattle.fp_replan.specs.Records.{kept_faults, kept_from, kept_in};

use crate::NoMemory;
use crate::beginnings::{goes_on, keep, no_beginnings};
use crate::codes::RecordFault;
use crate::faults::KeptFault;
use crate::kept::{Kept, MOST_KEPT};
use fp_model::limits::LATEST;
use fp_model::{Instance, Leg};
use fp_records::Record;
use fp_records_fields::digits::short_between;
use fp_records_fields::fields::{field_at, has_fields, has_number, is_of_kind};
use fp_records_fields::{Index, Lookup};
use std::alloc::Global;

// The kept leg of a record, or the least of the record's faults.
fn read_leg(
    instance: &Instance,
    lookup: &Lookup<'_>,
    kept: &[Kept],
    beginnings: &[Vec<Leg>],
    line: &Record,
) -> Result<Kept, RecordFault>
    requires lookup { lookup.now ≡ instance.now }
    requires kept { AreKept instance.now kept.now }
    requires beginnings { AreBeginnings kept.now (length instance.now.shipments) (lists_of beginnings.now) }
    ensures { MatchResult result
        (λ leg. (first_code (kept_faults instance.now kept.now line.now) ≡ None) × (leg ≡ kept_in instance.now line.now))
        (λ fault. first_code (kept_faults instance.now kept.now line.now) ≡ Some (code_of fault)) }
{
    if !is_of_kind(line, b"kept") {
        return Err(RecordFault::Kind);
    }
    if !has_fields(line, 5) {
        return Err(RecordFault::Fields);
    }
    if !has_number(line, 4) {
        return Err(RecordFault::Digits);
    }
    let Some(shipment) = lookup.shipment_at(line, 1) else {
        return Err(RecordFault::Name);
    };
    let Some(arc) = lookup.arc_at(line, 2, 3) else {
        return Err(RecordFault::Name);
    };
    let Some(depart) = short_between(field_at(line, 4), 0, LATEST) else {
        return Err(RecordFault::Range);
    };
    let legs = &beginnings[shipment as usize];
    if !goes_on(instance, instance.shipment(shipment), legs, arc) {
        return Err(RecordFault::Broken);
    }
    if kept.len() >= MOST_KEPT {
        return Err(RecordFault::TooMany);
    }
    Ok(Kept {
        shipment,
        arc,
        depart,
    })
}

// Adds a kept leg.
fn add_kept(kept: &mut Vec<Kept>, leg: Kept) -> Result<(), NoMemory>
    ensures { OnOk result (kept.new.items ≡ kept.old.items ++ leg ∷ []) }
{
    kept.push(leg)?;
    Ok(())
}

// The kept legs of records, of which the first has the ordinal `first`, or the first of them with a
// fault.
fn legs_of(
    alloc: Global,
    instance: &Instance,
    lookup: &Lookup<'_>,
    lines: &[Record],
    first: usize,
) -> Result<Vec<Kept>, KeptFault>
    requires lookup { lookup.now ≡ instance.now }
    requires few { first + length lines.now < 2 ^ 32 }
    ensures kept { IfOk result (λ kept. kept_from instance.now [] first lines.now ≡ Ok kept.items) }
    ensures sound { IfOk result (λ kept. AreKept instance.now kept.items) }
    ensures few { IfOk result (λ kept. length kept.items ≤ MOST_KEPT) }
    ensures bad { (ordinal code : ℕ) → result ≡ Err (KeptFault.Bad ordinal code)
        → kept_from instance.now [] first lines.now ≡ Err (record { ordinal = ordinal; code = code }) }
{
    let mut kept = Vec::new(alloc);
    let mut beginnings = no_beginnings(alloc, instance.shipments().len())?;
    for (place, line) in lines.iter().enumerate() {
        match read_leg(instance, lookup, &kept, &beginnings, line) {
            Ok(leg) => {
                keep(&mut beginnings, leg)?;
                add_kept(&mut kept, leg)?;
            }
            Err(fault) => {
                return Err(KeptFault::Bad {
                    ordinal: (first + place) as u32,
                    code: fault.code(),
                });
            }
        }
    }
    Ok(kept)
}

/// The kept legs of an instance that the records from place `from` on give, in their order, or the
/// first fault.
///
/// There are fewer than `2^32 - 1` records, and `from` is at most their number. Ordinals count from
/// 1 over all records. A record is `kept,SHIPMENT,FROM,TO,DEPART`: the shipment goes by the arc and
/// leaves at that time, 0 to 100,000 in the input's unit. Its kept legs, in the order of their
/// records, begin its route. There are at most 30,000 kept legs.
///
/// `Bad` comes exactly where there is a fault: the first record with one decides, and in it the
/// least code ([`KeptFault`] has the codes). `NoMemory` comes only where no memory is found.
pub fn read_kept(
    alloc: Global,
    instance: &Instance,
    lines: &[Record],
    from: usize,
) -> Result<Vec<Kept>, KeptFault>
    requires from { from ≤ length lines.now }
    requires few { length lines.now < 2 ^ 32 - 1 }
    ensures kept { IfOk result (λ kept. kept_from instance.now [] (from + 1) (drop from lines.now) ≡ Ok kept.items) }
    ensures sound { IfOk result (λ kept. AreKept instance.now kept.items) }
    ensures few { IfOk result (λ kept. length kept.items ≤ MOST_KEPT) }
    ensures bad { (ordinal code : ℕ) → result ≡ Err (KeptFault.Bad ordinal code)
        → kept_from instance.now [] (from + 1) (drop from lines.now) ≡ Err (record { ordinal = ordinal; code = code }) }
{
    let index = Index::of(alloc, instance)?;
    read_kept_with_index(alloc, instance, &index, lines, from)
}

/// What [`read_kept`] reads, where the index of the instance is there already.
pub fn read_kept_with_index(
    alloc: Global,
    instance: &Instance,
    index: &Index<'_>,
    lines: &[Record],
    from: usize,
) -> Result<Vec<Kept>, KeptFault>
    requires index { index.now ≡ entries_of instance.now }
    requires from { from ≤ length lines.now }
    requires few { length lines.now < 2 ^ 32 - 1 }
    ensures kept { IfOk result (λ kept. kept_from instance.now [] (from + 1) (drop from lines.now) ≡ Ok kept.items) }
    ensures sound { IfOk result (λ kept. AreKept instance.now kept.items) }
    ensures few { IfOk result (λ kept. length kept.items ≤ MOST_KEPT) }
    ensures bad { (ordinal code : ℕ) → result ≡ Err (KeptFault.Bad ordinal code)
        → kept_from instance.now [] (from + 1) (drop from lines.now) ≡ Err (record { ordinal = ordinal; code = code }) }
{
    let lookup = Lookup::new(instance, index);
    legs_of(alloc, instance, &lookup, &lines[from..], from + 1)
}
