//! Reads the day that is told.
ghost use Rattle.std.specs.Prelude.{ℕ, ◌≡◌, ◌≤◌, ◌<◌, ◌+◌, ◌-◌, ◌^◌, drop, length, map, Ok, Err, None, Some, IfOk, MatchResult};
ghost use Rattle.fp_records_fields.specs.Fields.{number_at};
ghost use Rattle.fp_records_fields.specs.Findings.{first_code};
ghost use Rattle.fp_records_fields.specs.Indexes.{entries_of};
ghost use Rattle.fp_replan.specs.declared.kept.TheConstants.{MOST_KEPT};
ghost use Rattle.fp_replan_present.specs.Codes.{code_of};
ghost use Rattle.fp_replan_present.specs.Days.{AreTracked, Day};
ghost use Rattle.fp_replan_present.specs.Drafts.{IsDraft, IsToldOf, day_in, told_with};
ghost use Rattle.fp_replan_present.specs.Records.{day_faults, day_from, day_with, leg_faults, now_faults, tracked_in, untold};

use crate::codes::RecordFault;
use crate::drafts::{Draft, Told, add_told, nothing_told};
use crate::faults::PresentFault;
use crate::presents::{Present, Tracked};
use crate::times::{has_leg_fields, has_times, is_backward, times_in};
use fp_model::Instance;
use fp_model::limits::LATEST;
use fp_records::Record;
use fp_records_fields::digits::short_between;
use fp_records_fields::fields::{field_at, has_fields, has_number, is_of_kind};
use fp_records_fields::{Index, Lookup};
use fp_replan::{Kept, MOST_KEPT, goes_on};
use std::alloc::Global;

// The present that a record tells, or the least of its faults.
fn read_now(now: Option<u32>, line: &Record) -> Result<u32, RecordFault>
    ensures { MatchResult result
        (λ time. (first_code (now_faults now line.now) ≡ None) × (time ≡ number_at line.now 1))
        (λ fault. first_code (now_faults now line.now) ≡ Some (code_of fault)) }
{
    if !has_fields(line, 2) {
        return Err(RecordFault::Fields);
    }
    if !has_number(line, 1) {
        return Err(RecordFault::Digits);
    }
    let Some(time) = short_between(field_at(line, 1), 0, LATEST) else {
        return Err(RecordFault::Range);
    };
    if now.is_some() {
        return Err(RecordFault::Twice);
    }
    Ok(time)
}

// The tracked leg of a record, or the least of its faults.
fn read_leg(
    instance: &Instance,
    lookup: &Lookup<'_>,
    draft: &Draft,
    line: &Record,
) -> Result<Tracked, RecordFault>
    requires lookup { lookup.now ≡ instance.now }
    requires tracked { AreTracked instance.now (day_in draft.now) }
    requires draft { IsDraft (length instance.now.shipments) draft.now }
    ensures { MatchResult result
        (λ leg. (first_code (leg_faults instance.now draft.now.legs.items line.now) ≡ None) × (leg ≡ tracked_in instance.now line.now))
        (λ fault. first_code (leg_faults instance.now draft.now.legs.items line.now) ≡ Some (code_of fault)) }
{
    if !has_leg_fields(line) {
        return Err(RecordFault::Fields);
    }
    if !has_times(line) {
        return Err(RecordFault::Digits);
    }
    let Some(shipment) = lookup.shipment_at(line, 1) else {
        return Err(RecordFault::Name);
    };
    let Some(arc) = lookup.arc_at(line, 2, 3) else {
        return Err(RecordFault::Name);
    };
    let Some(times) = times_in(line) else {
        return Err(RecordFault::Range);
    };
    let legs = &draft.beginnings[shipment as usize];
    if !goes_on(instance, instance.shipment(shipment), legs, arc) {
        return Err(RecordFault::Broken);
    }
    if draft.legs.len() >= MOST_KEPT {
        return Err(RecordFault::TooMany);
    }
    if is_backward(times) {
        return Err(RecordFault::Backward);
    }
    let kept = Kept {
        shipment,
        arc,
        depart: times.depart,
    };
    Ok(Tracked {
        kept,
        arrive: times.arrive,
    })
}

// What a record tells, or the least of its faults.
fn told_in(
    instance: &Instance,
    lookup: &Lookup<'_>,
    draft: &Draft,
    line: &Record,
) -> Result<Told, RecordFault>
    requires lookup { lookup.now ≡ instance.now }
    requires tracked { AreTracked instance.now (day_in draft.now) }
    requires draft { IsDraft (length instance.now.shipments) draft.now }
    ensures { MatchResult result
        (λ told. (first_code (day_faults instance.now (day_in draft.now) line.now) ≡ None)
        × (day_with instance.now (day_in draft.now) line.now ≡ told_with (day_in draft.now) told)
        × IsToldOf (length instance.now.shipments) told)
        (λ fault. first_code (day_faults instance.now (day_in draft.now) line.now) ≡ Some (code_of fault)) }
{
    if is_of_kind(line, b"now") {
        return match read_now(draft.time, line) {
            Ok(time) => Ok(Told::Now { time }),
            Err(fault) => Err(fault),
        };
    }
    if !is_of_kind(line, b"kept") {
        return Err(RecordFault::Kind);
    }
    match read_leg(instance, lookup, draft, line) {
        Ok(leg) => Ok(Told::Leg { leg }),
        Err(fault) => Err(fault),
    }
}

// The day that records tell, of which the first has the ordinal `first`, or the first of them with a
// fault.
fn day_of(
    alloc: Global,
    instance: &Instance,
    lookup: &Lookup<'_>,
    lines: &[Record],
    first: usize,
) -> Result<Present, PresentFault>
    requires lookup { lookup.now ≡ instance.now }
    requires few { first + length lines.now < 2 ^ 32 }
    ensures day { IfOk result (λ day. day_from instance.now untold first lines.now ≡ Ok day) }
    ensures sound { IfOk result (AreTracked instance.now) }
    ensures few { IfOk result (λ (day : Day). length day.legs ≤ MOST_KEPT) }
    ensures bad { (ordinal code : ℕ) → result ≡ Err (PresentFault.Bad ordinal code)
        → day_from instance.now untold first lines.now ≡ Err (record { ordinal = ordinal; code = code }) }
{
    let mut draft = nothing_told(alloc, instance.shipments().len())?;
    for (place, line) in lines.iter().enumerate() {
        match told_in(instance, lookup, &draft, line) {
            Ok(told) => add_told(&mut draft, told)?,
            Err(fault) => {
                return Err(PresentFault::Bad {
                    ordinal: (first + place) as u32,
                    code: fault.code(),
                });
            }
        }
    }
    Ok(Present {
        time: draft.time,
        legs: draft.legs,
    })
}

/// The day that the records from place `from` on tell of an instance, or the first fault.
///
/// There are fewer than `2^32 - 1` records, and `from` is at most their number. Ordinals count from
/// 1 over all records. A record is `now,TIME`, at most once, `kept,SHIPMENT,FROM,TO,DEPART` or
/// `kept,SHIPMENT,FROM,TO,DEPART,ARRIVE`: the present; or the shipment goes by the arc, leaves at
/// DEPART, and is at TO at ARRIVE where that is told, else after the arc's time. Times are 0 to
/// 100,000 in the input's unit. The tracked legs of a shipment, in the order of their records, begin
/// its route. There are at most 30,000 of them.
///
/// `Bad` comes exactly where there is a fault: the first record with one decides, and in it the
/// least code ([`PresentFault`] has the codes). Records without the present and without ARRIVE are
/// read as `fp_replan::read_kept` reads them. `NoMemory` comes only where no memory is found.
pub fn read(
    alloc: Global,
    instance: &Instance,
    lines: &[Record],
    from: usize,
) -> Result<Present, PresentFault>
    requires from { from ≤ length lines.now }
    requires few { length lines.now < 2 ^ 32 - 1 }
    ensures day { IfOk result (λ day. day_from instance.now untold (from + 1) (drop from lines.now) ≡ Ok day) }
    ensures sound { IfOk result (AreTracked instance.now) }
    ensures few { IfOk result (λ (day : Day). length day.legs ≤ MOST_KEPT) }
    ensures bad { (ordinal code : ℕ) → result ≡ Err (PresentFault.Bad ordinal code)
        → day_from instance.now untold (from + 1) (drop from lines.now) ≡ Err (record { ordinal = ordinal; code = code }) }
{
    let index = Index::of(alloc, instance)?;
    read_with_index(alloc, instance, &index, lines, from)
}

/// What [`read`] reads, where the index of the instance is there already.
pub fn read_with_index(
    alloc: Global,
    instance: &Instance,
    index: &Index<'_>,
    lines: &[Record],
    from: usize,
) -> Result<Present, PresentFault>
    requires index { index.now ≡ entries_of instance.now }
    requires from { from ≤ length lines.now }
    requires few { length lines.now < 2 ^ 32 - 1 }
    ensures day { IfOk result (λ day. day_from instance.now untold (from + 1) (drop from lines.now) ≡ Ok day) }
    ensures sound { IfOk result (AreTracked instance.now) }
    ensures few { IfOk result (λ (day : Day). length day.legs ≤ MOST_KEPT) }
    ensures bad { (ordinal code : ℕ) → result ≡ Err (PresentFault.Bad ordinal code)
        → day_from instance.now untold (from + 1) (drop from lines.now) ≡ Err (record { ordinal = ordinal; code = code }) }
{
    let lookup = Lookup::new(instance, index);
    day_of(alloc, instance, &lookup, &lines[from..], from + 1)
}
