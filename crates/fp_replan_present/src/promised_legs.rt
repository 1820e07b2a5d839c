//! The promised legs of all shipments, as kept legs of what is left.
ghost use Rattle.std.specs.Prelude.{◌≡◌, ◌<◌, ◌≤◌, ◌++◌, length, drop, map, IfOk, OnOk};
ghost use Rattle.std.specs.List.{list_any};
ghost use Rattle.fp_base_lists.specs.Ascending.{place_in};
ghost use Rattle.fp_model.specs.declared.limits.TheConstants.{MOST_SHIPMENTS};
ghost use Rattle.fp_replan_present.specs.Rests.{is_fixed_of, promised_among, renumbered as renumbered_of};

use crate::NoMemory;
use crate::presents::{Present, Tracked};
use crate::tracked_legs::is_fixed;
use fp_model::limits::MOST_SHIPMENTS;
use fp_replan::Kept;
use std::alloc::Global;

// How many of the numbers are below another one.
pub(crate) fn place_among(numbers: &[u32], number: u32) -> u32
    requires { length numbers.now ≤ MOST_SHIPMENTS }
    ensures { result ≡ place_in numbers.now number }
{
    let mut place = 0;
    for other in numbers {
        if *other < number {
            place += 1;
        }
    }
    place
}

// A tracked leg as a kept leg of what is left, of shipments with these numbers.
fn renumbered(numbers: &[u32], leg: Tracked) -> Kept
    requires { length numbers.now ≤ MOST_SHIPMENTS }
    ensures { result ≡ renumbered_of numbers.now leg }
{
    Kept {
        shipment: place_among(numbers, leg.kept.shipment),
        arc: leg.kept.arc,
        depart: leg.kept.depart,
    }
}

// Whether one of the legs is of a shipment and settled by itself.
fn has_fixed(now: Option<u32>, legs: &[Tracked], shipment: u32) -> bool
    ensures { result ≡ list_any (is_fixed_of now shipment) legs.now }
{
    legs.iter()
        .any(|leg| leg.kept.shipment == shipment && is_fixed(now, *leg))
}

// Adds the first of the legs where it is promised.
fn add_first(
    kept: &mut Vec<Kept>,
    now: Option<u32>,
    numbers: &[u32],
    legs: &[Tracked],
) -> Result<(), NoMemory>
    requires some { 0 < length legs.now }
    requires few { length numbers.now ≤ MOST_SHIPMENTS }
    ensures { OnOk result (kept.new.items ++ map (renumbered_of numbers.now) (promised_among now (drop 1 legs.now))
        ≡ kept.old.items ++ map (renumbered_of numbers.now) (promised_among now legs.now)) }
{
    let first = legs[0];
    if has_fixed(now, legs, first.kept.shipment) {
        return Ok(());
    }
    kept.push(renumbered(numbers, first))?;
    Ok(())
}

// The promised legs of a day as kept legs of what is left, of shipments with these numbers.
pub(crate) fn kept_left(
    alloc: Global,
    present: &Present,
    numbers: &[u32],
) -> Result<Vec<Kept>, NoMemory>
    requires { length numbers.now ≤ MOST_SHIPMENTS }
    ensures { IfOk result (λ kept. kept.items ≡ map (renumbered_of numbers.now) (promised_among present.now.time present.now.legs)) }
{
    let mut kept = Vec::new(alloc);
    for place in 0..present.legs.len() {
        add_first(&mut kept, present.time, numbers, &present.legs[place..])?;
    }
    Ok(kept)
}
