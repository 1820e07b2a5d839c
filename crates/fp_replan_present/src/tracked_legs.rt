//! The settled and the promised legs among those that are tracked.
ghost use Rattle.std.specs.Prelude.{ℕ, ◌≡◌, ◌≤◌, length, take, drop, map, IfOk};
ghost use Rattle.fp_replan_present.specs.Days.{has_left as has_left_of, is_fixed as is_fixed_of, legs_of as legs_in, promised as promised_in, settled as settled_in, tracked_of as tracked_among};
ghost use Rattle.fp_replan_present.specs.Plans.{promised_of, settled_legs, settled_of};

use crate::NoMemory;
use crate::presents::{Present, Tracked};
use fp_model::Leg;
use std::alloc::Global;

// Whether a leg has left before the present, where that is told.
fn has_left(now: Option<u32>, leg: Tracked) -> bool
    ensures { result ≡ has_left_of now leg }
{
    match now {
        Some(time) => leg.kept.depart < time,
        None => false,
    }
}

// Whether a leg is settled by itself: it has left, or its arrival is told.
pub(crate) fn is_fixed(now: Option<u32>, leg: Tracked) -> bool
    ensures { result ≡ is_fixed_of now leg }
{
    has_left(now, leg) || leg.arrive.is_some()
}

// The tracked legs of a shipment.
fn tracked_of(alloc: Global, legs: &[Tracked], shipment: u32) -> Result<Vec<Tracked>, NoMemory>
    ensures { IfOk result (λ own. own.items ≡ tracked_among legs.now shipment) }
{
    legs.iter()
        .copied()
        .filter(|leg| leg.kept.shipment == shipment)
        .collect(alloc)
}

// How many of the tracked legs of a shipment are settled.
fn settled_count(now: Option<u32>, legs: &[Tracked]) -> usize
    ensures within { result ≤ length legs.now }
    ensures settled { take result legs.now ≡ settled_in now legs.now }
    ensures promised { drop result legs.now ≡ promised_in now legs.now }
{
    let mut count = legs.len();
    while count > 0 {
        if is_fixed(now, legs[count - 1]) {
            return count;
        }
        count -= 1;
    }
    0
}

// Tracked legs as legs.
fn legs_of(alloc: Global, legs: &[Tracked]) -> Result<Vec<Leg>, NoMemory>
    ensures { IfOk result (λ found. found.items ≡ legs_in legs.now) }
{
    legs.iter()
        .map(|leg| Leg {
            arc: leg.kept.arc,
            depart: leg.kept.depart,
        })
        .collect(alloc)
}

/// The tracked legs of a shipment: the settled ones, these as legs, and the promised ones as legs.
#[derive(Drop)]
pub struct Own {
    pub settled: Vec<Tracked>,
    pub legs: Vec<Leg>,
    pub promised: Vec<Leg>,
}

// The tracked legs of the shipment with a number.
pub(crate) fn own_legs(alloc: Global, present: &Present, shipment: u32) -> Result<Own, NoMemory>
    ensures settled { IfOk result (λ own. own.settled.items ≡ settled_of present.now shipment) }
    ensures legs { IfOk result (λ own. own.legs.items ≡ settled_legs present.now shipment) }
    ensures promised { IfOk result (λ own. own.promised.items ≡ legs_in (promised_of present.now shipment)) }
{
    let tracked = tracked_of(alloc, &present.legs, shipment)?;
    let count = settled_count(present.time, &tracked);
    let settled = tracked[..count].to_vec(alloc)?;
    let legs = legs_of(alloc, &settled)?;
    let promised = legs_of(alloc, &tracked[count..])?;
    Ok(Own {
        settled,
        legs,
        promised,
    })
}
