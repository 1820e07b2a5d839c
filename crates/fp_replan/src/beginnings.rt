//! The kept legs of each shipment, with which its route begins.
ghost use Rattle.std.specs.Prelude.{ℕ, ◌≡◌, ◌<◌, ◌++◌, ◌∷◌, List, [], length, IfOk, OnOk, All};
ghost use Rattle.fp_base_lists.specs.Membership.{list_has};
ghost use Rattle.fp_base_lists.specs.Vectors.{lists_of};
ghost use Rattle.fp_model.specs.Routes.{ArcsExist};
ghost use Rattle.fp_replan.specs.KeptLegs.{goes_on as goes_on_of, place_after as place_after_of, places_seen};
ghost use Rattle.fp_replan.specs.Beginnings.{AreBeginnings};
ghost use Rattle.fp_replan.specs.declared.kept.Kept.{Kept};

use crate::NoMemory;
use crate::kept::Kept;
use fp_model::{Instance, Leg, Shipment};
use std::alloc::Global;

/// No kept legs, for so many shipments. `NoMemory` only where no memory is found.
pub fn no_beginnings(alloc: Global, count: usize) -> Result<Vec<Vec<Leg>>, NoMemory>
    ensures { IfOk result (λ beginnings. AreBeginnings [] count (lists_of beginnings.items)) }
{
    let mut beginnings = Vec::new(alloc);
    for _ in 0..count {
        beginnings.push(Vec::new(alloc))?;
    }
    Ok(beginnings)
}

/// One more kept leg, of one of so many shipments. `NoMemory` only where no memory is found.
pub fn keep(beginnings: &mut Vec<Vec<Leg>>, leg: Kept) -> Result<(), NoMemory>
    requires { leg.shipment < length beginnings.old.items }
    ensures { OnOk result ((kept : List Kept) (count : ℕ) → AreBeginnings kept count (lists_of beginnings.old.items)
        → AreBeginnings (kept ++ leg ∷ []) count (lists_of beginnings.new.items)) }
{
    let legs = &mut beginnings[leg.shipment as usize];
    legs.push(Leg {
        arc: leg.arc,
        depart: leg.depart,
    })?;
    Ok(())
}

// The kept legs of each of so many shipments.
pub(crate) fn beginnings_of(
    alloc: Global,
    count: usize,
    kept: &[Kept],
) -> Result<Vec<Vec<Leg>>, NoMemory>
    requires { All (λ (x : Kept). x.shipment < count) kept.now }
    ensures { IfOk result (λ beginnings. AreBeginnings kept.now count (lists_of beginnings.items)) }
{
    let mut beginnings = no_beginnings(alloc, count)?;
    for leg in kept {
        keep(&mut beginnings, *leg)?;
    }
    Ok(beginnings)
}

/// Where a shipment is after legs: at the end of the last one, or at its origin. Takes no memory.
pub fn place_after(instance: &Instance, origin: u32, legs: &[Leg]) -> u32
    requires { ArcsExist instance.now legs.now }
    ensures { result ≡ place_after_of instance.now origin legs.now }
{
    let mut here = origin;
    for leg in legs {
        here = instance.arc(leg.arc).to;
    }
    here
}

// Whether a shipment that went by legs was at a terminal.
pub(crate) fn was_at(instance: &Instance, origin: u32, legs: &[Leg], terminal: u32) -> bool
    requires { ArcsExist instance.now legs.now }
    ensures { result ≡ list_has (places_seen instance.now origin legs.now) terminal }
{
    if origin == terminal {
        return true;
    }
    for leg in legs {
        if instance.arc(leg.arc).to == terminal {
            return true;
        }
    }
    false
}

/// Whether an arc goes on from legs of a shipment: it leaves where they end, which isn't the
/// destination, and enters no terminal where the shipment was. Takes no memory.
pub fn goes_on(instance: &Instance, shipment: &Shipment, legs: &[Leg], number: u32) -> bool
    requires legs { ArcsExist instance.now legs.now }
    requires arc { number < length instance.now.arcs }
    ensures { result ≡ goes_on_of instance.now shipment.now legs.now number }
{
    let arc = instance.arc(number);
    let here = place_after(instance, shipment.from, legs);
    arc.from == here && here != shipment.to && !was_at(instance, shipment.from, legs, arc.to)
}
