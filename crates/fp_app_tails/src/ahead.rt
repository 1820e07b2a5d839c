//! What is to be planned after kept legs or in a day that is under way.
ghost use Rattle.std.specs.Prelude.{◌≤◌, length, IfOk};
ghost use Rattle.fp_replan.specs.declared.kept.TheConstants.{MOST_KEPT};
ghost use Rattle.fp_replan.specs.KeptLegs.{AreKept};
ghost use Rattle.fp_replan_present.specs.Days.{AreTracked};
ghost use Rattle.fp_app_tails.specs.Ahead.{CanBeTold, IsAhead, IsDayAhead, IsKeptAhead};
ghost use Rattle.fp_app_tails.specs.Duties.{duty_of};

use crate::NoMemory;
use fp_flatnet::Windows;
use fp_model::Instance;
use fp_replan::{Kept, Started, start};
use fp_replan_present::{Left, Present, left};
use std::alloc::Global;

/// What records after an instance tell: legs that are kept, or a day that is under way.
#[derive(Drop)]
pub enum Told {
    Kept { kept: Vec<Kept> },
    Day { present: Present },
}

/// What is to be planned, with the windows of the plans that are wanted, or the first shipment that is
/// stuck.
#[derive(Drop)]
pub enum Ahead {
    Open {
        instance: Instance,
        windows: Windows,
    },
    Stuck {
        shipment: u32,
    },
}

// That of kept legs: the instance itself.
fn kept_ahead(alloc: Global, instance: &Instance, kept: &[Kept]) -> Result<Ahead, NoMemory>
    requires kept { AreKept instance.now kept.now }
    requires few { length kept.now ≤ MOST_KEPT }
    ensures { IfOk result (IsKeptAhead instance.now kept.now) }
{
    match start(alloc, instance, kept)? {
        Started::Plan { .. } => {
            let windows = fp_replan::windows(alloc, instance, kept)?;
            let instance = instance.copy(alloc)?;
            Ok(Ahead::Open { instance, windows })
        }
        Started::Stuck { shipment } => Ok(Ahead::Stuck { shipment }),
    }
}

// That of a day: what is left of it.
fn day_ahead(alloc: Global, instance: &Instance, present: &Present) -> Result<Ahead, NoMemory>
    requires tracked { AreTracked instance.now present.now }
    requires few { length present.now.legs ≤ MOST_KEPT }
    ensures { IfOk result (IsDayAhead instance.now present.now) }
{
    // Brings the instance's validity into the proof: so the windows tell the plans under way.
    let _known = instance.arcs();
    match left(alloc, instance, present)? {
        Left::Open { rest, .. } => {
            let windows = fp_replan_present::windows(alloc, &rest)?;
            Ok(Ahead::Open {
                instance: rest.instance,
                windows,
            })
        }
        Left::Stuck { shipment } => Ok(Ahead::Stuck { shipment }),
    }
}

// What is to be planned after what is told of an instance.
pub(crate) fn ahead_of(alloc: Global, instance: &Instance, told: &Told) -> Result<Ahead, NoMemory>
    requires { CanBeTold instance.now (duty_of told.now) }
    ensures { IfOk result (IsAhead instance.now (duty_of told.now)) }
{
    match told {
        Told::Kept { kept } => kept_ahead(alloc, instance, kept),
        Told::Day { present } => day_ahead(alloc, instance, present),
    }
}
