//! The day that records so far tell.
ghost use Rattle.std.specs.Prelude.{ℕ, ◌≡◌, ◌++◌, ◌∷◌, [], None, length, IfOk, OnOk};
ghost use Rattle.fp_replan_present.specs.Drafts.{IsDraft, IsToldOf, day_in, told_with};

use crate::NoMemory;
use crate::presents::Tracked;
use fp_model::Leg;
use fp_replan::{keep, no_beginnings};
use std::alloc::Global;

/// What a record tells: the present, or a tracked leg.
#[derive(Clone, Copy)]
pub enum Told {
    Now { time: u32 },
    Leg { leg: Tracked },
}

/// The present and the tracked legs of the records so far, and the legs of each shipment.
#[derive(Drop)]
pub struct Draft {
    pub time: Option<u32>,
    pub legs: Vec<Tracked>,
    pub beginnings: Vec<Vec<Leg>>,
}

// Nothing told, of so many shipments.
pub(crate) fn nothing_told(alloc: Global, count: usize) -> Result<Draft, NoMemory>
    ensures { IfOk result (λ draft. (draft.time ≡ None) × (draft.legs.items ≡ []) × IsDraft count draft) }
{
    let beginnings = no_beginnings(alloc, count)?;
    Ok(Draft {
        time: None,
        legs: Vec::new(alloc),
        beginnings,
    })
}

// Adds a leg.
fn add_leg(legs: &mut Vec<Tracked>, leg: Tracked) -> Result<(), NoMemory>
    ensures { OnOk result (legs.new.items ≡ legs.old.items ++ leg ∷ []) }
{
    legs.push(leg)?;
    Ok(())
}

// Adds what a record tells.
pub(crate) fn add_told(draft: &mut Draft, told: Told) -> Result<(), NoMemory>
    requires { IsToldOf (length draft.old.beginnings.items) told }
    ensures day { OnOk result (day_in draft.new ≡ told_with (day_in draft.old) told) }
    ensures draft { OnOk result ((count : ℕ) → IsDraft count draft.old → IsDraft count draft.new) }
{
    match told {
        Told::Now { time } => {
            draft.time = Some(time);
            Ok(())
        }
        Told::Leg { leg } => {
            keep(&mut draft.beginnings, leg.kept)?;
            add_leg(&mut draft.legs, leg)?;
            Ok(())
        }
    }
}
