//! What `replan` shows.
ghost use Rattle.std.specs.Prelude.{◌≡◌, ◌≤◌, length, IfOk};
ghost use Rattle.fp_ends.specs.Deadlines.{has_shown};
ghost use Rattle.fp_session_history.specs.Budgets.{IsBudget};
ghost use Rattle.fp_replan.specs.declared.kept.TheConstants.{MOST_KEPT};
ghost use Rattle.fp_replan.specs.KeptLegs.{AreKept};
ghost use Rattle.fp_app.specs.CheckInputs.{CanBeChecked};
ghost use Rattle.fp_app.specs.declared.limits.TheConstants.{INSTANCE_LIMIT};
ghost use Rattle.fp_app.specs.Notes.{AreTailNotes, IsNotedFor, MayNote};
ghost use Rattle.fp_app.specs.Runs.{ShowsReplan, ShowsTail};
ghost use Rattle.fp_app.specs.Searches.{IsSearched, within};
ghost use Rattle.fp_app.specs.Shown.{IsPrintable};
ghost use Rattle.fp_app.specs.Wanted.{IsFirstPlan, keeping};

use crate::commands::days::search_day;
use crate::commands::options::SearchOptions;
use crate::commands::searches::search_from;
use crate::{NoMemory, Shown};
use fp_app_tails::{TailInput, read_tail};
use fp_ends::{Clock, Sink};
use fp_model::{Instance, Plan};
use fp_records::records;
use fp_replan::{Kept, Started, start, windows};
use fp_session::Solved;
use std::alloc::Global;

/// What `replan` shows for the bytes of an input, with a budget within its limits, in the time that
/// there is, and with the option of spans or without it.
pub fn replan_shown<C: Clock, N: Sink>(
    alloc: Global,
    clock: &mut C,
    notes: &mut N,
    options: SearchOptions,
    bytes: Vec<u8>,
) -> Result<Shown, NoMemory>
    requires length { length bytes.items ≤ INSTANCE_LIMIT }
    requires budget { IsBudget options.budget }
    ensures shown { IfOk result (ShowsTail (within options.budget (has_shown options.seconds (C.moment clock.new) (C.faults clock.old) (C.faults clock.new)) options.spans) bytes.items) }
    ensures printable { IfOk result IsPrintable }
    ensures noted { MayNote options.notes (AreTailNotes bytes.items (N.taken notes.old) (N.taken notes.new)) (N.taken notes.old) (N.taken notes.new) }
{
    let lines = records(alloc, &bytes)?;
    drop(bytes);
    match read_tail(alloc, &lines)? {
        TailInput::Kept { instance, kept } => {
            let shown = search_keeping(alloc, clock, notes, options, instance, kept)?;
            Ok(shown)
        }
        TailInput::Day { instance, present } => {
            let shown = search_day(alloc, clock, notes, options, instance, present)?;
            Ok(shown)
        }
        TailInput::Fault { ordinal, code } => Ok(Shown::BadInput { ordinal, code }),
    }
}

// What a search shows among the plans that keep legs, or the first shipment that is stuck.
fn search_keeping<C: Clock, N: Sink>(
    alloc: Global,
    clock: &mut C,
    notes: &mut N,
    options: SearchOptions,
    instance: Instance,
    kept: Vec<Kept>,
) -> Result<Shown, NoMemory>
    requires kept { AreKept instance kept.items }
    requires few { length kept.items ≤ MOST_KEPT }
    requires budget { IsBudget options.budget }
    ensures shown { IfOk result (ShowsReplan (within options.budget (has_shown options.seconds (C.moment clock.new) (C.faults clock.old) (C.faults clock.new)) options.spans) (record { instance = instance; kept = kept.items })) }
    ensures printable { IfOk result IsPrintable }
    ensures noted { MayNote options.notes (IsNotedFor instance (keeping kept.items) (N.taken notes.old) (N.taken notes.new)) (N.taken notes.old) (N.taken notes.new) }
{
    match start(alloc, &instance, &kept)? {
        Started::Plan { plan } => {
            let solved = solve_keeping(alloc, clock, notes, options, &instance, &kept, plan)?;
            Ok(Shown::Replanned {
                instance,
                kept,
                solved,
            })
        }
        Started::Stuck { shipment } => Ok(Shown::Stuck { instance, shipment }),
    }
}

// What a search shows among the plans that keep legs, which begins with one of them.
fn solve_keeping<C: Clock, N: Sink>(
    alloc: Global,
    clock: &mut C,
    notes: &mut N,
    options: SearchOptions,
    instance: &Instance,
    kept: &[Kept],
    first: Plan,
) -> Result<Solved, NoMemory>
    requires kept { AreKept instance.now kept.now }
    requires few { length kept.now ≤ MOST_KEPT }
    requires first { IsFirstPlan instance.now (keeping kept.now) first }
    requires budget { IsBudget options.budget }
    ensures searched { IfOk result (IsSearched instance.now (keeping kept.now) (within options.budget (has_shown options.seconds (C.moment clock.new) (C.faults clock.old) (C.faults clock.new)) options.spans)) }
    ensures checkable { IfOk result (λ solved. CanBeChecked instance.now solved.certificate) }
    ensures noted { MayNote options.notes (IsNotedFor instance.now (keeping kept.now) (N.taken notes.old) (N.taken notes.new)) (N.taken notes.old) (N.taken notes.new) }
{
    let windows = windows(alloc, instance, kept)?;
    search_from(alloc, clock, notes, options, instance, windows, first)
}
