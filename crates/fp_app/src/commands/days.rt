//! What `replan` shows of a day that is under way.
ghost use Rattle.std.specs.Prelude.{◌≤◌, length, IfOk};
ghost use Rattle.fp_ends.specs.Deadlines.{has_shown};
ghost use Rattle.fp_session_history.specs.Budgets.{IsBudget};
ghost use Rattle.fp_replan.specs.declared.kept.TheConstants.{MOST_KEPT};
ghost use Rattle.fp_replan_present.specs.Days.{AreTracked};
ghost use Rattle.fp_replan_present.specs.Rests.{left_problem};
ghost use Rattle.fp_app.specs.Notes.{IsNotedFor, MayNote};
ghost use Rattle.fp_app.specs.Runs.{ShowsDay};
ghost use Rattle.fp_app.specs.Searches.{within};
ghost use Rattle.fp_app.specs.Shown.{IsPrintable};
ghost use Rattle.fp_app.specs.Wanted.{going_on};

use crate::commands::options::SearchOptions;
use crate::commands::searches::search_from;
use crate::{NoMemory, Shown};
use fp_ends::{Clock, Sink};
use fp_model::Instance;
use fp_replan_present::{Left, Present, left, windows};
use std::alloc::Global;

/// What a search shows of what is left of a day that is under way, or the first shipment that no legs
/// under way carry.
pub fn search_day<C: Clock, N: Sink>(
    alloc: Global,
    clock: &mut C,
    notes: &mut N,
    options: SearchOptions,
    instance: Instance,
    present: Present,
) -> Result<Shown, NoMemory>
    requires tracked { AreTracked instance present }
    requires few { length present.legs ≤ MOST_KEPT }
    requires budget { IsBudget options.budget }
    ensures shown { IfOk result (ShowsDay (within options.budget (has_shown options.seconds (C.moment clock.new) (C.faults clock.old) (C.faults clock.new)) options.spans) (record { instance = instance; day = present })) }
    ensures printable { IfOk result IsPrintable }
    ensures noted { MayNote options.notes (IsNotedFor (left_problem instance present) (going_on instance present) (N.taken notes.old) (N.taken notes.new)) (N.taken notes.old) (N.taken notes.new) }
{
    // Brings the instance's validity into the proof: so the windows tell the plans under way.
    let _known = instance.arcs();
    match left(alloc, &instance, &present)? {
        Left::Open { rest, start } => {
            let windows = windows(alloc, &rest)?;
            let solved = search_from(alloc, clock, notes, options, &rest.instance, windows, start)?;
            Ok(Shown::Underway {
                instance,
                present,
                rest,
                solved,
            })
        }
        Left::Stuck { shipment } => Ok(Shown::Stuck { instance, shipment }),
    }
}
