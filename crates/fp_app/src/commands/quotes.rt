//! What `quote` shows.
ghost use Rattle.std.specs.Prelude.{◌≡◌, ◌≤◌, length, IfOk, Ok};
ghost use Rattle.fp_ends.specs.Deadlines.{IsLater, has_shown};
ghost use Rattle.fp_session_history.specs.Budgets.{IsBudget};
ghost use Rattle.fp_model.specs.Plans.{PlanExists};
ghost use Rattle.fp_model.specs.Problem.{Problem};
ghost use Rattle.fp_app_words.specs.TimeLimits.{halved};
ghost use Rattle.fp_app.specs.CheckInputs.{CanBeChecked};
ghost use Rattle.fp_app.specs.declared.limits.TheConstants.{INSTANCE_LIMIT};
ghost use Rattle.fp_app.specs.Inputs.{OfQuoted, quoted_in};
ghost use Rattle.fp_app.specs.Notes.{AreQuoteNotes, IsNotedFor, MayNote};
ghost use Rattle.fp_app.specs.Runs.{ShowsQuote};
ghost use Rattle.fp_app.specs.Searches.{IsSearched, within};
ghost use Rattle.fp_app.specs.Shown.{IsPrintable};
ghost use Rattle.fp_app.specs.Wanted.{every};
ghost use Rattle.fp_replan.specs.Quotes.{without_last as without_last_of};

use crate::commands::options::SearchOptions;
use crate::commands::searches::solve;
use crate::inputs::instances::{InstanceInput, read_quoted};
use crate::{NoMemory, Shown};
use fp_ends::{Clock, Sink};
use fp_flatnet::{Verdict, feasible};
use fp_model::Instance;
use fp_replan::without_last;
use fp_session::Solved;
use std::alloc::Global;

/// What `quote` shows for the bytes of an input, with a budget within its limits, in the time that
/// there is, of which the first search has half, and with the option of spans or without it.
pub fn quote_shown<C: Clock, N: Sink>(
    alloc: Global,
    clock: &mut C,
    notes: &mut N,
    options: SearchOptions,
    bytes: Vec<u8>,
) -> Result<Shown, NoMemory>
    requires length { length bytes.items ≤ INSTANCE_LIMIT }
    requires budget { IsBudget options.budget }
    ensures shown { IfOk result (λ shown. OfQuoted bytes.items shown (λ p. ShowsQuote (within options.budget (has_shown (halved options.seconds) (C.moment clock.new) (C.faults clock.old) (C.faults clock.new)) options.spans) p shown)) }
    ensures printable { IfOk result IsPrintable }
    ensures noted { MayNote options.notes ((p : Problem) × (quoted_in bytes.items ≡ Ok p) × AreQuoteNotes p (N.taken notes.old) (N.taken notes.new)) (N.taken notes.old) (N.taken notes.new) }
{
    match read_quoted(alloc, bytes)? {
        InstanceInput::Read { instance } => quote_last(alloc, instance, clock, notes, options),
        InstanceInput::Fault { ordinal, code } => Ok(Shown::BadInput { ordinal, code }),
    }
}

/// The same search, which ends after half of its seconds.
pub fn first_half(options: SearchOptions) -> SearchOptions
    ensures { result ≡ record options { seconds = halved options.seconds } }
{
    match options.seconds {
        Some(seconds) => SearchOptions {
            seconds: Some(seconds.div_ceil(2)),
            ..options
        },
        None => options,
    }
}

// What the last shipment adds to the cost, or the first shipment that can't be carried in time.
fn quote_last<C: Clock, N: Sink>(
    alloc: Global,
    instance: Instance,
    clock: &mut C,
    notes: &mut N,
    options: SearchOptions,
) -> Result<Shown, NoMemory>
    requires shipment { 1 ≤ length instance.shipments }
    requires budget { IsBudget options.budget }
    ensures shown { IfOk result (ShowsQuote (within options.budget (has_shown (halved options.seconds) (C.moment clock.new) (C.faults clock.old) (C.faults clock.new)) options.spans) instance) }
    ensures printable { IfOk result IsPrintable }
    ensures noted { MayNote options.notes (AreQuoteNotes instance (N.taken notes.old) (N.taken notes.new)) (N.taken notes.old) (N.taken notes.new) }
{
    match feasible(alloc, &instance)? {
        Verdict::All => {
            let before = solve_without_last(alloc, &instance, clock, notes, first_half(options))?;
            let after = solve(alloc, clock, notes, options, &instance)?;
            Ok(Shown::Quoted {
                instance,
                before,
                after,
            })
        }
        Verdict::Blocked { shipment, distance } => Ok(Shown::Infeasible {
            instance,
            shipment,
            time: distance,
        }),
    }
}

/// What a search shows without the last shipment.
pub fn solve_without_last<C: Clock, N: Sink>(
    alloc: Global,
    instance: &Instance,
    clock: &mut C,
    notes: &mut N,
    options: SearchOptions,
) -> Result<Solved, NoMemory>
    requires shipment { 1 ≤ length instance.now.shipments }
    requires exists { PlanExists instance.now }
    requires budget { IsBudget options.budget }
    ensures searched { IfOk result (IsSearched (without_last_of instance.now) every (within options.budget (has_shown options.seconds (C.moment clock.new) (C.faults clock.old) (C.faults clock.new)) options.spans)) }
    ensures later { IsLater (C.moment clock.old) (C.moment clock.new) (C.faults clock.old) (C.faults clock.new) }
    ensures checkable { IfOk result (λ solved. CanBeChecked (without_last_of instance.now) solved.certificate) }
    ensures noted { MayNote options.notes (IsNotedFor (without_last_of instance.now) every (N.taken notes.old) (N.taken notes.new)) (N.taken notes.old) (N.taken notes.new) }
{
    let earlier = without_last(alloc, instance)?;
    match feasible(alloc, &earlier)? {
        Verdict::All => solve(alloc, clock, notes, options, &earlier),
        // A plan of all shipments carries these too.
        Verdict::Blocked { .. } => unreachable!(),
    }
}
