//! What `plan` shows.
ghost use Rattle.std.specs.Prelude.{◌≡◌, ◌≤◌, ⊤, None, Ok, length, IfOk, IfSome, IsSomeAnd, OnOk};
ghost use Rattle.fp_ends.specs.Deadlines.{IsLater, has_shown};
ghost use Rattle.fp_flatnet.specs.Belonging.{BelongsTo};
ghost use Rattle.fp_flatnet.specs.Tables.{windows_in};
ghost use Rattle.fp_flatnet.specs.Verdicts.{AllInTime};
ghost use Rattle.fp_flatnet.specs.Windows.{PlanLiesWithin};
ghost use Rattle.fp_session_history.specs.Budgets.{IsBudget};
ghost use Rattle.fp_session_history.specs.Solutions.{IsTimely};
ghost use Rattle.fp_session.specs.Sessions.{hand_of};
ghost use Rattle.fp_session.specs.Steps.{StayFixed};
ghost use Rattle.fp_model.specs.Problem.{Problem};
ghost use Rattle.fp_model.specs.declared.limits.TheConstants.{GREATEST_SCALE};
ghost use Rattle.fp_model.specs.Plans.{IsPlan};
ghost use Rattle.fp_app.specs.CheckInputs.{CanBeChecked};
ghost use Rattle.fp_app.specs.Inputs.{OfScaled, instance_at};
ghost use Rattle.fp_app.specs.Notes.{IsNotedFor, MayNote, TookNotes};
ghost use Rattle.fp_app.specs.declared.limits.TheConstants.{INSTANCE_LIMIT};
ghost use Rattle.fp_app.specs.Runs.{ShowsSearch};
ghost use Rattle.fp_app.specs.Searches.{IsSearched, within};
ghost use Rattle.fp_app.specs.Shown.{IsPrintable};
ghost use Rattle.fp_app.specs.Wanted.{AreWindowsFor, IsFirstPlan, Wanted, every};

use crate::commands::options::SearchOptions;
use crate::inputs::instances::{InstanceInput, read_scaled};
use crate::notes::{Noted, look};
use crate::{NoMemory, Shown};
use fp_certificate::written_reads_back;
use fp_certificate_lines::texts_are_short;
use fp_ends::{Clock, Sink};
use fp_flatnet::{Verdict, Windows, direct, feasible};
use fp_model::{Instance, Plan};
use fp_session::{Session, Solved};
use std::alloc::Global;

/// What `plan` shows for the bytes of an input, with a budget and a scale within their limits, in the
/// time that there is, and with the option of spans or without it.
pub fn plan_shown<C: Clock, N: Sink>(
    alloc: Global,
    clock: &mut C,
    notes: &mut N,
    options: SearchOptions,
    bytes: Vec<u8>,
    scale: u32,
) -> Result<Shown, NoMemory>
    requires length { length bytes.items ≤ INSTANCE_LIMIT }
    requires budget { IsBudget options.budget }
    requires scale { (1 ≤ scale) × (scale ≤ GREATEST_SCALE) }
    ensures shown { IfOk result (λ shown. OfScaled scale bytes.items shown (λ p. ShowsSearch (within options.budget (has_shown options.seconds (C.moment clock.new) (C.faults clock.old) (C.faults clock.new)) options.spans) p shown)) }
    ensures printable { IfOk result IsPrintable }
    ensures noted { MayNote options.notes ((p : Problem) × (instance_at scale bytes.items ≡ Ok p) × IsNotedFor p every (N.taken notes.old) (N.taken notes.new)) (N.taken notes.old) (N.taken notes.new) }
{
    match read_scaled(alloc, bytes, scale)? {
        InstanceInput::Read { instance } => search_plans(alloc, clock, notes, options, instance),
        InstanceInput::Fault { ordinal, code } => Ok(Shown::BadInput { ordinal, code }),
    }
}

// What a search shows of an instance, or the first shipment that can't be carried in time.
fn search_plans<C: Clock, N: Sink>(
    alloc: Global,
    clock: &mut C,
    notes: &mut N,
    options: SearchOptions,
    instance: Instance,
) -> Result<Shown, NoMemory>
    requires { IsBudget options.budget }
    ensures shown { IfOk result (ShowsSearch (within options.budget (has_shown options.seconds (C.moment clock.new) (C.faults clock.old) (C.faults clock.new)) options.spans) instance) }
    ensures printable { IfOk result IsPrintable }
    ensures noted { MayNote options.notes (IsNotedFor instance every (N.taken notes.old) (N.taken notes.new)) (N.taken notes.old) (N.taken notes.new) }
{
    match feasible(alloc, &instance)? {
        Verdict::All => {
            let solved = solve(alloc, clock, notes, options, &instance)?;
            Ok(Shown::Planned { instance, solved })
        }
        Verdict::Blocked { shipment, distance } => Ok(Shown::Infeasible {
            instance,
            shipment,
            time: distance,
        }),
    }
}

/// What a search shows of an instance that begins with the direct plan, with the option of spans or
/// without it.
pub fn solve<C: Clock, N: Sink>(
    alloc: Global,
    clock: &mut C,
    notes: &mut N,
    options: SearchOptions,
    instance: &Instance,
) -> Result<Solved, NoMemory>
    requires time { AllInTime instance.now }
    requires budget { IsBudget options.budget }
    ensures searched { IfOk result (IsSearched instance.now every (within options.budget (has_shown options.seconds (C.moment clock.new) (C.faults clock.old) (C.faults clock.new)) options.spans)) }
    ensures later { IsLater (C.moment clock.old) (C.moment clock.new) (C.faults clock.old) (C.faults clock.new) }
    ensures checkable { IfOk result (λ solved. CanBeChecked instance.now solved.certificate) }
    ensures noted { MayNote options.notes (IsNotedFor instance.now every (N.taken notes.old) (N.taken notes.new)) (N.taken notes.old) (N.taken notes.new) }
{
    let windows = Windows::of(alloc, instance)?;
    let start = direct(alloc, instance)?;
    search_from(alloc, clock, notes, options, instance, windows, start)
}

/// What a search shows that begins with a plan within the windows, with the option of spans or
/// without it. Which plans it looks for is told by the windows and by that plan.
pub fn search_from<C: Clock, N: Sink>(
    alloc: Global,
    clock: &mut C,
    notes: &mut N,
    options: SearchOptions,
    instance: &Instance,
    windows: Windows,
    start: Plan,
) -> Result<Solved, NoMemory>
    requires belongs { BelongsTo instance.now windows }
    requires plan { IsPlan instance.now 1 start }
    requires within { PlanLiesWithin (windows_in windows) 1 start }
    requires budget { IsBudget options.budget }
    ensures searched { (wanted : Wanted) → AreWindowsFor instance.now wanted windows → IsFirstPlan instance.now wanted start →
        IfOk result (IsSearched instance.now wanted (within options.budget (has_shown options.seconds (C.moment clock.new) (C.faults clock.old) (C.faults clock.new)) options.spans)) }
    ensures later { IsLater (C.moment clock.old) (C.moment clock.new) (C.faults clock.old) (C.faults clock.new) }
    ensures checkable { IfOk result (λ solved. CanBeChecked instance.now solved.certificate) }
    ensures noted { MayNote options.notes (TookNotes instance.now windows (N.taken notes.old) (N.taken notes.new)) (N.taken notes.old) (N.taken notes.new) }
{
    // What is shown can be read again, and its text is short.
    written_reads_back(instance);
    texts_are_short(instance);
    let instance = instance.copy(alloc)?;
    let budget = options.budget;
    let mut session = if options.spans {
        Session::with_spans(alloc, instance, windows, start, budget)?
    } else {
        Session::new(alloc, instance, windows, start, budget)?
    };
    finish(alloc, clock, notes, options, &mut session)?;
    let solved = session.solved(alloc)?;
    Ok(solved)
}

// Goes on until a search has ended, and notes it at first, after each step, and between.
fn finish<C: Clock, N: Sink>(
    alloc: Global,
    clock: &mut C,
    notes: &mut N,
    options: SearchOptions,
    session: &mut Session,
) -> Result<(), NoMemory>
    requires { session.old.left ≡ None }
    ensures fixed { StayFixed (hand_of session.old) (hand_of session.new) }
    ensures unit { session.new.prices.unit ≡ session.old.prices.unit }
    ensures ended { OnOk result (IsSomeAnd session.new.left (λ left. ⊤)) }
    ensures timed { IfSome session.new.left (IsTimely (has_shown options.seconds (C.moment clock.new) (C.faults clock.old) (C.faults clock.new))) }
    ensures later { IsLater (C.moment clock.old) (C.moment clock.new) (C.faults clock.old) (C.faults clock.new) }
    ensures noted { MayNote options.notes (TookNotes session.old.instance session.old.windows (N.taken notes.old) (N.taken notes.new)) (N.taken notes.old) (N.taken notes.new) }
{
    let begun = Noted {
        is_open: options.notes,
        last: None,
        looks: 0,
    };
    let mut state = look(alloc, session, notes, begun);
    while !session.has_ended() {
        session.go_on_within(alloc, clock, options.seconds)?;
        state = look(alloc, session, notes, state);
    }
    Ok(())
}
