//! What `quote` shows of a shipment by its name.
ghost use Rattle.std.specs.Prelude.{ℕ, ◌≡◌, ◌≤◌, ◌<◌, List, Ok, Some, length, IfOk};
ghost use Rattle.fp_ends.specs.Deadlines.{has_shown};
ghost use Rattle.fp_model.specs.Plans.{IsPlan, PlanExists};
ghost use Rattle.fp_model.specs.Problem.{Problem};
ghost use Rattle.fp_flatnet.specs.Directs.{IsDirectPlan};
ghost use Rattle.fp_records_fields.specs.NamedParts.{shipment_named};
ghost use Rattle.fp_certificate_rules.specs.Plans.{routes_of};
ghost use Rattle.fp_session_history.specs.Budgets.{IsBudget};
ghost use Rattle.fp_replan.specs.Quotes.{without_last as without_last_of};
ghost use Rattle.fp_replan_quotes.specs.LastShipments.{with_last as with_last_of};
ghost use Rattle.fp_app.specs.CheckInputs.{CanBeChecked};
ghost use Rattle.fp_app.specs.declared.limits.TheConstants.{INSTANCE_LIMIT};
ghost use Rattle.fp_app_words.specs.TimeLimits.{halved};
ghost use Rattle.fp_app.specs.Inputs.{OfNamed, named_in};
ghost use Rattle.fp_app.specs.NamedInputs.{IsNamedInput, IsNamedNumber, ShowsLastQuote};
ghost use Rattle.fp_app.specs.NamedQuotes.{ShowsNamedQuote};
ghost use Rattle.fp_app.specs.Notes.{AreQuoteNotes, MayNote};
ghost use Rattle.fp_app.specs.Plans.{TellsTimetable};
ghost use Rattle.fp_app.specs.Searches.{within};
ghost use Rattle.fp_app.specs.Shown.{IsPrintable};
ghost use Rattle.fp_app.specs.Wanted.{every};

use crate::commands::improvements::solve_from;
use crate::commands::options::SearchOptions;
use crate::commands::plans::told_plan;
use crate::commands::quotes::{first_half, solve_without_last};
use crate::inputs::instances::{InstanceInput, read_instance};
use crate::{NameWord, NoMemory, Shown};
use fp_checker::Rejected;
use fp_ends::{Clock, Sink};
use fp_flatnet::{Verdict, direct, feasible};
use fp_model::{Instance, Plan};
use fp_replan::without_last;
use fp_replan_quotes::{added, number_named, start_with, with_last};
use fp_session::Solved;
use std::alloc::{AllocError, Global};

/// What an input gives that is an instance alone with a shipment of a name.
#[derive(Drop)]
pub enum NamedInput {
    /// An instance, and the number of the shipment.
    Read { instance: Instance, number: u32 },
    /// The first fault of its records, or that no shipment has the name.
    Fault { ordinal: u32, code: u32 },
}

/// What `quote` shows of the shipment of a name for the bytes of an input, with a budget within its limits,
/// in the time that there is, of which the first search has half, and with the option of spans or without
/// it.
pub fn named_quote_shown<C: Clock, N: Sink>(
    alloc: Global,
    clock: &mut C,
    notes: &mut N,
    options: SearchOptions,
    bytes: Vec<u8>,
    name: &NameWord,
) -> Result<Shown, NoMemory>
    requires length { length bytes.items ≤ INSTANCE_LIMIT }
    requires budget { IsBudget options.budget }
    ensures shown { IfOk result (λ shown. OfNamed name.now bytes.items shown (λ p. ShowsNamedQuote (within options.budget (has_shown (halved options.seconds) (C.moment clock.new) (C.faults clock.old) (C.faults clock.new)) options.spans) name.now p shown)) }
    ensures printable { IfOk result IsPrintable }
    ensures noted { MayNote options.notes ((p : Problem) × (k : ℕ) × (named_in name.now bytes.items ≡ Ok p) × (shipment_named p name.now ≡ Some k) × AreQuoteNotes (with_last_of p k) (N.taken notes.old) (N.taken notes.new)) (N.taken notes.old) (N.taken notes.new) }
{
    match read_named(alloc, bytes, name)? {
        NamedInput::Read { instance, number } => {
            quote_number(alloc, clock, notes, options, instance, number)
        }
        NamedInput::Fault { ordinal, code } => Ok(Shown::BadInput { ordinal, code }),
    }
}

// The instance of an input that has a shipment of a name. Where the records have no fault and no shipment has
// the name, the fault has ordinal 0 and code 38.
fn read_named(alloc: Global, bytes: Vec<u8>, name: &NameWord) -> Result<NamedInput, NoMemory>
    requires { length bytes.items ≤ INSTANCE_LIMIT }
    ensures { IfOk result (IsNamedInput name.now bytes.items) }
{
    match read_instance(alloc, bytes)? {
        InstanceInput::Read { instance } => with_named(alloc, instance, name),
        InstanceInput::Fault { ordinal, code } => Ok(NamedInput::Fault { ordinal, code }),
    }
}

// The instance with the number of the shipment of a name, or a fault of the input as a whole.
fn with_named(alloc: Global, instance: Instance, name: &NameWord) -> Result<NamedInput, NoMemory>
    ensures { IfOk result (IsNamedNumber name.now instance) }
{
    match number_named(alloc, &instance, name.bytes())? {
        Some(number) => Ok(NamedInput::Read { instance, number }),
        None => Ok(NamedInput::Fault {
            ordinal: 0,
            code: 38,
        }),
    }
}

// What the shipment of a number adds to the cost, or the first shipment that can't be carried in time.
fn quote_number<C: Clock, N: Sink>(
    alloc: Global,
    clock: &mut C,
    notes: &mut N,
    options: SearchOptions,
    instance: Instance,
    number: u32,
) -> Result<Shown, NoMemory>
    requires number { number < length instance.shipments }
    requires budget { IsBudget options.budget }
    ensures shown { IfOk result (λ shown. (name : List ℕ) → shipment_named instance name ≡ Some number → ShowsNamedQuote (within options.budget (has_shown (halved options.seconds) (C.moment clock.new) (C.faults clock.old) (C.faults clock.new)) options.spans) name instance shown) }
    ensures printable { IfOk result IsPrintable }
    ensures noted { MayNote options.notes (AreQuoteNotes (with_last_of instance number) (N.taken notes.old) (N.taken notes.new)) (N.taken notes.old) (N.taken notes.new) }
{
    match feasible(alloc, &instance)? {
        Verdict::All => {
            let moved = with_last(alloc, &instance, number)?;
            quote_moved(alloc, clock, notes, options, moved)
        }
        Verdict::Blocked { shipment, distance } => Ok(Shown::Infeasible {
            instance,
            shipment,
            time: distance,
        }),
    }
}

// What the last shipment adds to the cost and between the plans in hand, by a search without it and one that
// begins with the first one's plan with the shipment put in.
fn quote_moved<C: Clock, N: Sink>(
    alloc: Global,
    clock: &mut C,
    notes: &mut N,
    options: SearchOptions,
    instance: Instance,
) -> Result<Shown, NoMemory>
    requires shipment { 1 ≤ length instance.shipments }
    requires exists { PlanExists instance }
    requires budget { IsBudget options.budget }
    ensures shown { IfOk result (ShowsLastQuote (within options.budget (has_shown (halved options.seconds) (C.moment clock.new) (C.faults clock.old) (C.faults clock.new)) options.spans) instance) }
    ensures printable { IfOk result IsPrintable }
    ensures noted { MayNote options.notes (AreQuoteNotes instance (N.taken notes.old) (N.taken notes.new)) (N.taken notes.old) (N.taken notes.new) }
{
    let before = solve_without_last(alloc, &instance, clock, notes, first_half(options))?;
    let earlier = plan_without_last(alloc, &instance, &before)?;
    let copy = earlier.copy(alloc)?;
    let fastest = fastest_plan(alloc, &instance)?;
    let start = start_with(alloc, &instance, copy, fastest)?;
    let after = solve_from(alloc, clock, notes, options, &instance, start)?;
    let plan = searched_plan(alloc, &instance, &after)?;
    let more = added(alloc, &instance, &earlier, &plan)?;
    Ok(Shown::NamedQuote {
        instance,
        before,
        after,
        added: more,
    })
}

// The direct plan of an instance of which a plan exists.
fn fastest_plan(alloc: Global, instance: &Instance) -> Result<Plan, NoMemory>
    requires { PlanExists instance.now }
    ensures plan { IfOk result (IsPlan instance.now 1) }
    ensures exact { IfOk result (IsDirectPlan instance.now) }
{
    match feasible(alloc, instance)? {
        Verdict::All => direct(alloc, instance),
        // A plan carries all of them.
        Verdict::Blocked { .. } => unreachable!(),
    }
}

// The plan of a search without the last shipment.
fn plan_without_last(alloc: Global, instance: &Instance, solved: &Solved) -> Result<Plan, NoMemory>
    requires shipment { 1 ≤ length instance.now.shipments }
    requires checkable { CanBeChecked (without_last_of instance.now) solved.now.certificate }
    requires tells { TellsTimetable (without_last_of instance.now) every solved.now.certificate }
    ensures routes { IfOk result (λ plan. plan ≡ routes_of (without_last_of instance.now) solved.now.certificate) }
    ensures plan { IfOk result (IsPlan (without_last_of instance.now) 1) }
{
    let earlier = without_last(alloc, instance)?;
    searched_plan(alloc, &earlier, solved)
}

// The plan of a search.
fn searched_plan(alloc: Global, instance: &Instance, solved: &Solved) -> Result<Plan, NoMemory>
    requires checkable { CanBeChecked instance.now solved.now.certificate }
    requires tells { TellsTimetable instance.now every solved.now.certificate }
    ensures routes { IfOk result (λ plan. plan ≡ routes_of instance.now solved.now.certificate) }
    ensures plan { IfOk result (IsPlan instance.now 1) }
{
    match told_plan(alloc, instance, &solved.certificate) {
        Ok(plan) => Ok(plan),
        Err(Rejected::Part { .. }) => unreachable!(),
        Err(Rejected::NoMemory) => Err(AllocError),
    }
}
