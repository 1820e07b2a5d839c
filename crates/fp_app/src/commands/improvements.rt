//! What `improve` shows.
ghost use Rattle.std.specs.Prelude.{ℕ, ◌≡◌, ◌<◌, ◌≤◌, ◌-◌, ◌^◌, List, Ok, length, IfOk};
ghost use Rattle.fp_ends.specs.Deadlines.{IsLater, has_shown};
ghost use Rattle.fp_flatnet.specs.Belonging.{BelongsTo};
ghost use Rattle.fp_model.specs.declared.limits.TheConstants.{GREATEST_SCALE};
ghost use Rattle.fp_model.specs.Plans.{IsPlan};
ghost use Rattle.fp_records.specs.Fields.{records_of};
ghost use Rattle.fp_session_history.specs.Budgets.{IsBudget};
ghost use Rattle.fp_app_tails.specs.declared.answers.Scale.TheVariants.{Of};
ghost use Rattle.fp_app.specs.CheckInputs.{AreCheckable, CanBeChecked, IsCertifiedInput, IsCertifiedOf};
ghost use Rattle.fp_app.specs.declared.limits.TheConstants.{CHECK_LIMIT};
ghost use Rattle.fp_app.specs.Improvements.{ShowsImprove};
ghost use Rattle.fp_app.specs.Inputs.{CertifiedInstance, OfCertified, certified_at};
ghost use Rattle.fp_app.specs.Notes.{AreImproveNotes, IsNotedFor, MayNote, TookNotes};
ghost use Rattle.fp_app.specs.Runs.{ShowsImproveOf};
ghost use Rattle.fp_app.specs.Searches.{IsSearched, within};
ghost use Rattle.fp_app.specs.Shown.{IsPrintable};
ghost use Rattle.fp_app.specs.TailAnswers.{GivesOfAnswer, ShowsOfAnswer};
ghost use Rattle.fp_app.specs.Wanted.{AreWindowsFor, Wanted, every, every_from};

use crate::commands::checks::{CheckInput, read_lines};
use crate::commands::options::SearchOptions;
use crate::commands::plans::plan_within;
use crate::commands::searches::search_from;
use crate::inputs::instances::{InstanceInput, at_scale};
use crate::inputs::tails::tail_answer;
use crate::{NoMemory, Shown};
use fp_app_tails::{Answered, Scale, answered_after};
use fp_certificate::Certificate;
use fp_checker::Rejected;
use fp_ends::{Clock, Sink};
use fp_flatnet::Windows;
use fp_model::{Instance, Plan};
use fp_records::{Record, records};
use fp_session::Solved;
use std::alloc::{AllocError, Global};

/// What `improve` shows for the bytes of an input, with a budget and a scale within their limits, in the
/// time that there is, and with the option of spans or without it: from the plan of a certificate, or of an
/// answer that follows kept legs or a day that is under way.
pub fn improve_shown<C: Clock, N: Sink>(
    alloc: Global,
    clock: &mut C,
    notes: &mut N,
    options: SearchOptions,
    bytes: Vec<u8>,
    scale: u32,
) -> Result<Shown, NoMemory>
    requires length { length bytes.items ≤ CHECK_LIMIT }
    requires budget { IsBudget options.budget }
    requires scale { (1 ≤ scale) × (scale ≤ GREATEST_SCALE) }
    ensures shown { IfOk result (ShowsImproveOf (within options.budget (has_shown options.seconds (C.moment clock.new) (C.faults clock.old) (C.faults clock.new)) options.spans) scale bytes.items) }
    ensures printable { IfOk result IsPrintable }
    ensures noted { MayNote options.notes (AreImproveNotes scale bytes.items (N.taken notes.old) (N.taken notes.new)) (N.taken notes.old) (N.taken notes.new) }
{
    let lines = records(alloc, &bytes)?;
    drop(bytes);
    match tail_answer(&lines) {
        Some(place) => {
            let shown = improve_after(alloc, clock, notes, options, &lines, place, scale)?;
            Ok(shown)
        }
        None => {
            let shown = improve_alone(alloc, clock, notes, options, &lines, scale)?;
            Ok(shown)
        }
    }
}

// What is shown of the answer at a place, after what is told of an instance.
fn improve_after<C: Clock, N: Sink>(
    alloc: Global,
    clock: &mut C,
    notes: &mut N,
    options: SearchOptions,
    lines: &[Record],
    place: usize,
    scale: u32,
) -> Result<Shown, NoMemory>
    requires place { place ≤ length lines.now }
    requires few { length lines.now < 2 ^ 32 - 1 }
    requires budget { IsBudget options.budget }
    requires scale { (1 ≤ scale) × (scale ≤ GREATEST_SCALE) }
    ensures shown { IfOk result (λ shown. ShowsOfAnswer (Of scale) place lines.now shown (λ p wanted c. ShowsImprove (within options.budget (has_shown options.seconds (C.moment clock.new) (C.faults clock.old) (C.faults clock.new)) options.spans) p wanted c shown)) }
    ensures printable { IfOk result IsPrintable }
    ensures noted { MayNote options.notes (GivesOfAnswer (Of scale) place lines.now (λ p wanted c. IsNotedFor p wanted (N.taken notes.old) (N.taken notes.new))) (N.taken notes.old) (N.taken notes.new) }
{
    match answered_after(alloc, lines, place, Scale::Of { scale })? {
        Answered::Read {
            instance,
            windows,
            certificate,
        } => {
            let shown = search_told(
                alloc,
                clock,
                notes,
                options,
                instance,
                windows,
                &certificate,
            )?;
            Ok(shown)
        }
        Answered::NoPlan => Ok(Shown::RejectedPart { number: 1 }),
        Answered::Fault { ordinal, code } => Ok(Shown::BadInput { ordinal, code }),
    }
}

// What is shown of the certificate that follows an instance alone.
fn improve_alone<C: Clock, N: Sink>(
    alloc: Global,
    clock: &mut C,
    notes: &mut N,
    options: SearchOptions,
    lines: &[Record],
    scale: u32,
) -> Result<Shown, NoMemory>
    requires few { length lines.now < 2 ^ 32 - 1 }
    requires budget { IsBudget options.budget }
    requires scale { (1 ≤ scale) × (scale ≤ GREATEST_SCALE) }
    ensures shown { IfOk result (λ shown. (input : List ℕ) → records_of input ≡ lines.now →
        OfCertified scale input shown (λ x. ShowsImprove (within options.budget (has_shown options.seconds (C.moment clock.new) (C.faults clock.old) (C.faults clock.new)) options.spans) x.instance every x.certificate shown)) }
    ensures printable { IfOk result IsPrintable }
    ensures noted { (input : List ℕ) → records_of input ≡ lines.now →
        MayNote options.notes ((x : CertifiedInstance) × (certified_at scale input ≡ Ok x) × IsNotedFor x.instance every (N.taken notes.old) (N.taken notes.new)) (N.taken notes.old) (N.taken notes.new) }
{
    match read_scaled(alloc, lines, scale)? {
        CheckInput::Both {
            instance,
            certificate,
        } => {
            let windows = Windows::of(alloc, &instance)?;
            let shown = search_told(
                alloc,
                clock,
                notes,
                options,
                instance,
                windows,
                &certificate,
            )?;
            Ok(shown)
        }
        CheckInput::Fault { ordinal, code } => Ok(Shown::BadInput { ordinal, code }),
    }
}

// The instance of records at a scale, and its certificate. Where the records have no fault and the scale
// doesn't fit the instance, the fault has ordinal 0 and code 12.
fn read_scaled(alloc: Global, lines: &[Record], scale: u32) -> Result<CheckInput, NoMemory>
    requires few { length lines.now < 2 ^ 32 - 1 }
    requires scale { (1 ≤ scale) × (scale ≤ GREATEST_SCALE) }
    ensures given { IfOk result (λ given. (input : List ℕ) → records_of input ≡ lines.now → IsCertifiedInput scale input given) }
    ensures checkable { IfOk result AreCheckable }
{
    match read_lines(alloc, lines)? {
        CheckInput::Both {
            instance,
            certificate,
        } => Ok(with_scale(instance, certificate, scale)),
        fault => Ok(fault),
    }
}

// The instance at a scale, with its certificate, or a fault of the input as a whole where the scale
// doesn't fit.
fn with_scale(instance: Instance, certificate: Certificate, scale: u32) -> CheckInput
    requires scale { (1 ≤ scale) × (scale ≤ GREATEST_SCALE) }
    requires checkable { CanBeChecked instance certificate }
    ensures given { IsCertifiedOf scale instance certificate result }
    ensures checkable { AreCheckable result }
{
    match at_scale(instance, scale) {
        InstanceInput::Read { instance } => CheckInput::Both {
            instance,
            certificate,
        },
        InstanceInput::Fault { ordinal, code } => CheckInput::Fault { ordinal, code },
    }
}

// What a search among the wanted plans shows that begins with the plan of a certificate, or the first part of
// it that fails. Which plans are wanted is told by the windows.
fn search_told<C: Clock, N: Sink>(
    alloc: Global,
    clock: &mut C,
    notes: &mut N,
    options: SearchOptions,
    instance: Instance,
    windows: Windows,
    certificate: &Certificate,
) -> Result<Shown, NoMemory>
    requires belongs { BelongsTo instance windows }
    requires checkable { CanBeChecked instance certificate.now }
    requires budget { IsBudget options.budget }
    ensures shown { (wanted : Wanted) → AreWindowsFor instance wanted windows →
        IfOk result (ShowsImprove (within options.budget (has_shown options.seconds (C.moment clock.new) (C.faults clock.old) (C.faults clock.new)) options.spans) instance wanted certificate.now) }
    ensures printable { IfOk result IsPrintable }
    ensures noted { MayNote options.notes (TookNotes instance windows (N.taken notes.old) (N.taken notes.new)) (N.taken notes.old) (N.taken notes.new) }
{
    match plan_within(alloc, &instance, &windows, certificate) {
        Ok(plan) => {
            let solved = search_from(alloc, clock, notes, options, &instance, windows, plan)?;
            Ok(Shown::Planned { instance, solved })
        }
        Err(Rejected::Part { number }) => Ok(Shown::RejectedPart { number }),
        Err(Rejected::NoMemory) => Err(AllocError),
    }
}

/// What a search shows of an instance that begins with this plan, with the option of spans or without it.
pub fn solve_from<C: Clock, N: Sink>(
    alloc: Global,
    clock: &mut C,
    notes: &mut N,
    options: SearchOptions,
    instance: &Instance,
    plan: Plan,
) -> Result<Solved, NoMemory>
    requires plan { IsPlan instance.now 1 plan }
    requires budget { IsBudget options.budget }
    ensures searched { IfOk result (IsSearched instance.now (every_from plan) (within options.budget (has_shown options.seconds (C.moment clock.new) (C.faults clock.old) (C.faults clock.new)) options.spans)) }
    ensures later { IsLater (C.moment clock.old) (C.moment clock.new) (C.faults clock.old) (C.faults clock.new) }
    ensures checkable { IfOk result (λ solved. CanBeChecked instance.now solved.certificate) }
    ensures noted { MayNote options.notes (IsNotedFor instance.now every (N.taken notes.old) (N.taken notes.new)) (N.taken notes.old) (N.taken notes.new) }
{
    let windows = Windows::of(alloc, instance)?;
    search_from(alloc, clock, notes, options, instance, windows, plan)
}
