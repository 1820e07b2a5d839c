//! What `yard` shows.
ghost use Rattle.std.specs.Prelude.{ℕ, ◌≡◌, ◌<◌, ◌≤◌, ◌-◌, ◌^◌, List, length, IfOk};
ghost use Rattle.fp_flatnet.specs.Belonging.{BelongsTo};
ghost use Rattle.fp_model.specs.Plans.{IsPlan};
ghost use Rattle.fp_records.specs.Fields.{records_of};
ghost use Rattle.fp_app_tails.specs.declared.answers.Scale.TheVariants.{Usual};
ghost use Rattle.fp_app.specs.CheckInputs.{CanBeChecked};
ghost use Rattle.fp_app.specs.Inputs.{OfCertificate};
ghost use Rattle.fp_app.specs.Runs.{ShowsYardOf};
ghost use Rattle.fp_app.specs.declared.limits.TheConstants.{CHECK_LIMIT};
ghost use Rattle.fp_app.specs.Shown.{IsPrintable};
ghost use Rattle.fp_app.specs.TailAnswers.{ShowsOfAnswer};
ghost use Rattle.fp_app.specs.Wanted.{AreWindowsFor, Wanted, every};
ghost use Rattle.fp_app.specs.Yards.{IsDrawnLog, ShowsYard};

use crate::commands::checks::{CheckInput, read_lines};
use crate::commands::plans::plan_within;
use crate::inputs::tails::tail_answer;
use crate::{NoMemory, Shown};
use fp_app_tails::{Answered, Scale, answered_after};
use fp_certificate::Certificate;
use fp_checker::Rejected;
use fp_flatnet::Windows;
use fp_model::{Instance, Plan};
use fp_records::{Record, records};
use fp_yard::{Event, Yard, drive};
use std::alloc::{AllocError, Global};

/// What `yard` shows for the bytes of an input, with draws from a seed within its limit: of the plan of a
/// certificate, or of an answer that follows kept legs or a day that is under way.
pub fn yard_shown(alloc: Global, bytes: Vec<u8>, seed: u32) -> Result<Shown, NoMemory>
    requires length { length bytes.items ≤ CHECK_LIMIT }
    requires seed { seed ≤ 2147483647 }
    ensures shown { IfOk result (ShowsYardOf seed bytes.items) }
    ensures printable { IfOk result IsPrintable }
{
    let lines = records(alloc, &bytes)?;
    drop(bytes);
    match tail_answer(&lines) {
        Some(place) => {
            let shown = yard_after(alloc, &lines, place, seed)?;
            Ok(shown)
        }
        None => {
            let shown = yard_alone(alloc, &lines, seed)?;
            Ok(shown)
        }
    }
}

// What is shown of the answer at a place, after what is told of an instance.
fn yard_after(alloc: Global, lines: &[Record], place: usize, seed: u32) -> Result<Shown, NoMemory>
    requires place { place ≤ length lines.now }
    requires few { length lines.now < 2 ^ 32 - 1 }
    requires seed { seed ≤ 2147483647 }
    ensures shown { IfOk result (λ shown. ShowsOfAnswer Usual place lines.now shown (λ p wanted c. ShowsYard seed p wanted c shown)) }
    ensures printable { IfOk result IsPrintable }
{
    match answered_after(alloc, lines, place, Scale::Usual)? {
        Answered::Read {
            instance,
            windows,
            certificate,
        } => {
            let shown = run_plan(alloc, instance, &windows, &certificate, seed)?;
            Ok(shown)
        }
        Answered::NoPlan => Ok(Shown::RejectedPart { number: 1 }),
        Answered::Fault { ordinal, code } => Ok(Shown::BadInput { ordinal, code }),
    }
}

// What is shown of the certificate that follows an instance alone.
fn yard_alone(alloc: Global, lines: &[Record], seed: u32) -> Result<Shown, NoMemory>
    requires few { length lines.now < 2 ^ 32 - 1 }
    requires seed { seed ≤ 2147483647 }
    ensures shown { IfOk result (λ shown. (input : List ℕ) → records_of input ≡ lines.now → OfCertificate input shown (λ p c. ShowsYard seed p every c shown)) }
    ensures printable { IfOk result IsPrintable }
{
    match read_lines(alloc, lines)? {
        CheckInput::Both {
            instance,
            certificate,
        } => {
            let windows = Windows::of(alloc, &instance)?;
            let shown = run_plan(alloc, instance, &windows, &certificate, seed)?;
            Ok(shown)
        }
        CheckInput::Fault { ordinal, code } => Ok(Shown::BadInput { ordinal, code }),
    }
}

// The plan that a certificate tells under the windows of the wanted plans, run to its end, or the first part
// that fails.
fn run_plan(
    alloc: Global,
    instance: Instance,
    windows: &Windows,
    certificate: &Certificate,
    seed: u32,
) -> Result<Shown, NoMemory>
    requires belongs { BelongsTo instance windows.now }
    requires checked { CanBeChecked instance certificate.now }
    requires seed { seed ≤ 2147483647 }
    ensures shown { (wanted : Wanted) → AreWindowsFor instance wanted windows.now → IfOk result (ShowsYard seed instance wanted certificate.now) }
    ensures printable { IfOk result IsPrintable }
{
    match plan_within(alloc, &instance, windows, certificate) {
        Ok(plan) => {
            let log = drawn_log(alloc, &instance, &plan, seed)?;
            Ok(Shown::Yard {
                instance,
                plan,
                log,
            })
        }
        Err(Rejected::Part { number }) => Ok(Shown::RejectedPart { number }),
        Err(Rejected::NoMemory) => Err(AllocError),
    }
}

// What happens as draws from a seed choose, until all lines have arrived.
fn drawn_log(
    alloc: Global,
    instance: &Instance,
    plan: &Plan,
    seed: u32,
) -> Result<Vec<Event>, NoMemory>
    requires plan { IsPlan instance.now 1 plan.now }
    requires seed { seed ≤ 2147483647 }
    ensures { IfOk result (λ log. IsDrawnLog instance.now plan.now seed log.items) }
{
    let yard = Yard::new(alloc, instance, plan)?;
    let run = drive(alloc, yard, seed)?;
    let _count = run.lines();
    let log = run.history().to_vec(alloc)?;
    Ok(log)
}
