//! What `fleet` shows.
ghost use Rattle.std.specs.Prelude.{ℕ, ◌≡◌, ◌<◌, ◌≤◌, ◌-◌, ◌^◌, List, length, IfOk};
ghost use Rattle.fp_flatnet.specs.Belonging.{BelongsTo};
ghost use Rattle.fp_records.specs.Fields.{records_of};
ghost use Rattle.fp_app_tails.specs.declared.answers.Scale.TheVariants.{Usual};
ghost use Rattle.fp_app.specs.CheckInputs.{CanBeChecked};
ghost use Rattle.fp_app.specs.Fleets.{ShowsFleet};
ghost use Rattle.fp_app.specs.Inputs.{OfCertificate};
ghost use Rattle.fp_app.specs.Runs.{ShowsFleetOf};
ghost use Rattle.fp_app.specs.declared.limits.TheConstants.{CHECK_LIMIT};
ghost use Rattle.fp_app.specs.Shown.{IsPrintable};
ghost use Rattle.fp_app.specs.TailAnswers.{ShowsOfAnswer};
ghost use Rattle.fp_app.specs.Wanted.{AreWindowsFor, Wanted, every};

use crate::commands::checks::{CheckInput, read_lines};
use crate::commands::plans::plan_within;
use crate::inputs::tails::tail_answer;
use crate::{NoMemory, Shown};
use fp_app_tails::{Answered, Scale, answered_after};
use fp_certificate::Certificate;
use fp_checker::Rejected;
use fp_flatnet::Windows;
use fp_fleet::{fewest, truck_days};
use fp_model::Instance;
use fp_records::{Record, records};
use std::alloc::{AllocError, Global};

/// What `fleet` shows for the bytes of an input, with what each truck runs or without it: of the plan of a
/// certificate, or of an answer that follows kept legs or a day that is under way.
pub fn fleet_shown(alloc: Global, bytes: Vec<u8>, trucks: bool) -> Result<Shown, NoMemory>
    requires { length bytes.items ≤ CHECK_LIMIT }
    ensures shown { IfOk result (ShowsFleetOf trucks bytes.items) }
    ensures printable { IfOk result IsPrintable }
{
    let lines = records(alloc, &bytes)?;
    drop(bytes);
    match tail_answer(&lines) {
        Some(place) => {
            let shown = fleet_after(alloc, &lines, place, trucks)?;
            Ok(shown)
        }
        None => {
            let shown = fleet_alone(alloc, &lines, trucks)?;
            Ok(shown)
        }
    }
}

// What is shown of the answer at a place, after what is told of an instance.
fn fleet_after(
    alloc: Global,
    lines: &[Record],
    place: usize,
    trucks: bool,
) -> Result<Shown, NoMemory>
    requires place { place ≤ length lines.now }
    requires few { length lines.now < 2 ^ 32 - 1 }
    ensures shown { IfOk result (λ shown. ShowsOfAnswer Usual place lines.now shown (λ p wanted c. ShowsFleet trucks p wanted c shown)) }
    ensures printable { IfOk result IsPrintable }
{
    match answered_after(alloc, lines, place, Scale::Usual)? {
        Answered::Read {
            instance,
            windows,
            certificate,
        } => {
            let shown = plan_fleet(alloc, instance, &windows, &certificate, trucks)?;
            Ok(shown)
        }
        Answered::NoPlan => Ok(Shown::RejectedPart { number: 1 }),
        Answered::Fault { ordinal, code } => Ok(Shown::BadInput { ordinal, code }),
    }
}

// What is shown of the certificate that follows an instance alone.
fn fleet_alone(alloc: Global, lines: &[Record], trucks: bool) -> Result<Shown, NoMemory>
    requires { length lines.now < 2 ^ 32 - 1 }
    ensures shown { IfOk result (λ shown. (input : List ℕ) → records_of input ≡ lines.now → OfCertificate input shown (λ p c. ShowsFleet trucks p every c shown)) }
    ensures printable { IfOk result IsPrintable }
{
    match read_lines(alloc, lines)? {
        CheckInput::Both {
            instance,
            certificate,
        } => {
            let windows = Windows::of(alloc, &instance)?;
            let shown = plan_fleet(alloc, instance, &windows, &certificate, trucks)?;
            Ok(shown)
        }
        CheckInput::Fault { ordinal, code } => Ok(Shown::BadInput { ordinal, code }),
    }
}

// The plan that a certificate tells under the windows of the wanted plans, with its fewest trucks, or the
// first part that fails.
fn plan_fleet(
    alloc: Global,
    instance: Instance,
    windows: &Windows,
    certificate: &Certificate,
    trucks: bool,
) -> Result<Shown, NoMemory>
    requires belongs { BelongsTo instance windows.now }
    requires checked { CanBeChecked instance certificate.now }
    ensures shown { (wanted : Wanted) → AreWindowsFor instance wanted windows.now → IfOk result (ShowsFleet trucks instance wanted certificate.now) }
    ensures printable { IfOk result IsPrintable }
{
    match plan_within(alloc, &instance, windows, certificate) {
        Ok(plan) => {
            let fleet = fewest(alloc, &instance, &plan)?;
            if !trucks {
                return Ok(Shown::Fleet {
                    instance,
                    plan,
                    fleet,
                });
            }
            let told = truck_days(alloc, &instance, &plan, &fleet)?;
            Ok(Shown::Trucks {
                instance,
                plan,
                fleet,
                told,
            })
        }
        Err(Rejected::Part { number }) => Ok(Shown::RejectedPart { number }),
        Err(Rejected::NoMemory) => Err(AllocError),
    }
}
