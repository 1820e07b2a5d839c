//! What `check` says of an answer that follows kept legs or a day that is under way.
ghost use Rattle.std.specs.Prelude.{◌+◌, ◌<◌, ◌≤◌, ◌-◌, ◌^◌, drop, length, IfOk};
ghost use Rattle.fp_flatnet.specs.Belonging.{BelongsTo};
ghost use Rattle.fp_certificate.specs.Reading.{certificate_of};
ghost use Rattle.fp_app_tails.specs.Ahead.{CanBeTold, ahead_problem};
ghost use Rattle.fp_app_tails.specs.StuckAnswers.{stuck_from};
ghost use Rattle.fp_app_tails.specs.Duties.{duty_of};
ghost use Rattle.fp_app_tails.specs.Verdicts.{CanBeTested, IsCertificateSaid, IsNamedSaid, IsStuckVerdict, IsTested, IsVerdict, IsVerdictAhead};

use crate::NoMemory;
use crate::ahead::{Ahead, Told, ahead_of};
use crate::answers::{Answered, Scale, certificate_answer};
use crate::inputs::{TailInput, read_tail};
use crate::stuck_answers::{StuckAnswer, is_stuck_at, read_stuck};
use fp_certificate::{Answer, Certificate};
use fp_checker::{Rejected, check};
use fp_flatnet::Windows;
use fp_model::Instance;
use fp_records::Record;
use std::alloc::{AllocError, Global};

/// What is said of an answer.
#[derive(Clone, Copy, Debug, PartialEq, Eq)]
pub enum Verdict {
    /// It is accepted: a certificate with this answer, or that no plan goes on, where there is none.
    Accepted { answer: Option<Answer> },
    /// It isn't, and this is the number of the first part that fails: those of a certificate; 1 also where
    /// no plan goes on; 8 also where the shipment that is named isn't the first that is stuck.
    Rejected { number: u32 },
    /// The first fault of the records.
    Fault { ordinal: u32, code: u32 },
}

// What is said of the answer that a shipment is the first that is stuck.
fn stuck_verdict(ahead: &Ahead, named: u32) -> Verdict
    ensures { IsStuckVerdict ahead.now named result }
{
    match ahead {
        Ahead::Stuck { shipment } if *shipment == named => Verdict::Accepted { answer: None },
        _ => Verdict::Rejected { number: 8 },
    }
}

// What is said of a certificate under windows.
fn tested(
    alloc: Global,
    instance: &Instance,
    windows: &Windows,
    certificate: &Certificate,
) -> Result<Verdict, NoMemory>
    requires belongs { BelongsTo instance.now windows.now }
    requires tested { CanBeTested instance.now certificate.now }
    ensures { IfOk result (IsTested instance.now windows.now certificate.now) }
{
    match check(alloc, instance, windows, certificate) {
        Ok(()) => Ok(Verdict::Accepted {
            answer: Some(certificate.answer),
        }),
        Err(Rejected::Part { number }) => Ok(Verdict::Rejected { number }),
        Err(Rejected::NoMemory) => Err(AllocError),
    }
}

// What is said of the certificate at a place, at the scale that it names.
fn certificate_verdict(
    alloc: Global,
    whole: Instance,
    told: &Told,
    lines: &[Record],
    place: usize,
) -> Result<Verdict, NoMemory>
    requires told { CanBeTold whole (duty_of told.now) }
    requires place { place ≤ length lines.now }
    requires few { length lines.now < 2 ^ 32 - 1 }
    ensures { IfOk result (IsCertificateSaid whole (duty_of told.now) (certificate_of (ahead_problem whole (duty_of told.now)) (place + 1) (drop place lines.now))) }
{
    match certificate_answer(alloc, whole, told, lines, place, Scale::Named)? {
        Answered::Read {
            instance,
            windows,
            certificate,
        } => {
            let said = tested(alloc, &instance, &windows, &certificate)?;
            Ok(said)
        }
        Answered::NoPlan => Ok(Verdict::Rejected { number: 1 }),
        Answered::Fault { ordinal, code } => Ok(Verdict::Fault { ordinal, code }),
    }
}

// What is said of the answer at a place that no plan goes on.
fn stuck_said(
    alloc: Global,
    instance: &Instance,
    told: &Told,
    lines: &[Record],
    place: usize,
) -> Result<Verdict, NoMemory>
    requires told { CanBeTold instance.now (duty_of told.now) }
    requires place { place < length lines.now }
    requires few { length lines.now < 2 ^ 32 - 1 }
    ensures { IfOk result (IsNamedSaid instance.now (duty_of told.now) (stuck_from instance.now (place + 1) (drop place lines.now))) }
{
    let ahead = ahead_of(alloc, instance, told)?;
    match read_stuck(alloc, instance, lines, place)? {
        StuckAnswer::Of { shipment } => Ok(stuck_verdict(&ahead, shipment)),
        StuckAnswer::Fault { ordinal, code } => Ok(Verdict::Fault { ordinal, code }),
    }
}

// What is said of the answer at a place, after what is told of an instance.
fn told_verdict(
    alloc: Global,
    instance: Instance,
    told: &Told,
    lines: &[Record],
    place: usize,
) -> Result<Verdict, NoMemory>
    requires told { CanBeTold instance (duty_of told.now) }
    requires place { place ≤ length lines.now }
    requires few { length lines.now < 2 ^ 32 - 1 }
    ensures { IfOk result (IsVerdictAhead instance (duty_of told.now) place lines.now) }
{
    if is_stuck_at(lines, place) {
        let said = stuck_said(alloc, &instance, told, lines, place)?;
        return Ok(said);
    }
    let said = certificate_verdict(alloc, instance, told, lines, place)?;
    Ok(said)
}

/// What is said of the answer at a place, by the kept legs or the day that the records before it tell
/// after those of their instance.
///
/// An answer that no plan goes on is accepted exactly where none does, and where it names the first
/// shipment that is stuck. A certificate is tested for what is to be planned, at the scale that it
/// names, under the windows of the plans that keep the legs or go on with the day; it is rejected
/// where none does. `NoMemory` only where no memory is found.
pub fn verdict_after(alloc: Global, lines: &[Record], place: usize) -> Result<Verdict, NoMemory>
    requires place { place ≤ length lines.now }
    requires few { length lines.now < 2 ^ 32 - 1 }
    ensures { IfOk result (IsVerdict place lines.now) }
{
    match read_tail(alloc, &lines[..place])? {
        TailInput::Kept { instance, kept } => {
            let said = told_verdict(alloc, instance, &Told::Kept { kept }, lines, place)?;
            Ok(said)
        }
        TailInput::Day { instance, present } => {
            let said = told_verdict(alloc, instance, &Told::Day { present }, lines, place)?;
            Ok(said)
        }
        TailInput::Fault { ordinal, code } => Ok(Verdict::Fault { ordinal, code }),
    }
}
