//! What an answer gives that follows kept legs or a day that is under way: what is to be planned, with its
//! windows, and the certificate.
ghost use Rattle.std.specs.Prelude.{◌≡◌, ◌+◌, ◌<◌, ◌≤◌, ◌-◌, ◌^◌, drop, length, IfOk, IfSome, Some};
ghost use Rattle.fp_certificate.specs.Reading.{certificate_of};
ghost use Rattle.fp_app_tails.specs.Ahead.{CanBeTold, ahead_problem};
ghost use Rattle.fp_app_tails.specs.Answers.{CanBeAsked, IsAnswer, IsAnswerAhead, IsGivenOf, IsNamedOf, IsReadOf, IsScale, IsScaledOf, IsTestable, IsWantedOf, scale_by as scale_of_rule};
ghost use Rattle.fp_app_tails.specs.Duties.{duty_of};
ghost use Rattle.fp_app_tails.specs.StuckAnswers.{stuck_from};
ghost use Rattle.fp_app_tails.specs.Verdicts.{IsRead, scale_of as scale_named};

use crate::NoMemory;
use crate::ahead::{Ahead, Told, ahead_of};
use crate::inputs::{TailInput, read_tail};
use crate::stuck_answers::{StuckAnswer, is_stuck_at, read_stuck};
use fp_certificate::{CertFault, Certificate, read};
use fp_flatnet::Windows;
use fp_model::{Instance, SCALE};
use fp_records::Record;
use std::alloc::{AllocError, Global};

/// At which scale what is to be planned is given.
#[derive(Clone, Copy, Debug, PartialEq, Eq)]
pub enum Scale {
    /// That of the instance that was read.
    Usual,
    /// The one that the certificate names, or the usual one where it names none.
    Named,
    /// This one, 1 to 1,000,000,000.
    Of { scale: u32 },
}

/// What an answer gives.
#[derive(Drop)]
pub enum Answered {
    /// What is to be planned, with the windows of the plans that are wanted, and the certificate.
    Read {
        instance: Instance,
        windows: Windows,
        certificate: Certificate,
    },
    /// No plan is told: none goes on, or the answer says so.
    NoPlan,
    /// The first fault of the records; ordinal 0 and code 12 where these have none and the scale doesn't
    /// fit the instance.
    Fault {
        ordinal: u32,
        code: u32,
    },
}

// The scale that a certificate names, or the usual one where it names none.
fn scale_of(certificate: &Certificate) -> u32
    ensures { result ≡ scale_named certificate.now.scale }
{
    match certificate.scale {
        Some(scale) => scale,
        None => SCALE as u32,
    }
}

// The scale at which a certificate's instance is given; `None` where that is its own.
fn scale_by(scale: Scale, certificate: &Certificate) -> Option<u32>
    ensures { result ≡ scale_of_rule scale certificate.now }
{
    match scale {
        Scale::Usual => None,
        Scale::Named => Some(scale_of(certificate)),
        Scale::Of { scale } => Some(scale),
    }
}

// What a certificate gives of an instance.
fn wanted_answer(
    alloc: Global,
    whole: &Instance,
    told: &Told,
    certificate: Certificate,
) -> Result<Answered, NoMemory>
    requires told { CanBeTold whole.now (duty_of told.now) }
    requires read { IsRead whole.now (duty_of told.now) certificate }
    ensures given { IfOk result (IsWantedOf whole.now (duty_of told.now) certificate) }
    ensures testable { IfOk result IsTestable }
{
    match ahead_of(alloc, whole, told)? {
        Ahead::Open { instance, windows } => {
            let given = Answered::Read {
                instance,
                windows,
                certificate,
            };
            Ok(given)
        }
        Ahead::Stuck { .. } => Ok(Answered::NoPlan),
    }
}

// The same of the instance at a scale, where it fits.
fn answer_at(
    alloc: Global,
    instance: Instance,
    told: &Told,
    certificate: Certificate,
    scale: u32,
) -> Result<Answered, NoMemory>
    requires told { CanBeTold instance (duty_of told.now) }
    requires read { IsRead instance (duty_of told.now) certificate }
    requires scale { IsScale scale }
    ensures given { IfOk result (IsScaledOf instance (duty_of told.now) (Some scale) certificate) }
    ensures testable { IfOk result IsTestable }
{
    if !instance.fits(scale) {
        return Ok(Answered::Fault {
            ordinal: 0,
            code: 12,
        });
    }
    let instance = instance.with_scale(scale);
    let given = wanted_answer(alloc, &instance, told, certificate)?;
    Ok(given)
}

// The same at a scale, or at the instance's own.
fn scaled_answer(
    alloc: Global,
    instance: Instance,
    told: &Told,
    certificate: Certificate,
    scale: Option<u32>,
) -> Result<Answered, NoMemory>
    requires told { CanBeTold instance (duty_of told.now) }
    requires read { IsRead instance (duty_of told.now) certificate }
    requires scale { IfSome scale IsScale }
    ensures given { IfOk result (IsScaledOf instance (duty_of told.now) scale certificate) }
    ensures testable { IfOk result IsTestable }
{
    match scale {
        Some(scale) => {
            let given = answer_at(alloc, instance, told, certificate, scale)?;
            Ok(given)
        }
        None => {
            let given = wanted_answer(alloc, &instance, told, certificate)?;
            Ok(given)
        }
    }
}

// What the certificate at a place gives, which is read for what is to be planned.
fn read_answer(
    alloc: Global,
    instance: Instance,
    told: &Told,
    rest: &Instance,
    lines: &[Record],
    place: usize,
    scale: Scale,
) -> Result<Answered, NoMemory>
    requires told { CanBeTold instance (duty_of told.now) }
    requires rest { rest.now ≡ ahead_problem instance (duty_of told.now) }
    requires place { place ≤ length lines.now }
    requires few { length lines.now < 2 ^ 32 - 1 }
    requires scale { CanBeAsked scale }
    ensures given { IfOk result (IsReadOf instance (duty_of told.now) scale (certificate_of rest.now (place + 1) (drop place lines.now))) }
    ensures testable { IfOk result IsTestable }
{
    match read(alloc, rest, lines, place) {
        Ok(certificate) => {
            let at = scale_by(scale, &certificate);
            let given = scaled_answer(alloc, instance, told, certificate, at)?;
            Ok(given)
        }
        Err(CertFault::Bad { ordinal, code }) => Ok(Answered::Fault { ordinal, code }),
        Err(CertFault::NoMemory) => Err(AllocError),
    }
}

// What the certificate at a place gives, where some plan goes on.
pub(crate) fn certificate_answer(
    alloc: Global,
    whole: Instance,
    told: &Told,
    lines: &[Record],
    place: usize,
    scale: Scale,
) -> Result<Answered, NoMemory>
    requires told { CanBeTold whole (duty_of told.now) }
    requires place { place ≤ length lines.now }
    requires few { length lines.now < 2 ^ 32 - 1 }
    requires scale { CanBeAsked scale }
    ensures given { IfOk result (IsGivenOf whole (duty_of told.now) scale (certificate_of (ahead_problem whole (duty_of told.now)) (place + 1) (drop place lines.now))) }
    ensures testable { IfOk result IsTestable }
{
    match ahead_of(alloc, &whole, told)? {
        Ahead::Open { instance, .. } => {
            let given = read_answer(alloc, whole, told, &instance, lines, place, scale)?;
            Ok(given)
        }
        Ahead::Stuck { .. } => Ok(Answered::NoPlan),
    }
}

// What the answer at a place gives that no plan goes on.
fn stuck_answer(
    alloc: Global,
    instance: &Instance,
    lines: &[Record],
    place: usize,
) -> Result<Answered, NoMemory>
    requires place { place < length lines.now }
    requires few { length lines.now < 2 ^ 32 - 1 }
    ensures given { IfOk result (IsNamedOf (stuck_from instance.now (place + 1) (drop place lines.now))) }
    ensures testable { IfOk result IsTestable }
{
    match read_stuck(alloc, instance, lines, place)? {
        StuckAnswer::Of { .. } => Ok(Answered::NoPlan),
        StuckAnswer::Fault { ordinal, code } => Ok(Answered::Fault { ordinal, code }),
    }
}

// What the answer at a place gives, after what is told of an instance.
fn told_answer(
    alloc: Global,
    instance: Instance,
    told: &Told,
    lines: &[Record],
    place: usize,
    scale: Scale,
) -> Result<Answered, NoMemory>
    requires told { CanBeTold instance (duty_of told.now) }
    requires place { place ≤ length lines.now }
    requires few { length lines.now < 2 ^ 32 - 1 }
    requires scale { CanBeAsked scale }
    ensures given { IfOk result (IsAnswerAhead instance (duty_of told.now) scale place lines.now) }
    ensures testable { IfOk result IsTestable }
{
    if is_stuck_at(lines, place) {
        let given = stuck_answer(alloc, &instance, lines, place)?;
        return Ok(given);
    }
    let given = certificate_answer(alloc, instance, told, lines, place, scale)?;
    Ok(given)
}

/// What the answer at a place gives, by the kept legs or the day that the records before it tell after
/// those of their instance: what is to be planned, with the windows of the plans that keep the legs or go
/// on with the day, and the certificate, which is read for it.
///
/// No plan is told where none goes on, and where the answer says so, whomever it names. Where the whole
/// instance doesn't fit the scale, that is a fault of the input as a whole, after those of its records.
/// `NoMemory` only where no memory is found.
pub fn answered_after(
    alloc: Global,
    lines: &[Record],
    place: usize,
    scale: Scale,
) -> Result<Answered, NoMemory>
    requires place { place ≤ length lines.now }
    requires few { length lines.now < 2 ^ 32 - 1 }
    requires scale { CanBeAsked scale }
    ensures given { IfOk result (IsAnswer scale place lines.now) }
    ensures testable { IfOk result IsTestable }
{
    match read_tail(alloc, &lines[..place])? {
        TailInput::Kept { instance, kept } => {
            let told = Told::Kept { kept };
            let given = told_answer(alloc, instance, &told, lines, place, scale)?;
            Ok(given)
        }
        TailInput::Day { instance, present } => {
            let told = Told::Day { present };
            let given = told_answer(alloc, instance, &told, lines, place, scale)?;
            Ok(given)
        }
        TailInput::Fault { ordinal, code } => Ok(Answered::Fault { ordinal, code }),
    }
}
