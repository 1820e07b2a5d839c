//! What `check` shows.
ghost use Rattle.std.specs.Prelude.{List, ℕ, ◌≡◌, ◌-◌, ◌<◌, ◌≤◌, ◌^◌, drop, length, IfOk};
ghost use Rattle.fp_records_fields.specs.Indexes.{entries_of};
ghost use Rattle.fp_records.specs.Fields.{records_of};
ghost use Rattle.fp_app.specs.Checks.{ShowsCheck};
ghost use Rattle.fp_app_tails.specs.Verdicts.{scale_of, scaled};
ghost use Rattle.fp_app.specs.TailChecks.{ShowsAnswer, shown_of};
ghost use Rattle.fp_app.specs.CheckInputs.{AreCheckable, CanBeChecked, IsCheckInput, IsCheckInputOf};
ghost use Rattle.fp_app.specs.declared.limits.TheConstants.{CHECK_LIMIT};
ghost use Rattle.fp_app.specs.Inputs.{OfCertificate};
ghost use Rattle.fp_app.specs.Shown.{IsPrintable};

use crate::check_outcomes::check_outcome;
use crate::inputs::tails::tail_answer;
use crate::{AnswerKind, NoMemory, Shown};
use fp_app_tails::{Verdict, verdict_after};
use fp_certificate::{CertFault, Certificate, read_with_index};
use fp_model::{Instance, SCALE};
use fp_reader::{IndexedRead, InputFault, Tail, instance_with_index};
use fp_records::{Record, records};
use fp_records_fields::Index;
use std::alloc::{AllocError, Global};

/// What an input gives.
#[derive(Drop)]
pub enum CheckInput {
    /// An instance and a certificate.
    Both {
        instance: Instance,
        certificate: Certificate,
    },
    /// The first fault of its records.
    Fault {
        ordinal: u32,
        code: u32,
    },
}

/// What `check` shows for the bytes of an input: of the certificate after an instance, or of the answer after
/// an instance and its kept legs or a day that is under way.
pub fn check_shown(alloc: Global, bytes: Vec<u8>) -> Result<Shown, NoMemory>
    requires { length bytes.items ≤ CHECK_LIMIT }
    ensures shown { IfOk result (ShowsAnswer bytes.items) }
    ensures printable { IfOk result IsPrintable }
{
    let lines = records(alloc, &bytes)?;
    drop(bytes);
    match tail_answer(&lines) {
        Some(place) => {
            let verdict = verdict_after(alloc, &lines, place)?;
            Ok(said(verdict))
        }
        None => {
            let shown = certificate_shown(alloc, &lines)?;
            Ok(shown)
        }
    }
}

// What is shown of the certificate that follows an instance.
fn certificate_shown(alloc: Global, lines: &[Record]) -> Result<Shown, NoMemory>
    requires { length lines.now < 2 ^ 32 - 1 }
    ensures shown { IfOk result (λ shown. (input : List ℕ) → records_of input ≡ lines.now → OfCertificate input shown (λ p c. ShowsCheck (scaled p c) c shown)) }
    ensures printable { IfOk result IsPrintable }
{
    match read_lines(alloc, lines)? {
        CheckInput::Both {
            instance,
            certificate,
        } => {
            let shown = verdict(alloc, instance, &certificate)?;
            Ok(shown)
        }
        CheckInput::Fault { ordinal, code } => Ok(Shown::BadInput { ordinal, code }),
    }
}

// What is shown of what is said of an answer.
fn said(verdict: Verdict) -> Shown
    ensures is { result ≡ shown_of verdict }
    ensures printable { IsPrintable result }
{
    match verdict {
        Verdict::Accepted { answer } => Shown::Accepted {
            kind: match answer {
                Some(answer) => answer.into(),
                None => AnswerKind::Stuck,
            },
        },
        Verdict::Rejected { number } => Shown::RejectedPart { number },
        Verdict::Fault { ordinal, code } => Shown::BadInput { ordinal, code },
    }
}

/// The instance and the certificate of records. The index of names that reading the instance made serves the
/// certificate too.
pub fn read_lines(alloc: Global, lines: &[Record]) -> Result<CheckInput, NoMemory>
    requires { length lines.now < 2 ^ 32 - 1 }
    ensures given { IfOk result (λ given. (input : List ℕ) → records_of input ≡ lines.now → IsCheckInput input given) }
    ensures checkable { IfOk result AreCheckable }
{
    match instance_with_index(alloc, lines, Tail::Certificate) {
        Ok(
            IndexedRead {
                instance,
                index,
                used,
            },
        ) => read_certificate(alloc, instance, &index, lines, used),
        Err(InputFault::Bad { ordinal, code }) => Ok(CheckInput::Fault { ordinal, code }),
        Err(InputFault::NoMemory) => Err(AllocError),
    }
}

// The certificate of the records from a place on, with its instance, of which this is the index.
fn read_certificate(
    alloc: Global,
    instance: Instance,
    index: &Index<'_>,
    lines: &[Record],
    used: usize,
) -> Result<CheckInput, NoMemory>
    requires index { index.now ≡ entries_of instance }
    requires used { used ≤ length lines.now }
    requires few { length lines.now < 2 ^ 32 - 1 }
    ensures read { IfOk result (IsCheckInputOf instance used lines.now) }
    ensures checkable { IfOk result AreCheckable }
{
    match read_with_index(alloc, &instance, index, lines, used) {
        Ok(certificate) => Ok(CheckInput::Both {
            instance,
            certificate,
        }),
        Err(CertFault::Bad { ordinal, code }) => Ok(CheckInput::Fault { ordinal, code }),
        Err(CertFault::NoMemory) => Err(AllocError),
    }
}

// Whether a certificate is accepted for an instance at its scale.
fn verdict(alloc: Global, instance: Instance, certificate: &Certificate) -> Result<Shown, NoMemory>
    requires { CanBeChecked instance certificate.now }
    ensures shown { IfOk result (ShowsCheck (scaled instance certificate.now) certificate.now) }
    ensures printable { IfOk result IsPrintable }
{
    let instance = instance.with_scale(scale_of(certificate));
    match check_outcome(alloc, &instance, certificate)?.failed() {
        None => Ok(Shown::Accepted {
            kind: certificate.answer.into(),
        }),
        Some(number) => Ok(Shown::RejectedPart { number }),
    }
}

// The scale that a certificate names, or the one that stands where it names none.
fn scale_of(certificate: &Certificate) -> u32
    ensures { result ≡ scale_of certificate.now.scale }
{
    match certificate.scale {
        Some(scale) => scale,
        None => SCALE as u32,
    }
}
