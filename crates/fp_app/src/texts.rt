//! The text of an answer.
ghost use Rattle.std.specs.Prelude.{◌≡◌, ◌-◌, ◌∷◌, ◌++◌, [], length, codes, decimal, false, IfOk, OnOk};
ghost use Rattle.fp_model.specs.Plans.{IsPlan};
ghost use Rattle.fp_records.specs.Text.{line_of};
ghost use Rattle.fp_certificate_lines.specs.Ranges.{AnswerExists};
ghost use Rattle.fp_certificate_lines.specs.Rows.{shipment_name};
ghost use Rattle.fp_certificate_rules.specs.Accepted.{claim_of};
ghost use Rattle.fp_certificate_rules.specs.Plans.{stated_cost};
ghost use Rattle.fp_app.specs.Quotes.{extra_of};
ghost use Rattle.fp_app.specs.Shown.{CanBeQuoted, IsBracketed, IsPrintable};
ghost use Rattle.fp_app.specs.Texts.{IsText, bound_lines, kind_word, named_quote_fields, named_quote_lines, open_word, outcome_fields, quote_lines, stuck_lines, trial_fields, trial_lines};

use crate::inputs::certificates::{direct_certificate, infeasible_certificate};
use crate::{AnswerKind, NoMemory, Shown};
use fp_certificate::{Answer, write};
use fp_certificate_lines::write_answer;
use fp_fleet::{write as write_fleet, write_trucks};
use fp_model::{Instance, Name, Plan};
use fp_records::Line;
use fp_replan::{Bracket, extra_range};
use fp_yard_sheets::write as write_yard;
use std::alloc::Global;

// `accepted` and the kind of an answer.
fn accepted_text(alloc: Global, kind: AnswerKind) -> Result<Vec<u8>, NoMemory>
    ensures { IfOk result (λ text. text.items ≡ line_of (codes "accepted" ∷ kind_word kind ∷ [])) }
{
    pair_text(alloc, b"accepted", kind.word())
}

// `rejected` and the number of a part.
fn rejected_text(alloc: Global, number: u32) -> Result<Vec<u8>, NoMemory>
    ensures { IfOk result (λ text. text.items ≡ line_of (codes "rejected" ∷ decimal number ∷ [])) }
{
    let mut line = Line::new(alloc)?;
    line.word(b"rejected")?;
    line.number(u128::from(number))?;
    line.end()?;
    Ok(line.into_bytes())
}

// A line of two words.
fn pair_text(alloc: Global, first: &[u8], second: &[u8]) -> Result<Vec<u8>, NoMemory>
    ensures { IfOk result (λ text. text.items ≡ line_of (first.now ∷ second.now ∷ [])) }
{
    let mut line = Line::new(alloc)?;
    line.word(first)?;
    line.word(second)?;
    line.end()?;
    Ok(line.into_bytes())
}

// `refused`, the ordinal of a record and the code of its fault.
fn fault_text(alloc: Global, ordinal: u32, code: u32) -> Result<Vec<u8>, NoMemory>
    ensures { IfOk result (λ text. text.items ≡ line_of (codes "refused" ∷ decimal ordinal ∷ decimal code ∷ [])) }
{
    let mut line = Line::new(alloc)?;
    line.word(b"refused")?;
    line.number(u128::from(ordinal))?;
    line.number(u128::from(code))?;
    line.end()?;
    Ok(line.into_bytes())
}

// `answer`, `bound` and a number; `end`.
fn bound_text(alloc: Global, number: u128) -> Result<Vec<u8>, NoMemory>
    ensures { IfOk result (λ text. text.items ≡ bound_lines number) }
{
    let mut line = Line::new(alloc)?;
    line.word(b"answer")?;
    line.word(b"bound")?;
    line.number(number)?;
    line.end()?;
    line.word(b"end")?;
    line.end()?;
    Ok(line.into_bytes())
}

// Adds the line of a trial's numbers.
fn write_trial(
    line: &mut Line,
    seed: u32,
    terminals: usize,
    arcs: usize,
    shipments: usize,
) -> Result<(), NoMemory>
    requires begun { line.old.begun ≡ false }
    ensures text { OnOk result (line.new.text ≡ line.old.text ++ line_of (trial_fields seed terminals arcs shipments)) }
    ensures ended { OnOk result (line.new.begun ≡ false) }
{
    line.word(b"trial")?;
    line.number(u128::from(seed))?;
    line.number(terminals as u128)?;
    line.number(arcs as u128)?;
    line.number(shipments as u128)?;
    line.end()?;
    Ok(())
}

// Adds the line of what the checker says: `checked`, or `rejected` and the first part that fails.
fn write_outcome(line: &mut Line, failed: Option<u32>) -> Result<(), NoMemory>
    requires begun { line.old.begun ≡ false }
    ensures text { OnOk result (line.new.text ≡ line.old.text ++ line_of (outcome_fields failed)) }
{
    match failed {
        None => line.word(b"checked")?,
        Some(number) => {
            line.word(b"rejected")?;
            line.number(u128::from(number))?;
        }
    }
    line.end()
}

// The lines of a trial: its numbers, the answer, and what the checker says.
fn trial_text(
    alloc: Global,
    seed: u32,
    instance: &Instance,
    answer: Answer,
    failed: Option<u32>,
) -> Result<Vec<u8>, NoMemory>
    requires { AnswerExists instance.now answer }
    ensures { IfOk result (λ text. text.items ≡ trial_lines seed failed instance.now answer) }
{
    let terminals = instance.terminals().len();
    let arcs = instance.arcs().len();
    let shipments = instance.shipments().len();
    let mut begun = Line::new(alloc)?;
    write_trial(&mut begun, seed, terminals, arcs, shipments)?;
    let mut line = write_answer(begun, instance, answer)?;
    write_outcome(&mut line, failed)?;
    Ok(line.into_bytes())
}

// `answer`, `stuck` and the name of a shipment; `end`.
fn stuck_text(alloc: Global, name: &Name) -> Result<Vec<u8>, NoMemory>
    ensures { IfOk result (λ text. text.items ≡ stuck_lines name.now) }
{
    let mut line = Line::new(alloc)?;
    line.word(b"answer")?;
    line.word(b"stuck")?;
    line.word(name.bytes())?;
    line.end()?;
    line.word(b"end")?;
    line.end()?;
    Ok(line.into_bytes())
}

// What a plan costs at least by an answer, and what one costs.
fn figures(answer: Answer) -> (u128, u128)
    requires { IsBracketed answer }
    ensures low { result.0 ≡ claim_of answer }
    ensures cost { result.1 ≡ stated_cost answer }
{
    match answer {
        Answer::Optimal { cost } => (cost, cost),
        Answer::Unfinished { cost, bound, .. } => (bound, cost),
        Answer::Direct { .. } | Answer::Infeasible { .. } => unreachable!(),
    }
}

// `quote`, the name of a shipment, and what it adds at least and at most; `end`.
fn extra_text(alloc: Global, name: &Name, extra: Bracket) -> Result<Vec<u8>, NoMemory>
    ensures { IfOk result (λ text. text.items ≡ quote_lines name.now extra) }
{
    let mut line = Line::new(alloc)?;
    line.word(b"quote")?;
    line.word(name.bytes())?;
    line.number(extra.low)?;
    line.number(extra.high)?;
    line.end()?;
    line.word(b"end")?;
    line.end()?;
    Ok(line.into_bytes())
}

// What the last shipment of an instance adds, by the answers without it and with it.
fn quote_text(
    alloc: Global,
    instance: &Instance,
    before: Answer,
    after: Answer,
) -> Result<Vec<u8>, NoMemory>
    requires { CanBeQuoted instance.now before after }
    ensures { IfOk result (λ text. text.items ≡ quote_lines (shipment_name instance.now (length instance.now.shipments - 1)) (extra_of before after)) }
{
    let (before_low, before_cost) = figures(before);
    let (after_low, after_cost) = figures(after);
    let extra = extra_range(before_low, before_cost, after_low, after_cost);
    let last = instance.shipments().len() as u32 - 1;
    extra_text(alloc, &instance.shipment(last).name, extra)
}

// Which of two searches ended unfinished, by their answers.
fn open_word(before: Answer, after: Answer) -> &'static [u8]
    ensures { result.now ≡ open_word before after }
{
    match (before, after) {
        (Answer::Unfinished { .. }, Answer::Unfinished { .. }) => b"both",
        (Answer::Unfinished { .. }, _) => b"before",
        (_, Answer::Unfinished { .. }) => b"after",
        _ => b"none",
    }
}

// Adds the line of what a shipment adds: `quote`, its name, at least and at most so much and between two
// plans, and which searches ended unfinished.
fn write_added(
    line: &mut Line,
    name: &Name,
    extra: Bracket,
    added: u128,
    ends: &[u8],
) -> Result<(), NoMemory>
    requires begun { line.old.begun ≡ false }
    ensures text { OnOk result (line.new.text ≡ line.old.text ++ line_of (named_quote_fields name.now extra added ends.now)) }
    ensures ended { OnOk result (line.new.begun ≡ false) }
{
    line.word(b"quote")?;
    line.word(name.bytes())?;
    line.number(extra.low)?;
    line.number(extra.high)?;
    line.number(added)?;
    line.word(ends)?;
    line.end()?;
    Ok(())
}

// That line, and `end`.
fn added_text(
    alloc: Global,
    name: &Name,
    extra: Bracket,
    added: u128,
    ends: &[u8],
) -> Result<Vec<u8>, NoMemory>
    ensures { IfOk result (λ text. text.items ≡ named_quote_lines name.now extra added ends.now) }
{
    let mut line = Line::new(alloc)?;
    write_added(&mut line, name, extra, added, ends)?;
    line.word(b"end")?;
    line.end()?;
    Ok(line.into_bytes())
}

// What the last shipment of an instance adds, by the answers without it and with it, and between the two
// plans in hand.
fn named_quote_text(
    alloc: Global,
    instance: &Instance,
    before: Answer,
    after: Answer,
    added: u128,
) -> Result<Vec<u8>, NoMemory>
    requires { CanBeQuoted instance.now before after }
    ensures { IfOk result (λ text. text.items ≡ named_quote_lines (shipment_name instance.now (length instance.now.shipments - 1)) (extra_of before after) added (open_word before after)) }
{
    let (before_low, before_cost) = figures(before);
    let (after_low, after_cost) = figures(after);
    let extra = extra_range(before_low, before_cost, after_low, after_cost);
    let last = instance.shipments().len() as u32 - 1;
    let name = &instance.shipment(last).name;
    added_text(alloc, name, extra, added, open_word(before, after))
}

/// The text of a plan as an answer of the kind `direct`.
pub(crate) fn direct_text(
    alloc: Global,
    instance: &Instance,
    plan: &Plan,
) -> Result<Vec<u8>, NoMemory>
    requires { IsPlan instance.now 1 plan.now }
    ensures { IfOk result (λ text. IsText (Shown.Direct instance.now plan.now) text.items) }
{
    write(alloc, instance, &direct_certificate(alloc, instance, plan)?)
}

/// The text of what is shown: fields joined by commas, lines ended by line feeds. What is shown as
/// a certificate is written as one.
///
/// It needs that each plan shown is a plan of the instance shown and that each number shown exists
/// there. `NoMemory` only where no memory is found.
pub fn text(alloc: Global, shown: &Shown) -> Result<Vec<u8>, NoMemory>
    requires { IsPrintable shown.now }
    ensures { IfOk result (λ text. IsText shown.now text.items) }
{
    match shown {
        Shown::Direct { instance, plan } => direct_text(alloc, instance, plan),
        Shown::Bound {
            instance,
            value,
            ..
        } => bound_text(alloc, value.div_ceil(u128::from(instance.scale()))),
        Shown::Planned { instance, solved } => write(alloc, instance, &solved.certificate),
        Shown::Trial {
            seed,
            outcome,
            instance,
            solved,
        } => trial_text(
            alloc,
            *seed,
            instance,
            solved.certificate.answer,
            outcome.failed(),
        ),
        Shown::Replanned {
            instance,
            solved,
            ..
        } => write(alloc, instance, &solved.certificate),
        Shown::Underway { rest, solved, .. } => write(alloc, &rest.instance, &solved.certificate),
        Shown::Stuck { instance, shipment } => {
            stuck_text(alloc, &instance.shipment(*shipment).name)
        }
        Shown::Quoted {
            instance,
            before,
            after,
        } => quote_text(
            alloc,
            instance,
            before.certificate.answer,
            after.certificate.answer,
        ),
        Shown::NamedQuote {
            instance,
            before,
            after,
            added,
        } => named_quote_text(
            alloc,
            instance,
            before.certificate.answer,
            after.certificate.answer,
            *added,
        ),
        Shown::Infeasible {
            instance,
            shipment,
            time,
        } => write(
            alloc,
            instance,
            &infeasible_certificate(alloc, *shipment, *time),
        ),
        Shown::Accepted { kind } => accepted_text(alloc, *kind),
        Shown::RejectedPart { number } => rejected_text(alloc, *number),
        Shown::Yard {
            instance,
            plan,
            log,
        } => write_yard(alloc, instance, plan, log.as_slice()),
        Shown::Fleet {
            instance,
            plan,
            fleet,
        } => write_fleet(alloc, instance, plan, fleet),
        Shown::Trucks {
            instance,
            plan,
            fleet,
            told,
        } => write_trucks(alloc, instance, plan, fleet, told),
        Shown::BadWords => pair_text(alloc, b"refused", b"words"),
        Shown::BadInput { ordinal, code } => fault_text(alloc, *ordinal, *code),
        Shown::TooLong => pair_text(alloc, b"refused", b"long"),
        Shown::Nothing => Ok(Vec::new(alloc)),
    }
}
