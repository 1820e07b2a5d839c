//! Lines of answers.
ghost use Rattle.std.specs.Prelude.{◌≡◌, ◌<◌, ◌++◌, ◌∷◌, [], codes, decimal, false, length, IfOk, OnOk};
ghost use Rattle.fp_records.specs.Text.{line_of, with_field};
ghost use Rattle.fp_certificate_lines.specs.Ranges.{AnswerExists};
ghost use Rattle.fp_certificate_lines.specs.Rows.{answer_fields, infeasible_fields, shipment_name, spent_text, time_text, unfinished_fields};

use crate::NoMemory;
use crate::certificates::{Answer, Spent};
use crate::lines::names::write_shipment;
use fp_model::Instance;
use fp_records::Line;

// Adds `answer`, a word and a cost.
fn write_cost(line: &mut Line, word: &[u8], cost: u128) -> Result<(), NoMemory>
    requires begun { line.old.begun ≡ false }
    ensures text { OnOk result (line.new.text ≡ line.old.text ++ line_of (codes "answer" ∷ word.now ∷ decimal cost ∷ [])) }
    ensures ended { OnOk result (line.new.begun ≡ false) }
{
    line.word(b"answer")?;
    line.word(word)?;
    line.number(cost)?;
    line.end()
}

// Adds what was spent.
fn write_spent(line: &mut Line, spent: Spent) -> Result<(), NoMemory>
    ensures { OnOk result (line.new ≡ with_field line.old (spent_text spent)) }
{
    match spent {
        Spent::Rounds => line.word(b"rounds"),
        Spent::Branches => line.word(b"branches"),
        Spent::Time => line.word(b"time"),
    }
}

// Adds `answer,unfinished,COST,BOUND,SPENT`.
fn write_unfinished(line: &mut Line, cost: u128, bound: u128, spent: Spent) -> Result<(), NoMemory>
    requires begun { line.old.begun ≡ false }
    ensures text { OnOk result (line.new.text ≡ line.old.text ++ line_of (unfinished_fields cost bound spent)) }
    ensures ended { OnOk result (line.new.begun ≡ false) }
{
    line.word(b"answer")?;
    line.word(b"unfinished")?;
    line.number(cost)?;
    line.number(bound)?;
    write_spent(line, spent)?;
    line.end()
}

// Adds a fastest time, or `none`.
fn write_time(line: &mut Line, time: Option<u32>) -> Result<(), NoMemory>
    ensures { OnOk result (line.new ≡ with_field line.old (time_text time)) }
{
    match time {
        Some(time) => line.number(u128::from(time)),
        None => line.word(b"none"),
    }
}

// Adds `answer,infeasible,SHIPMENT,TIME`.
fn write_infeasible(
    line: &mut Line,
    instance: &Instance,
    shipment: u32,
    time: Option<u32>,
) -> Result<(), NoMemory>
    requires begun { line.old.begun ≡ false }
    requires exists { shipment < length instance.now.shipments }
    ensures text { OnOk result (line.new.text ≡ line.old.text ++ line_of (infeasible_fields (shipment_name instance.now shipment) time)) }
    ensures ended { OnOk result (line.new.begun ≡ false) }
{
    line.word(b"answer")?;
    line.word(b"infeasible")?;
    write_shipment(line, instance, shipment)?;
    write_time(line, time)?;
    line.end()
}

// Adds the line of an answer.
fn add_answer(line: &mut Line, instance: &Instance, answer: Answer) -> Result<(), NoMemory>
    requires begun { line.old.begun ≡ false }
    requires exists { AnswerExists instance.now answer }
    ensures text { OnOk result (line.new.text ≡ line.old.text ++ line_of (answer_fields instance.now answer)) }
    ensures ended { OnOk result (line.new.begun ≡ false) }
{
    match answer {
        Answer::Direct { cost } => write_cost(line, b"direct", cost),
        Answer::Optimal { cost } => write_cost(line, b"optimal", cost),
        Answer::Unfinished { cost, bound, spent } => write_unfinished(line, cost, bound, spent),
        Answer::Infeasible { shipment, time } => write_infeasible(line, instance, shipment, time),
    }
}

/// The lines with that of an answer after them. The last line has to be ended, and the shipment that
/// an answer names has to be the instance's. `NoMemory` only where no memory is found.
pub fn write_answer(lines: Line, instance: &Instance, answer: Answer) -> Result<Line, NoMemory>
    requires begun { lines.begun ≡ false }
    requires exists { AnswerExists instance.now answer }
    ensures text { IfOk result (λ line. line.text ≡ lines.text ++ line_of (answer_fields instance.now answer)) }
    ensures ended { IfOk result (λ line. line.begun ≡ false) }
{
    let mut line = lines;
    add_answer(&mut line, instance, answer)?;
    Ok(line)
}
