//! Lines of answers.
ghost use Rattle.std.specs.Prelude.{◌≡◌, ◌<◌, false, Some, None, true, MatchOption, MatchResult};
ghost use Rattle.fp_records_fields.specs.Findings.{IsFirstFault, first_code};
ghost use Rattle.fp_records_fields.specs.Fields.{has_number, number_at};
ghost use Rattle.fp_certificate.specs.Answers.{cost_faults, has_time, has_time_in_range, has_unfinished_digits, infeasible_faults, infeasible_in, spent_in, time_in, unfinished_faults, unfinished_in, with_answer};
ghost use Rattle.fp_certificate.specs.Codes.{code_of};
ghost use Rattle.fp_certificate_lines.specs.declared.certificates.Answer.{Answer};

use crate::drafts::Draft;
use crate::lines::faults::LineFault;
use crate::lines::fields::figure_at;
use crate::lines::sections::Section;
use fp_certificate_lines::{Answer, Spent};
use fp_model::limits::LONGEST_FASTEST;
use fp_records::Record;
use fp_records_fields::digits::short_between;
use fp_records_fields::fields::{field_at, has_fields, has_number, has_word};
use fp_records_fields::{Lookup, RecordError};

/// The cost of a direct or of an optimal answer's line, or the first of the line's faults.
fn cost_of(draft: &Draft, line: &Record) -> Result<u128, LineFault>
    ensures { MatchResult result
        (λ cost. (first_code (cost_faults draft.now line.now) ≡ None) × (cost ≡ number_at line.now 2))
        (λ fault. first_code (cost_faults draft.now line.now) ≡ Some (code_of fault)) }
{
    if !has_fields(line, 3) {
        return Err(LineFault::Fields);
    }
    if !has_number(line, 2) {
        return Err(LineFault::Digits);
    }
    if draft.is_misplaced(Section::Answer) {
        return Err(LineFault::Order);
    }
    match figure_at(line, 2) {
        Some(cost) => Ok(cost),
        None => Err(LineFault::Range),
    }
}

/// Takes the answer of `answer,direct,COST`, or tells the first of the line's faults.
pub fn read_direct(draft: &mut Draft, line: &Record) -> Result<(), RecordError<LineFault>>
    ensures { MatchResult result
        (λ _. (first_code (cost_faults draft.old line.now) ≡ None) × (draft.new ≡ with_answer draft.old (Answer.Direct (number_at line.now 2))))
        (λ e. IsFirstFault code_of e (first_code (cost_faults draft.old line.now))) }
{
    let cost = cost_of(draft, line)?;
    draft.set_answer(Answer::Direct { cost });
    Ok(())
}

/// Takes the answer of `answer,optimal,COST`, or tells the first of the line's faults.
pub fn read_optimal(draft: &mut Draft, line: &Record) -> Result<(), RecordError<LineFault>>
    ensures { MatchResult result
        (λ _. (first_code (cost_faults draft.old line.now) ≡ None) × (draft.new ≡ with_answer draft.old (Answer.Optimal (number_at line.now 2))))
        (λ e. IsFirstFault code_of e (first_code (cost_faults draft.old line.now))) }
{
    let cost = cost_of(draft, line)?;
    draft.set_answer(Answer::Optimal { cost });
    Ok(())
}

// Whether the numbers and the word of an unfinished answer are such.
fn has_unfinished_digits(line: &Record) -> bool
    ensures { result ≡ has_unfinished_digits line.now }
{
    has_number(line, 2)
        && has_number(line, 3)
        && (has_word(line, 4, b"rounds")
            || has_word(line, 4, b"branches")
            || has_word(line, 4, b"time"))
}

// What was spent by an unfinished answer.
fn spent_of(line: &Record) -> Spent
    ensures { result ≡ spent_in line.now }
{
    if has_word(line, 4, b"rounds") {
        Spent::Rounds
    } else if has_word(line, 4, b"branches") {
        Spent::Branches
    } else {
        Spent::Time
    }
}

// The unfinished answer of a line, or the first of the line's faults.
fn unfinished_of(draft: &Draft, line: &Record) -> Result<Answer, LineFault>
    ensures { MatchResult result
        (λ answer. (first_code (unfinished_faults draft.now line.now) ≡ None) × (answer ≡ unfinished_in line.now))
        (λ fault. first_code (unfinished_faults draft.now line.now) ≡ Some (code_of fault)) }
{
    if !has_fields(line, 5) {
        return Err(LineFault::Fields);
    }
    if !has_unfinished_digits(line) {
        return Err(LineFault::Digits);
    }
    if draft.is_misplaced(Section::Answer) {
        return Err(LineFault::Order);
    }
    let Some(cost) = figure_at(line, 2) else {
        return Err(LineFault::Range);
    };
    let Some(bound) = figure_at(line, 3) else {
        return Err(LineFault::Range);
    };
    Ok(Answer::Unfinished {
        cost,
        bound,
        spent: spent_of(line),
    })
}

/// Takes the answer of `answer,unfinished,COST,BOUND,SPENT`, or tells the first of the line's
/// faults.
pub fn read_unfinished(draft: &mut Draft, line: &Record) -> Result<(), RecordError<LineFault>>
    ensures { MatchResult result
        (λ _. (first_code (unfinished_faults draft.old line.now) ≡ None) × (draft.new ≡ with_answer draft.old (unfinished_in line.now)))
        (λ e. IsFirstFault code_of e (first_code (unfinished_faults draft.old line.now))) }
{
    let answer = unfinished_of(draft, line)?;
    draft.set_answer(answer);
    Ok(())
}

// Whether a fastest time is `none` or a number.
fn has_time(line: &Record) -> bool
    ensures { result ≡ has_time line.now }
{
    has_word(line, 3, b"none") || has_number(line, 3)
}

// The fastest time of an infeasible answer; `None` exactly where it is above 10,000,000.
fn time_of(line: &Record) -> Option<Option<u32>>
    requires { has_time line.now ≡ true }
    ensures { MatchOption result (has_time_in_range line.now ≡ false)
        (λ time. (has_time_in_range line.now ≡ true) × (time ≡ time_in line.now)) }
{
    if has_word(line, 3, b"none") {
        return Some(None);
    }
    let time = short_between(field_at(line, 3), 0, LONGEST_FASTEST)?;
    Some(Some(time))
}

// The infeasible answer of a line, or the first of the line's faults.
fn infeasible_of(lookup: &Lookup<'_>, draft: &Draft, line: &Record) -> Result<Answer, LineFault>
    ensures { MatchResult result
        (λ answer. (first_code (infeasible_faults lookup.now draft.now line.now) ≡ None) × (answer ≡ infeasible_in lookup.now line.now))
        (λ fault. first_code (infeasible_faults lookup.now draft.now line.now) ≡ Some (code_of fault)) }
{
    if !has_fields(line, 4) {
        return Err(LineFault::Fields);
    }
    if !has_time(line) {
        return Err(LineFault::Digits);
    }
    if draft.is_misplaced(Section::Answer) {
        return Err(LineFault::Order);
    }
    let Some(shipment) = lookup.shipment_at(line, 2) else {
        return Err(LineFault::Name);
    };
    let Some(time) = time_of(line) else {
        return Err(LineFault::Range);
    };
    Ok(Answer::Infeasible { shipment, time })
}

/// Takes the answer of `answer,infeasible,SHIPMENT,TIME`, or tells the first of the line's faults.
pub fn read_infeasible(
    lookup: &Lookup<'_>,
    draft: &mut Draft,
    line: &Record,
) -> Result<(), RecordError<LineFault>>
    ensures { MatchResult result
        (λ _. (first_code (infeasible_faults lookup.now draft.old line.now) ≡ None)
        × (draft.new ≡ with_answer draft.old (infeasible_in lookup.now line.now)))
        (λ e. IsFirstFault code_of e (first_code (infeasible_faults lookup.now draft.old line.now))) }
{
    let answer = infeasible_of(lookup, draft, line)?;
    draft.set_answer(answer);
    Ok(())
}
