//! The answer to an order, from the source's bytes.
ghost use Rattle.std.specs.Prelude.{ℕ, ◌≡◌, ◌+◌, ◌≤◌, List, IfOk, Some, IsErrOf, Ok, length, true};
ghost use Rattle.fp_ends.specs.Causes.{Rose};
ghost use Rattle.fp_ends.specs.Deadlines.{has_shown};
ghost use Rattle.fp_app_words.specs.Settings.{IsWithinLimits};
ghost use Rattle.fp_app_words.specs.TimeLimits.{seconds_of};
ghost use Rattle.fp_app_words.specs.Words.{order_of, texts};
ghost use Rattle.fp_app.specs.Inputs.{limit_of, reads_source};
ghost use Rattle.fp_app.specs.Notes.{NotesOf};
ghost use Rattle.fp_app.specs.Runs.{Answers, Leaves, ShowsInput, TakesOneMore, TakesWithin};
ghost use Rattle.fp_app.specs.Shown.{IsPrintable};

use crate::commands::bounds::bound_shown;
use crate::commands::checks::check_shown;
use crate::commands::directs::direct_shown;
use crate::commands::fleets::fleet_shown;
use crate::commands::improvements::improve_shown;
use crate::commands::named_quotes::named_quote_shown;
use crate::commands::options::SearchOptions;
use crate::commands::quotes::quote_shown;
use crate::commands::replans::replan_shown;
use crate::commands::searches::plan_shown;
use crate::commands::trials::trial_shown;
use crate::commands::yards::yard_shown;
use crate::failures::Failure;
use crate::inputs::input_bytes::take_input;
use crate::limits::limit_of;
use crate::{NoMemory, Order, Shown, WordFault, read_words};
use fp_ends::{Clock, ClockDeadline, Resources, Sink, Source};
use std::alloc::Global;

/// What the words and the source's bytes show.
pub fn answer<S: Source, C: Clock, N: Sink>(
    alloc: Global,
    words: &[String],
    source: &mut S,
    clock: &mut C,
    notes: &mut N,
) -> Result<Shown, Failure>
    ensures shown { IfOk result (λ shown. Answers (has_shown (seconds_of (order_of (texts words.now))) (C.moment clock.new) (C.faults clock.old) (C.faults clock.new)) (order_of (texts words.now)) (S.left source.old) (S.left source.new) shown) }
    ensures printable { IfOk result IsPrintable }
    ensures later { S.faults source.old ≤ S.faults source.new }
    ensures within { TakesWithin (limit_of (order_of (texts words.now)) + 1) (S.left source.old) (S.left source.new) }
    ensures fault { IsErrOf result Failure.ReadFault
        → Rose (S.faults source.old) (S.faults source.new) }
    ensures same { (IsErrOf result Failure.ReadFault → ⊥) → S.faults source.new ≡ S.faults source.old }
    ensures sure { S.is_sure source.old ≡ true → IsErrOf result Failure.ReadFault → ⊥ }
    ensures fault_within { IsErrOf result Failure.ReadFault
        → TakesWithin (limit_of (order_of (texts words.now))) (S.left source.old) (S.left source.new) }
    ensures long_within { result ≡ Ok Shown.TooLong
        → TakesOneMore (limit_of (order_of (texts words.now))) (S.left source.old) (S.left source.new) }
    ensures leaves { Leaves (order_of (texts words.now)) source.old source.new }
    ensures noted { (input : List ℕ) → S.left source.old ≡ Some input → NotesOf (order_of (texts words.now)) input (N.taken notes.old) (N.taken notes.new) }
{
    match read_words(alloc, words) {
        Ok(
            Order::Trial {
                seed,
                terminals,
                shipments,
            },
        ) => Ok(trial_shown(alloc, seed, terminals, shipments)?),
        Ok(order) => answer_order(alloc, order, source, clock, notes),
        Err(WordFault::BadWords) => Ok(Shown::BadWords),
        Err(WordFault::NoMemory) => Err(Failure::NoMemory),
    }
}

// What an order that reads the source, and the source's bytes, show.
fn answer_order<S: Source, C: Clock, N: Sink>(
    alloc: Global,
    order: Order,
    source: &mut S,
    clock: &mut C,
    notes: &mut N,
) -> Result<Shown, Failure>
    requires limits { IsWithinLimits order }
    requires reads { reads_source order ≡ true }
    ensures shown { IfOk result (Answers (has_shown (seconds_of (Some order)) (C.moment clock.new) (C.faults clock.old) (C.faults clock.new)) (Some order) (S.left source.old) (S.left source.new)) }
    ensures printable { IfOk result IsPrintable }
    ensures later { S.faults source.old ≤ S.faults source.new }
    ensures within { TakesWithin (limit_of (Some order) + 1) (S.left source.old) (S.left source.new) }
    ensures fault { IsErrOf result Failure.ReadFault
        → Rose (S.faults source.old) (S.faults source.new) }
    ensures same { (IsErrOf result Failure.ReadFault → ⊥) → S.faults source.new ≡ S.faults source.old }
    ensures sure { S.is_sure source.old ≡ true → IsErrOf result Failure.ReadFault → ⊥ }
    ensures fault_within { IsErrOf result Failure.ReadFault
        → TakesWithin (limit_of (Some order)) (S.left source.old) (S.left source.new) }
    ensures long_within { result ≡ Ok Shown.TooLong
        → TakesOneMore (limit_of (Some order)) (S.left source.old) (S.left source.new) }
    ensures leaves { Leaves (Some order) source.old source.new }
    ensures noted { (input : List ℕ) → S.left source.old ≡ Some input → NotesOf (Some order) input (N.taken notes.old) (N.taken notes.new) }
{
    match take_input(alloc, source, limit_of(&order))? {
        Some(bytes) => Ok(input_shown(alloc, clock, notes, order, bytes)?),
        None => Ok(Shown::TooLong),
    }
}

// What an order shows for the bytes of an input.
fn input_shown<C: Clock, N: Sink>(
    alloc: Global,
    clock: &mut C,
    notes: &mut N,
    order: Order,
    bytes: Vec<u8>,
) -> Result<Shown, NoMemory>
    requires length { length bytes.items ≤ limit_of (Some order) }
    requires limits { IsWithinLimits order }
    requires reads { reads_source order ≡ true }
    ensures shown { IfOk result (ShowsInput (has_shown (seconds_of (Some order)) (C.moment clock.new) (C.faults clock.old) (C.faults clock.new)) order bytes.items) }
    ensures printable { IfOk result IsPrintable }
    ensures noted { NotesOf (Some order) bytes.items (N.taken notes.old) (N.taken notes.new) }
{
    match order {
        Order::Direct => direct_shown(alloc, bytes),
        Order::Check => check_shown(alloc, bytes),
        Order::Bound { spans, seconds } => {
            let deadline = ClockDeadline::new(&*clock, seconds);
            bound_shown(&Resources { alloc, deadline }, bytes, spans)
        }
        Order::Trial { .. } => unreachable!(),
        Order::Yard { seed } => yard_shown(alloc, bytes, seed),
        Order::Fleet { trucks } => fleet_shown(alloc, bytes, trucks),
        Order::Plan {
            budget,
            scale,
            spans,
            seconds,
            notes: wanted,
        } => {
            let options = SearchOptions::new(budget, spans, seconds, wanted);
            plan_shown(alloc, clock, notes, options, bytes, scale)
        }
        Order::Improve {
            budget,
            scale,
            spans,
            seconds,
            notes: wanted,
        } => {
            let options = SearchOptions::new(budget, spans, seconds, wanted);
            improve_shown(alloc, clock, notes, options, bytes, scale)
        }
        Order::Replan {
            budget,
            spans,
            seconds,
            notes: wanted,
        } => {
            let options = SearchOptions::new(budget, spans, seconds, wanted);
            replan_shown(alloc, clock, notes, options, bytes)
        }
        Order::Quote {
            budget,
            spans,
            seconds,
            notes: wanted,
            name,
        } => {
            let options = SearchOptions::new(budget, spans, seconds, wanted);
            match name {
                None => quote_shown(alloc, clock, notes, options, bytes),
                Some(name) => named_quote_shown(alloc, clock, notes, options, bytes, &name),
            }
        }
    }
}
