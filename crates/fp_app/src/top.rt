//! The top call.
ghost use Rattle.std.specs.Prelude.{◌≡◌, ◌≢◌, ◌⊎◌, ◌+◌, ◌<◌, ◌≤◌, ℕ, List, length, false, true, None, Some};
ghost use Rattle.fp_ends.specs.Causes.{Rose};
ghost use Rattle.fp_ends.specs.Deadlines.{has_shown};
ghost use Rattle.fp_app.specs.Causes.{ShowsDone, ShowsFault, ShowsInfeasible, ShowsOpen, ShowsRejection, StatusOf};
ghost use Rattle.fp_app.specs.Inputs.{limit_of};
ghost use Rattle.fp_app.specs.Notes.{NotesOf};
ghost use Rattle.fp_app.specs.Texts.{IsText};
ghost use Rattle.fp_app.specs.Runs.{Answers, Leaves, Settles, TakesOneMore, TakesWithin, Writes, reach_of};
ghost use Rattle.fp_app_words.specs.TimeLimits.{seconds_of};
ghost use Rattle.fp_app_words.specs.Words.{order_of, texts};

use crate::answer::answer;
use crate::failures::Failure;
use crate::no_notes::NoNotes;
use crate::{Ran, Shown, Status, text};
use fp_app_words::time_limits_hold;
use fp_ends::{Clock, Sink, Source, StillClock, WriteFault, write_all};
use std::alloc::Global;

// A run that has no answer.
fn without_answer(status: Status) -> Ran
    ensures { result ≡ record { status = status; shown = Shown.Nothing } }
{
    Ran {
        status,
        shown: Shown::Nothing,
    }
}

/// All that the program does: reads the words and the source, and writes the text of the answer to
/// the sink.
///
/// It looks at no clock: an option of seconds is read, and ends nothing.
///
/// The words are those after the program's name. The whole text is built before the first write.
/// Want of memory may come at any point before that, and ends with `NoMemory`; every other status
/// has its cause among the clauses.
pub fn run<S: Source, K: Sink>(alloc: Global, words: &[String], source: &mut S, sink: &mut K) -> Ran
    // What is shown answers the words and the input, and the status is its own.
    ensures answers { Settles (reach_of result.status) result.status result.shown
        (Answers false (order_of (texts words.now)) (S.left source.old) (S.left source.new) result.shown) }

    // The text is written, a front of it at a write fault, and nothing without an answer.
    ensures writes { Writes K.taken (reach_of result.status) sink.old sink.new result.shown }

    // Each fault of the source or the sink has its cause, and no count falls.
    ensures read_fault { result.status ≡ Status.ReadFault
        → Rose (S.faults source.old) (S.faults source.new) }
    ensures write_fault { result.status ≡ Status.WriteFault
        → Rose (K.faults sink.old) (K.faults sink.new) }
    ensures reads_later { S.faults source.old ≤ S.faults source.new }
    ensures writes_later { K.faults sink.old ≤ K.faults sink.new }
    ensures reads_same { result.status ≢ Status.ReadFault → S.faults source.new ≡ S.faults source.old }
    ensures writes_same { result.status ≢ Status.WriteFault → K.faults sink.new ≡ K.faults sink.old }

    // No fault comes over a source that is sure, nor over a sink that surely has room for each text of
    // what is shown.
    ensures sure_reads { S.is_sure source.old ≡ true → result.status ≢ Status.ReadFault }
    ensures sure_writes { ((text : List ℕ) → IsText result.shown text → length text ≤ K.sure_room sink.old)
        → result.status ≢ Status.WriteFault }

    // At most one byte past the limit is taken: none before a failed read, and one where the input is
    // too long.
    ensures takes_within { TakesWithin (limit_of (order_of (texts words.now)) + 1) (S.left source.old) (S.left source.new) }
    ensures fault_within { result.status ≡ Status.ReadFault
        → TakesWithin (limit_of (order_of (texts words.now))) (S.left source.old) (S.left source.new) }
    ensures long_within { result.shown ≡ Shown.TooLong
        → TakesOneMore (limit_of (order_of (texts words.now))) (S.left source.old) (S.left source.new) }

    // Words of no form leave the source alone.
    ensures leaves { Leaves (order_of (texts words.now)) source.old source.new }
    ensures bad_words { result.status ≡ Status.BadWords → order_of (texts words.now) ≡ None }

    // The causes of the other statuses, where the source tells its input.
    ensures too_long { (input : List ℕ) → S.left source.old ≡ Some input → result.status ≡ Status.TooLong
        → limit_of (order_of (texts words.now)) < length input }
    ensures bad_input { (input : List ℕ) → S.left source.old ≡ Some input → result.status ≡ Status.BadInput
        → ShowsFault (order_of (texts words.now)) input result.shown }
    ensures infeasible { (input : List ℕ) → S.left source.old ≡ Some input → result.status ≡ Status.Infeasible
        → ShowsInfeasible (order_of (texts words.now)) input result.shown }
    ensures unfinished { (input : List ℕ) → S.left source.old ≡ Some input → result.status ≡ Status.Unfinished
        → ShowsOpen false (order_of (texts words.now)) input result.shown }
    ensures done { (input : List ℕ) → S.left source.old ≡ Some input → result.status ≡ Status.Done
        → ShowsDone false (order_of (texts words.now)) input result.shown }
    ensures rejected { (input : List ℕ) → S.left source.old ≡ Some input → result.status ≡ Status.Rejected
        → ShowsRejection (order_of (texts words.now)) input result.shown }

    // With memory and without a fault the status is the one that the words and the input have.
    ensures completes { (input : List ℕ) → S.left source.old ≡ Some input
        → (Rose (S.faults source.old) (S.faults source.new) → ⊥) → (Rose (K.faults sink.old) (K.faults sink.new) → ⊥)
        → (result.status ≡ Status.NoMemory) ⊎ StatusOf false (order_of (texts words.now)) input result.status }

    // So it is, but for want of memory, over a source that is sure and a sink that surely has room.
    ensures follows { (input : List ℕ) → S.left source.old ≡ Some input → S.is_sure source.old ≡ true
        → ((text : List ℕ) → IsText result.shown text → length text ≤ K.sure_room sink.old)
        → (result.status ≡ Status.NoMemory) ⊎ StatusOf false (order_of (texts words.now)) input result.status }
{
    // A clock that stands shows no second.
    time_limits_hold();
    run_within(
        alloc,
        words,
        source,
        sink,
        &mut StillClock::new(),
        &mut NoNotes::new(),
    )
}

/// The same by a clock: where the words give seconds, a search ends once the clock shows them, or
/// fails. An answer for want of time comes only where it did so in this call. And with notes: where
/// the words want them, a third end is told of a search while it goes on.
pub fn run_within<S: Source, K: Sink, C: Clock, N: Sink>(
    alloc: Global,
    words: &[String],
    source: &mut S,
    sink: &mut K,
    clock: &mut C,
    notes: &mut N,
) -> Ran
    // What is shown answers the words and the input, and the status is its own.
    ensures answers { Settles (reach_of result.status) result.status result.shown
        (Answers (has_shown (seconds_of (order_of (texts words.now))) (C.moment clock.new) (C.faults clock.old) (C.faults clock.new)) (order_of (texts words.now)) (S.left source.old) (S.left source.new) result.shown) }

    // The text is written, a front of it at a write fault, and nothing without an answer.
    ensures writes { Writes K.taken (reach_of result.status) sink.old sink.new result.shown }

    // Each fault of the source or the sink has its cause, and no count falls.
    ensures read_fault { result.status ≡ Status.ReadFault
        → Rose (S.faults source.old) (S.faults source.new) }
    ensures write_fault { result.status ≡ Status.WriteFault
        → Rose (K.faults sink.old) (K.faults sink.new) }
    ensures reads_later { S.faults source.old ≤ S.faults source.new }
    ensures writes_later { K.faults sink.old ≤ K.faults sink.new }
    ensures reads_same { result.status ≢ Status.ReadFault → S.faults source.new ≡ S.faults source.old }
    ensures writes_same { result.status ≢ Status.WriteFault → K.faults sink.new ≡ K.faults sink.old }

    // No fault comes over a source that is sure, nor over a sink that surely has room for each text of
    // what is shown.
    ensures sure_reads { S.is_sure source.old ≡ true → result.status ≢ Status.ReadFault }
    ensures sure_writes { ((text : List ℕ) → IsText result.shown text → length text ≤ K.sure_room sink.old)
        → result.status ≢ Status.WriteFault }

    // At most one byte past the limit is taken: none before a failed read, and one where the input is
    // too long.
    ensures takes_within { TakesWithin (limit_of (order_of (texts words.now)) + 1) (S.left source.old) (S.left source.new) }
    ensures fault_within { result.status ≡ Status.ReadFault
        → TakesWithin (limit_of (order_of (texts words.now))) (S.left source.old) (S.left source.new) }
    ensures long_within { result.shown ≡ Shown.TooLong
        → TakesOneMore (limit_of (order_of (texts words.now))) (S.left source.old) (S.left source.new) }

    // Words of no form leave the source alone.
    ensures leaves { Leaves (order_of (texts words.now)) source.old source.new }
    ensures bad_words { result.status ≡ Status.BadWords → order_of (texts words.now) ≡ None }

    // The causes of the other statuses, where the source tells its input.
    ensures too_long { (input : List ℕ) → S.left source.old ≡ Some input → result.status ≡ Status.TooLong
        → limit_of (order_of (texts words.now)) < length input }
    ensures bad_input { (input : List ℕ) → S.left source.old ≡ Some input → result.status ≡ Status.BadInput
        → ShowsFault (order_of (texts words.now)) input result.shown }
    ensures infeasible { (input : List ℕ) → S.left source.old ≡ Some input → result.status ≡ Status.Infeasible
        → ShowsInfeasible (order_of (texts words.now)) input result.shown }
    ensures unfinished { (input : List ℕ) → S.left source.old ≡ Some input → result.status ≡ Status.Unfinished
        → ShowsOpen (has_shown (seconds_of (order_of (texts words.now))) (C.moment clock.new) (C.faults clock.old) (C.faults clock.new)) (order_of (texts words.now)) input result.shown }
    ensures done { (input : List ℕ) → S.left source.old ≡ Some input → result.status ≡ Status.Done
        → ShowsDone (has_shown (seconds_of (order_of (texts words.now))) (C.moment clock.new) (C.faults clock.old) (C.faults clock.new)) (order_of (texts words.now)) input result.shown }
    ensures rejected { (input : List ℕ) → S.left source.old ≡ Some input → result.status ≡ Status.Rejected
        → ShowsRejection (order_of (texts words.now)) input result.shown }

    // With memory and without a fault the status is the one that the words and the input have.
    ensures completes { (input : List ℕ) → S.left source.old ≡ Some input
        → (Rose (S.faults source.old) (S.faults source.new) → ⊥) → (Rose (K.faults sink.old) (K.faults sink.new) → ⊥)
        → (result.status ≡ Status.NoMemory) ⊎ StatusOf (has_shown (seconds_of (order_of (texts words.now))) (C.moment clock.new) (C.faults clock.old) (C.faults clock.new)) (order_of (texts words.now)) input result.status }

    // What is noted of a search is true, whatever comes of it.
    ensures noted { (input : List ℕ) → S.left source.old ≡ Some input → NotesOf (order_of (texts words.now)) input (N.taken notes.old) (N.taken notes.new) }

    // So it is, but for want of memory, over a source that is sure and a sink that surely has room.
    ensures follows { (input : List ℕ) → S.left source.old ≡ Some input → S.is_sure source.old ≡ true
        → ((text : List ℕ) → IsText result.shown text → length text ≤ K.sure_room sink.old)
        → (result.status ≡ Status.NoMemory) ⊎ StatusOf (has_shown (seconds_of (order_of (texts words.now))) (C.moment clock.new) (C.faults clock.old) (C.faults clock.new)) (order_of (texts words.now)) input result.status }
{
    let shown = match answer(alloc, words, source, clock, notes) {
        Ok(shown) => shown,
        Err(Failure::ReadFault) => return without_answer(Status::ReadFault),
        Err(Failure::NoMemory) => return without_answer(Status::NoMemory),
    };
    let Ok(text) = text(alloc, &shown) else {
        return without_answer(Status::NoMemory);
    };
    match write_all(sink, &text) {
        Ok(()) => Ran {
            status: shown.status(),
            shown,
        },
        Err(WriteFault) => Ran {
            status: Status::WriteFault,
            shown,
        },
    }
}
