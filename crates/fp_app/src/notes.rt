//! Notes on a search while it goes on: its figures, and each cheaper plan as an answer of the kind `direct`.
ghost use Rattle.std.specs.Prelude.{◌≡◌, ◌⊎◌, ◌++◌, [], false, true, None, Some, IfOk, OnOk, IfSome, IsSomeAnd, MatchBool};
ghost use Rattle.fp_flatnet.specs.Tables.{windows_in};
ghost use Rattle.fp_model.specs.Plans.{IsPlan};
ghost use Rattle.fp_certificate_rules.specs.Claims.{NoPlanWithinCheaper};
ghost use Rattle.fp_session.specs.Progress.{IsProgress};
ghost use Rattle.fp_session.specs.Sessions.{cheapest_of};
ghost use Rattle.fp_app.specs.Notes.{IsLook, IsNoWorse, IsNoteOf, IsPlanText, is_cheaper, note_line};

use crate::NoMemory;
use crate::texts::direct_text;
use fp_ends::{Sink, write_all};
use fp_records::Line;
use fp_session::{Progress, Session};
use std::alloc::Global;

// After so many steps without news a search is noted all the same.
const MOST_QUIET: u32 = 100;

/// What a plan costs, and a number under which none costs.
#[derive(Clone, Copy, Debug, PartialEq, Eq)]
pub(crate) struct Figures {
    pub cost: u128,
    pub bound: u128,
}

/// Whether notes are written, what was noted last, and how many looks ago.
#[derive(Clone, Copy, Debug, PartialEq, Eq)]
pub(crate) struct Noted {
    pub is_open: bool,
    pub last: Option<Figures>,
    pub looks: u32,
}

// Adds the line of a note.
fn write_note(line: &mut Line, seen: Progress) -> Result<(), NoMemory>
    requires begun { line.old.begun ≡ false }
    ensures text { OnOk result (line.new.text ≡ line.old.text ++ note_line seen.rounds seen.branches seen.cost seen.bound) }
{
    line.word(b"note")?;
    line.number(u128::from(seen.rounds))?;
    line.number(u128::from(seen.branches))?;
    line.number(seen.cost)?;
    line.number(seen.bound)?;
    line.end()?;
    Ok(())
}

// The line of a note.
fn note_bytes(alloc: Global, seen: Progress) -> Result<Vec<u8>, NoMemory>
    ensures { IfOk result (λ text. text.items ≡ note_line seen.rounds seen.branches seen.cost seen.bound) }
{
    let mut line = Line::new(alloc)?;
    write_note(&mut line, seen)?;
    Ok(line.into_bytes())
}

// A plan's text, and the line of a note after it.
fn note_text(alloc: Global, plan: Vec<u8>, seen: Progress) -> Result<Vec<u8>, NoMemory>
    ensures { IfOk result (λ text. text.items ≡ plan.items ++ note_line seen.rounds seen.branches seen.cost seen.bound) }
{
    let line = note_bytes(alloc, seen)?;
    let mut text = plan;
    text.extend_from_slice(&line)?;
    Ok(text)
}

// Whether a cost is below what was noted before, if anything was.
fn is_cheaper(before: Option<Figures>, cost: u128) -> bool
    ensures { result ≡ is_cheaper before cost }
{
    match before {
        Some(before) => cost < before.cost,
        None => true,
    }
}

// The plan of a search as an answer, where it is cheaper than what was noted before, and nothing
// elsewhere.
fn plan_text(alloc: Global, session: &Session, is_cheaper: bool) -> Result<Vec<u8>, NoMemory>
    requires { IsPlan session.now.instance 1 (cheapest_of session.now) }
    ensures { IfOk result (λ text. IsPlanText session.now.instance (cheapest_of session.now) is_cheaper text.items) }
{
    if is_cheaper {
        direct_text(alloc, session.instance(), session.cheapest())
    } else {
        Ok(Vec::new(alloc))
    }
}

// What is to be noted of a search, if it is news: it costs no more than what was noted before, and its
// bound is the greater one.
fn news(before: Noted, seen: Progress) -> Option<Progress>
    ensures same { IfSome result (λ x. (x.rounds ≡ seen.rounds) × (x.branches ≡ seen.branches) × (x.cost ≡ seen.cost)) }
    ensures bound { IfSome result (λ x. (x.bound ≡ seen.bound) ⊎ IsSomeAnd before.last (λ l. x.bound ≡ l.bound)) }
    ensures no_worse { IfSome result (λ x. IsNoWorse before.last x.cost x.bound) }
{
    let Some(last) = before.last else {
        return Some(seen);
    };
    if last.cost < seen.cost {
        return None;
    }
    let bound = last.bound.max(seen.bound);
    if seen.cost == last.cost && bound == last.bound && before.looks < MOST_QUIET {
        return None;
    }
    Some(Progress { bound, ..seen })
}

// Notes a search, whatever was noted before. Where the note can't be written, or there is no memory for
// it, no further one is.
fn told<N: Sink>(
    alloc: Global,
    session: &Session,
    notes: &mut N,
    before: Noted,
    seen: Progress,
) -> Noted
    requires was_open { before.is_open ≡ true }
    requires note { IsNoteOf session.now seen }
    requires no_worse { IsNoWorse before.last seen.cost seen.bound }
    requires known { IfSome before.last (λ l. NoPlanWithinCheaper session.now.instance (windows_in session.now.windows) l.bound) }
    ensures known { IfSome result.last (λ l. NoPlanWithinCheaper session.now.instance (windows_in session.now.windows) l.bound) }
    ensures look { IsLook session.now.instance session.now.windows before result (N.taken notes.old) (N.taken notes.new) }
{
    let closed = Noted {
        is_open: false,
        ..before
    };
    let is_cheaper = is_cheaper(before.last, seen.cost);
    let Ok(plan) = plan_text(alloc, session, is_cheaper) else {
        return closed;
    };
    let Ok(text) = note_text(alloc, plan, seen) else {
        return closed;
    };
    match write_all(notes, &text) {
        Ok(()) => {
            let last = Some(Figures {
                cost: seen.cost,
                bound: seen.bound,
            });
            Noted {
                is_open: true,
                last,
                looks: 0,
            }
        }
        Err(_) => closed,
    }
}

/// Looks at a search, and notes it where there is news, as long as notes are written.
pub(crate) fn look<N: Sink>(alloc: Global, session: &Session, notes: &mut N, before: Noted) -> Noted
    requires known { IfSome before.last (λ l. NoPlanWithinCheaper session.now.instance (windows_in session.now.windows) l.bound) }
    ensures known { IfSome result.last (λ l. NoPlanWithinCheaper session.now.instance (windows_in session.now.windows) l.bound) }
    ensures look { IsLook session.now.instance session.now.windows before result (N.taken notes.old) (N.taken notes.new) }
{
    if !before.is_open {
        return before;
    }
    match news(before, session.progress()) {
        Some(seen) => told(alloc, session, notes, before, seen),
        None => Noted {
            looks: before.looks.saturating_add(1),
            ..before
        },
    }
}
