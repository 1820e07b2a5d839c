//! The events that are allowed.
ghost use Rattle.std.specs.Prelude.{◌≡◌, ◌+◌, ◌<◌, ◌^◌, IfOk, MatchOption, OnOk, length};
ghost use Rattle.fp_yard.specs.declared.events.Event.{Event};
ghost use Rattle.fp_yard.specs.Events.{AreEnabled, IsAllowed, IsLegal};
ghost use Rattle.fp_yard.specs.Enabled.{AreEnabledBelow, NoneAllowed, next_kind};

use crate::NoMemory;
use crate::events::{Event, EventKind, LineStage};
use crate::yards::Yard;
use std::alloc::Global;

// The kind of event that a line at a stage waits for.
fn kind_after(stage: LineStage) -> EventKind
    ensures { result ≡ next_kind stage }
{
    match stage {
        LineStage::Waiting => EventKind::Departs,
        LineStage::Rolling => EventKind::Arrives,
        LineStage::Done => EventKind::Arrives,
    }
}

// The event of a line that is allowed, if there is one.
pub(crate) fn next_event(yard: &Yard, line: u32) -> Option<Event>
    requires { line < length yard.now.schedule.tails }
    ensures event { MatchOption result (NoneAllowed yard.now.schedule yard.now.history line)
        (λ e. (e.line ≡ line) × IsAllowed yard.now.schedule yard.now.history e) }
    ensures legal { IsLegal yard.now.schedule yard.now.history }
{
    let event = Event {
        line,
        kind: kind_after(yard.stage(line)),
    };
    match yard.fault(event) {
        Some(_) => None,
        None => Some(event),
    }
}

// Adds the allowed event of a line to those of the lines before it.
fn push_next(yard: &Yard, line: u32, events: &mut Vec<Event>) -> Result<(), NoMemory>
    requires exists { line < length yard.now.schedule.tails }
    requires before { AreEnabledBelow yard.now.schedule yard.now.history line events.old.items }
    ensures { OnOk result
        (AreEnabledBelow yard.now.schedule yard.now.history (line + 1) events.new.items) }
{
    let Some(event) = next_event(yard, line) else {
        return Ok(());
    };
    events.push(event)?;
    Ok(())
}

impl Yard {
    /// The events that `apply` would accept, by line. `NoMemory` only where no memory is found.
    pub fn enabled(&self, alloc: Global) -> Result<Vec<Event>, NoMemory>
        ensures events { IfOk result
            (λ events. AreEnabled self.now.schedule self.now.history events.items) }
        ensures few { IfOk result (λ events. length events.items < 2 ^ 32) }
    {
        let mut events = Vec::new(alloc);
        for line in 0..self.lines() {
            push_next(self, line, &mut events)?;
        }
        Ok(events)
    }
}
