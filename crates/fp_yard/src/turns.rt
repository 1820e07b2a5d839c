//! The allowed events from turn to turn.
ghost use Rattle.std.specs.Prelude.{ℕ, ◌≡◌, ◌<◌, ◌↔◌, AllPairs, IsTrue, List, OnOk, length};
ghost use Rattle.fp_model.specs.declared.parts.Member.{Member};
ghost use Rattle.fp_yard.specs.declared.events.Event.{Event};
ghost use Rattle.fp_yard.specs.Enabled.{AreAllowed, AreEnabledBut, HasAdded, IsAfter, IsPlaceOf, WereEnabled};
ghost use Rattle.fp_yard.specs.Events.{AreEnabled, IsLegal, event_at};
ghost use Rattle.fp_yard.specs.Schedules.{IsFreightOf, journey_at};

use crate::NoMemory;
use crate::allowed_events::next_event;
use crate::events::{Event, EventKind};
use crate::yards::Yard;
use fp_model::Member;

// The place of a line among events by line.
fn place_of(events: &[Event], line: u32) -> usize
    requires { AllPairs (λ (e f : Event). e.line < f.line) events.now }
    ensures { IsPlaceOf events.now line result }
{
    events.partition_point(|event| event.line < line)
}

// Whether an event of a line stands at a place.
fn stands_at(events: &[Event], line: u32, place: usize) -> bool
    ensures { IsTrue result
        ↔ ((place < length events.now) × ((event_at events.now place).line ≡ line)) }
{
    place < events.len() && events[place].line == line
}

// Adds the allowed event of a line, if there is one that isn't listed.
fn add_next(yard: &Yard, line: u32, events: &mut Vec<Event>) -> Result<(), NoMemory>
    requires exists { line < length yard.now.schedule.tails }
    requires legal { IsLegal yard.now.schedule yard.now.history }
    requires are { AreAllowed yard.now.schedule yard.now.history events.old.items }
    ensures { OnOk result (HasAdded yard.now.schedule yard.now.history (λ l. l ≡ line)
        events.old.items events.new.items) }
{
    let place = place_of(events, line);
    if stands_at(events, line, place) {
        return Ok(());
    }
    let Some(event) = next_event(yard, line) else {
        return Ok(());
    };
    events.insert(place, event)?;
    Ok(())
}

// Adds the allowed event of the line just after a leg, if there is one that isn't listed.
fn add_after(yard: &Yard, leg: Member, events: &mut Vec<Event>) -> Result<(), NoMemory>
    requires shipment { leg.shipment < length yard.now.schedule.journeys }
    requires leg { leg.leg < length (journey_at yard.now.schedule leg.shipment) }
    requires are { AreAllowed yard.now.schedule yard.now.history events.old.items }
    ensures { OnOk result (HasAdded yard.now.schedule yard.now.history
        (IsAfter yard.now.schedule leg) events.old.items events.new.items) }
{
    let Some(line) = yard.line_after(leg) else {
        return Ok(());
    };
    add_next(yard, line, events)
}

// Adds the events that are missing of the lines just after the freight of a line.
fn add_missing(yard: &Yard, line: u32, events: &mut Vec<Event>) -> Result<(), NoMemory>
    requires exists { line < length yard.now.schedule.tails }
    requires but { (legs : List Member) → IsFreightOf yard.now.schedule line legs
        → AreEnabledBut yard.now.schedule yard.now.history legs events.old.items }
    ensures { OnOk result (AreEnabled yard.now.schedule yard.now.history events.new.items) }
{
    for leg in yard.freight(line) {
        add_after(yard, *leg, events)?;
    }
    Ok(())
}

// Brings the allowed events up to date where the one at a place has happened: a line that has
// departed may arrive, and where one has arrived, the lines that its freight goes by next may depart.
pub(crate) fn advance(yard: &Yard, place: usize, events: &mut Vec<Event>) -> Result<(), NoMemory>
    requires place { place < length events.old.items }
    requires were { WereEnabled yard.now.schedule yard.now.history place events.old.items }
    ensures { OnOk result (AreEnabled yard.now.schedule yard.now.history events.new.items) }
{
    let Event { line, kind } = events[place];
    match kind {
        EventKind::Departs => {
            events[place] = Event {
                line,
                kind: EventKind::Arrives,
            };
            Ok(())
        }
        EventKind::Arrives => {
            events.remove(place);
            add_missing(yard, line, events)
        }
    }
}
