//! Lines `departs,FROM,TO,DEPART` and `arrives,FROM,TO,DEPART`.
ghost use Rattle.std.specs.Prelude.{◌≡◌, ◌<◌, ◌++◌, All, OnOk, false, length, map};
ghost use Rattle.fp_records.specs.Text.{line_of, lines_of};
ghost use Rattle.fp_timetable.specs.Lines.{TruckExists};
ghost use Rattle.fp_yard_sheets.specs.Rows.{EventsExist, event_fields, event_word};

use crate::NoMemory;
use crate::names::{write_head, write_tail};
use fp_model::Instance;
use fp_records::Line;
use fp_timetable::TruckLine;
use fp_yard::{Event, EventKind};

// The word of a kind of event.
fn word_of(kind: EventKind) -> &'static [u8]
    ensures { result.now ≡ event_word kind }
{
    match kind {
        EventKind::Departs => b"departs",
        EventKind::Arrives => b"arrives",
    }
}

// Adds the line of an event.
fn write_event(
    line: &mut Line,
    instance: &Instance,
    trucks: &[TruckLine],
    event: Event,
) -> Result<(), NoMemory>
    requires begun { line.old.begun ≡ false }
    requires exist { All (TruckExists instance.now) trucks.now }
    requires exists { event.line < length trucks.now }
    ensures text { OnOk result
        (line.new.text ≡ line.old.text ++ line_of (event_fields instance.now trucks.now event)) }
    ensures ended { OnOk result (line.new.begun ≡ false) }
{
    let truck = &trucks[event.line as usize];
    line.word(word_of(event.kind))?;
    write_tail(line, instance, truck)?;
    write_head(line, instance, truck)?;
    line.number(u128::from(truck.depart))?;
    line.end()?;
    Ok(())
}

// Adds the lines of events.
pub(crate) fn write_events(
    line: &mut Line,
    instance: &Instance,
    trucks: &[TruckLine],
    log: &[Event],
) -> Result<(), NoMemory>
    requires begun { line.old.begun ≡ false }
    requires exist { All (TruckExists instance.now) trucks.now }
    requires log { EventsExist trucks.now log.now }
    ensures text { OnOk result (line.new.text
        ≡ line.old.text ++ lines_of (map (event_fields instance.now trucks.now) log.now)) }
    ensures ended { OnOk result (line.new.begun ≡ false) }
{
    for event in log {
        write_event(line, instance, trucks, *event)?;
    }
    Ok(())
}
