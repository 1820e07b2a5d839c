//! For each arc the first and the last moment at which a shipment can leave by it under sides, on some way from its
//! origin to its destination.

ghost use Rattle.std.specs.Prelude.{ℕ, ◌≡◌, ◌<◌, IfOk, [], length};
ghost use Rattle.fp_flatnet.specs.Belonging.{FitsInstance};
ghost use Rattle.fp_flatnet.specs.Tables.{row_lists, windows_in};
ghost use Rattle.fp_allowed.specs.FreeMoments.{IsAsked};
ghost use Rattle.fp_allowed.specs.Sweeps.{AllBelow, AreOnward, AreReady, Betters, IsAtLeast, IsAtMost, IsRowOf, IsSet, IsStableFrom, IsStableTo, IsWindowOf, left_above, left_below};
ghost use Rattle.fp_allowed.specs.WindowsUnder.{AreWindowRowsUnder, IsWindowRowUnder};

use crate::NoMemory;
use crate::allowed_rows::sides_by_terminal;
use crate::free_moments::{Asked, first_leave, last_leave};
use crate::moments::barring;
use fp_flatnet::{Window, Windows};
use fp_model::Instance;
use fp_tree::Side;
use std::alloc::Global;

// Sets the value of a terminal to one that is less, or where it has none; else it changes nothing. Whether it
// changed.
fn lower(values: &mut [Option<u32>], terminal: u32, to: u32) -> bool
    requires { terminal < length values.old }
    ensures { IsSet IsAtMost values.old terminal to values.new result }
{
    let place = terminal as usize;
    match values[place] {
        Some(value) if value <= to => false,
        _ => {
            values[place] = Some(to);
            true
        }
    }
}

// Sets the value of a terminal to one that is greater, or where it has none; else it changes nothing. Whether it
// changed.
fn raise(values: &mut [Option<u32>], terminal: u32, to: u32) -> bool
    requires { terminal < length values.old }
    ensures { IsSet IsAtLeast values.old terminal to values.new result }
{
    let place = terminal as usize;
    match values[place] {
        Some(value) if value >= to => false,
        _ => {
            values[place] = Some(to);
            true
        }
    }
}

// Betters the earliest moment of an arc's head by a leg that leaves by the arc as early as it can. Whether it
// changed.
fn better_head(asked: &Asked, arc: u32, earliest: &mut [Option<u32>]) -> bool
    requires asked { IsAsked asked.now }
    requires arc { arc < length asked.now.instance.now.arcs }
    requires long { length earliest.old ≡ length asked.now.instance.now.terminals }
    ensures { Betters (AreReady asked.now) left_below (λ values. IsStableFrom asked.now values arc) earliest.old earliest.new result }
{
    let ends = asked.instance.arc(arc);
    match first_leave(asked, arc, earliest[ends.from as usize]) {
        Some(leaves) => lower(earliest, ends.to, leaves + asked.instance.step(arc)),
        None => false,
    }
}

// Betters the latest moment of an arc's tail by a leg that leaves by the arc as late as it can. Whether it changed.
fn better_tail(asked: &Asked, arc: u32, latest: &mut [Option<u32>]) -> bool
    requires asked { IsAsked asked.now }
    requires arc { arc < length asked.now.instance.now.arcs }
    requires long { length latest.old ≡ length asked.now.instance.now.terminals }
    ensures { Betters (AreOnward asked.now) left_above (λ values. IsStableTo asked.now values arc) latest.old latest.new result }
{
    let ends = asked.instance.arc(arc);
    match last_leave(asked, arc, latest[ends.to as usize]) {
        Some(leaves) => raise(latest, ends.from, leaves),
        None => false,
    }
}

// Betters the earliest moments by each arc once. Whether one changed.
fn better_heads(asked: &Asked, earliest: &mut [Option<u32>]) -> bool
    requires asked { IsAsked asked.now }
    requires ready { AreReady asked.now earliest.old }
    ensures { Betters (AreReady asked.now) left_below (AllBelow (IsStableFrom asked.now) (length asked.now.instance.now.arcs)) earliest.old earliest.new result }
{
    let mut changed = false;
    for arc in 0..asked.instance.arcs().len() as u32 {
        changed |= better_head(asked, arc, earliest);
    }
    changed
}

// Betters the latest moments by each arc once. Whether one changed.
fn better_tails(asked: &Asked, latest: &mut [Option<u32>]) -> bool
    requires asked { IsAsked asked.now }
    requires onward { AreOnward asked.now latest.old }
    ensures { Betters (AreOnward asked.now) left_above (AllBelow (IsStableTo asked.now) (length asked.now.instance.now.arcs)) latest.old latest.new result }
{
    let mut changed = false;
    for arc in 0..asked.instance.arcs().len() as u32 {
        changed |= better_tail(asked, arc, latest);
    }
    changed
}

// For each terminal the earliest moment at which the shipment can be ready to leave it.
fn earliest_moments(alloc: Global, asked: &Asked) -> Result<Vec<Option<u32>>, NoMemory>
    requires { IsAsked asked.now }
    ensures ready { IfOk result (λ earliest. AreReady asked.now earliest.items) }
    ensures stable { IfOk result (λ earliest. AllBelow (IsStableFrom asked.now) (length asked.now.instance.now.arcs) earliest.items) }
{
    let shipment = asked.instance.shipment(asked.shipment);
    let mut earliest = vec![in alloc; None; asked.instance.terminals().len()]?;
    earliest[shipment.from as usize] = Some(shipment.release);
    let mut changed = true;
    while changed {
        changed = better_heads(asked, &mut earliest);
    }
    Ok(earliest)
}

// For each terminal the latest moment at which the shipment may be ready there and still go on to its destination;
// at the destination any.
fn latest_moments(alloc: Global, asked: &Asked) -> Result<Vec<Option<u32>>, NoMemory>
    requires { IsAsked asked.now }
    ensures onward { IfOk result (λ latest. AreOnward asked.now latest.items) }
    ensures stable { IfOk result (λ latest. AllBelow (IsStableTo asked.now) (length asked.now.instance.now.arcs) latest.items) }
{
    let shipment = asked.instance.shipment(asked.shipment);
    let mut latest = vec![in alloc; None; asked.instance.terminals().len()]?;
    latest[shipment.to as usize] = Some(u32::MAX);
    let mut changed = true;
    while changed {
        changed = better_tails(asked, &mut latest);
    }
    Ok(latest)
}

// The window of an arc between the earliest moment of its tail and the latest of its head, if there is one.
fn window_between(
    asked: &Asked,
    arc: u32,
    earliest: &[Option<u32>],
    latest: &[Option<u32>],
) -> Option<Window>
    requires asked { IsAsked asked.now }
    requires arc { arc < length asked.now.instance.now.arcs }
    requires earliest { length earliest.now ≡ length asked.now.instance.now.terminals }
    requires latest { length latest.now ≡ length asked.now.instance.now.terminals }
    ensures { IsWindowOf asked.now earliest.now latest.now arc result }
{
    let ends = asked.instance.arc(arc);
    let lo = first_leave(asked, arc, earliest[ends.from as usize])?;
    let hi = last_leave(asked, arc, latest[ends.to as usize])?;
    if lo <= hi {
        Some(Window { lo, hi })
    } else {
        None
    }
}

// For each arc its window between the earliest and the latest moments.
fn windows_between(
    alloc: Global,
    asked: &Asked,
    earliest: &[Option<u32>],
    latest: &[Option<u32>],
) -> Result<Vec<Option<Window>>, NoMemory>
    requires asked { IsAsked asked.now }
    requires earliest { length earliest.now ≡ length asked.now.instance.now.terminals }
    requires latest { length latest.now ≡ length asked.now.instance.now.terminals }
    ensures { IfOk result (λ row. IsRowOf asked.now earliest.now latest.now (length asked.now.instance.now.arcs) row.items) }
{
    let mut row = Vec::new(alloc);
    for arc in 0..asked.instance.arcs().len() as u32 {
        row.push(window_between(asked, arc, earliest, latest))?;
    }
    Ok(row)
}

// The windows of a shipment under sides, one an arc.
pub(crate) fn window_row(
    alloc: Global,
    instance: &Instance,
    windows: &Windows,
    shipment: u32,
    sides: &[Side],
) -> Result<Vec<Option<Window>>, NoMemory>
    requires shipment { shipment < length instance.now.shipments }
    requires fits { FitsInstance instance.now windows.now }
    ensures { IfOk result (λ row. IsWindowRowUnder instance.now (windows_in windows.now) sides.now shipment row.items) }
{
    let by_terminal = sides_by_terminal(alloc, instance, shipment, sides)?;
    let through = barring(alloc, shipment, sides)?;
    let asked = Asked {
        instance,
        windows,
        shipment,
        by_terminal: &by_terminal,
        through: &through,
    };
    let earliest = earliest_moments(alloc, &asked)?;
    let latest = latest_moments(alloc, &asked)?;
    windows_between(alloc, &asked, &earliest, &latest)
}

// The windows of all shipments under sides, as windows of the instance.
pub(crate) fn all_windows(
    alloc: Global,
    instance: &Instance,
    windows: &Windows,
    sides: &[Side],
) -> Result<Windows, NoMemory>
    requires fits { FitsInstance instance.now windows.now }
    ensures rows { IfOk result (λ w. AreWindowRowsUnder instance.now (windows_in windows.now) sides.now w.rows) }
    ensures anchors { IfOk result (λ w. w.anchors ≡ []) }
    ensures fits { IfOk result (FitsInstance instance.now) }
{
    let rows = all_rows(alloc, instance, windows, sides)?;
    Windows::narrower(alloc, instance, rows)
}

// The rows of all shipments under sides.
fn all_rows(
    alloc: Global,
    instance: &Instance,
    windows: &Windows,
    sides: &[Side],
) -> Result<Vec<Vec<Option<Window>>>, NoMemory>
    requires fits { FitsInstance instance.now windows.now }
    ensures { IfOk result (λ rows. AreWindowRowsUnder instance.now (windows_in windows.now) sides.now (row_lists rows.items)) }
{
    let mut rows = Vec::new(alloc);
    for shipment in 0..instance.shipments().len() as u32 {
        let row = window_row(alloc, instance, windows, shipment, sides)?;
        rows.push(row)?;
    }
    Ok(rows)
}
