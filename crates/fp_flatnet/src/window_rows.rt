//! The windows of each shipment, from the least times from its origin and to its destination.
ghost use Rattle.std.specs.Prelude.{◌≡◌, ◌+◌, ◌<◌, ◌≤◌, length, IfOk};
ghost use Rattle.fp_model.specs.Problem.{IsShipment, arc_at};
ghost use Rattle.fp_model.specs.Times.{IsDistance};
ghost use Rattle.fp_flatnet.specs.Distances.{AreTimesFrom, AreTimesTo};
ghost use Rattle.fp_flatnet.specs.Tables.{row_lists};
ghost use Rattle.fp_flatnet.specs.Windows.{AreWindowRows, IsWindowOrNone, IsWindowRow, time_before as time_before_of, time_onward as time_onward_of};

use crate::NoMemory;
use crate::arc_graphs::{backward_graph, forward_graph};
use crate::least_times::{LONGEST_LEAST_TIME, times_from, times_to};
use crate::window_tables::Window;
use fp_model::limits::{GREATEST_HOLD, LONGEST_STEP};
use fp_model::{Instance, Shipment};
use std::alloc::Global;

// How long after its release a shipment can leave by an arc, where the least time to the arc's tail
// is known.
fn time_before(instance: &Instance, shipment: &Shipment, number: u32, to_tail: u32) -> u32
    requires number { number < length instance.now.arcs }
    requires small { to_tail ≤ LONGEST_LEAST_TIME }
    ensures value { result ≡ time_before_of instance.now shipment.now number to_tail }
    ensures small { result ≤ LONGEST_LEAST_TIME + GREATEST_HOLD }
{
    let tail = instance.arc(number).from;
    if tail == shipment.from {
        return 0;
    }
    to_tail + instance.hold(tail)
}

// The time of an arc and a walk onward to a terminal, where the least time from the arc's head is
// known.
pub(crate) fn time_onward(instance: &Instance, there: u32, number: u32, from_head: u32) -> u32
    requires number { number < length instance.now.arcs }
    requires small { from_head ≤ LONGEST_LEAST_TIME }
    ensures value { result ≡ time_onward_of instance.now there number from_head }
    ensures small { result ≤ LONGEST_LEAST_TIME + LONGEST_STEP }
{
    let arc = instance.arc(number);
    if arc.to == there {
        return arc.time;
    }
    instance.step(number) + from_head
}

// The window of a shipment and an arc, where the least times to the arc's tail and from its head
// are known.
fn window_of(
    instance: &Instance,
    shipment: &Shipment,
    number: u32,
    to_tail: Option<u32>,
    from_head: Option<u32>,
) -> Option<Window>
    requires number { number < length instance.now.arcs }
    requires shipment { IsShipment (length instance.now.terminals) shipment.now }
    requires to_tail { IsDistance instance.now shipment.now.from (arc_at instance.now number).from to_tail }
    requires from_head { IsDistance instance.now (arc_at instance.now number).to shipment.now.to from_head }
    ensures { IsWindowOrNone instance.now shipment.now number result }
{
    let arc = instance.arc(number);
    if arc.from == shipment.to || arc.to == shipment.from {
        return None;
    }
    let lo = shipment.release + time_before(instance, shipment, number, to_tail?);
    let after = time_onward(instance, shipment.to, number, from_head?);
    if lo + after > shipment.due {
        return None;
    }
    Some(Window {
        lo,
        hi: shipment.due - after,
    })
}

// The rows of all shipments' windows.
pub(crate) fn all_rows(
    alloc: Global,
    instance: &Instance,
) -> Result<Vec<Vec<Option<Window>>>, NoMemory>
    ensures { IfOk result (λ rows. AreWindowRows instance.now (row_lists rows.items)) }
{
    let forward = forward_graph(alloc, instance)?;
    let backward = backward_graph(alloc, instance)?;
    let mut rows = Vec::new(alloc);
    for shipment in instance.shipments() {
        let from_origin = times_from(alloc, instance, &forward, shipment.from)?;
        let to_destination = times_to(alloc, instance, &backward, shipment.to)?;
        let row = window_row(alloc, instance, shipment, &from_origin, &to_destination)?;
        rows.push(row)?;
    }
    Ok(rows)
}

// The row of a shipment's windows, where the least times from its origin and to its destination are
// known.
fn window_row(
    alloc: Global,
    instance: &Instance,
    shipment: &Shipment,
    from_origin: &[Option<u32>],
    to_destination: &[Option<u32>],
) -> Result<Vec<Option<Window>>, NoMemory>
    requires shipment { IsShipment (length instance.now.terminals) shipment.now }
    requires from_origin { AreTimesFrom instance.now shipment.now.from from_origin.now }
    requires to_destination { AreTimesTo instance.now shipment.now.to to_destination.now }
    ensures { IfOk result (λ row. IsWindowRow instance.now shipment.now row.items) }
{
    let mut row = Vec::new(alloc);
    for number in 0..instance.arcs().len() {
        let arc = instance.arc(number as u32);
        let to_tail = from_origin[arc.from as usize];
        let from_head = to_destination[arc.to as usize];
        row.push(window_of(instance, shipment, number as u32, to_tail, from_head))?;
    }
    Ok(row)
}
