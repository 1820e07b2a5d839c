//! The row of a shipment under sides: the bits of its allowed classes, arc by arc.

ghost use Rattle.std.specs.Prelude.{ℕ, ◌≡◌, ◌+◌, ◌≤◌, ◌<◌, ◌&&◌, Some, List, [], IfOk, false, length, slice_index_or};
ghost use Rattle.std.specs.declared.alloc.Global.{Global};
ghost use Rattle.std.specs.declared.vec.Vec.{Vec};
ghost use Rattle.fp_model.specs.declared.parts.Leg.{Leg};
ghost use Rattle.fp_timenodes.specs.Floor.{floor_point};
ghost use Rattle.fp_flatnet.specs.Belonging.{FitsInstance};
ghost use Rattle.fp_flatnet.specs.Tables.{windows_in};
ghost use Rattle.fp_longestarcs.specs.Networks.{IsNetwork, class_count, class_number, points_in, tail_in};
ghost use Rattle.fp_longestarcs.specs.Whole.{IsWholeNetwork};
ghost use Rattle.fp_tree.specs.declared.sides.Side.{Side};
ghost use Rattle.fp_allowed.specs.Allowed.{is_allowed, tails_of};
ghost use Rattle.fp_allowed.specs.Bits.{FillsArc, IsRowUnder};
ghost use Rattle.fp_allowed.specs.Moments.{AreByTerminal, concerned, has_open, is_barred as is_barred_of, is_between};

use crate::NoMemory;
use crate::moments::{barring, first_part, is_barred, speaks_of, terminal_of};
use fp_flatnet::{Window, Windows};
use fp_longestarcs::{MOST_CLASSES, Network};
use fp_model::Instance;
use fp_model::limits::LATEST;
use fp_rows::Row;
use fp_tree::Side;
use std::alloc::Global;

// For each terminal the sides that restrict the departures of a shipment from it.
pub(crate) fn sides_by_terminal(
    alloc: Global,
    instance: &Instance,
    shipment: u32,
    sides: &[Side],
) -> Result<Vec<Vec<Side>>, NoMemory>
    ensures { IfOk result (λ lists. AreByTerminal instance.now shipment sides.now lists.items) }
{
    let mut lists = no_sides(alloc, instance.terminals().len())?;
    for side in sides {
        let terminal = terminal_of(instance, *side) as usize;
        if speaks_of(shipment, *side) && terminal < lists.len() {
            let own = &mut lists[terminal];
            own.push(*side)?;
        }
    }
    Ok(lists)
}

// No sides for each of so many terminals.
fn no_sides(alloc: Global, terminals: usize) -> Result<Vec<Vec<Side>>, NoMemory>
    ensures long { IfOk result (λ lists. length lists.items ≡ terminals) }
    ensures empty { IfOk result (λ lists. (t : ℕ) (d : Vec Side Global) → t < terminals → (slice_index_or lists.items t d).items ≡ []) }
{
    let mut lists = Vec::with_capacity(alloc, terminals)?;
    for _terminal in 0..terminals {
        lists.push(Vec::new(alloc))?;
    }
    Ok(lists)
}

// The number of an arc's class that has a moment.
fn class_until(network: &Network, arc: u32, tail: u32, at: u32) -> u32
    requires valid { IsNetwork network.now }
    requires arc { arc < length network.now.tails }
    requires tail { tail ≡ tail_in network.now arc }
    ensures number { result ≡ class_number network.now (record { arc = arc; depart = floor_point (points_in network.now tail) 1 at }) }
    ensures below { result < MOST_CLASSES }
{
    network.class(arc, network.floor(tail, at))
}

// Sets the bits of an arc's classes from that of a window's first moment to that of its last.
fn fill_classes(network: &Network, arc: u32, tail: u32, window: Window, row: &mut Row)
    requires valid { IsNetwork network.now }
    requires arc { arc < length network.now.tails }
    requires tail { tail ≡ tail_in network.now arc }
    requires some { window.lo ≤ window.hi }
    requires long { length row.old ≡ class_count network.now }
    ensures { FillsArc network.now arc (λ c. is_between (points_in network.now tail) (Some window) c.depart) row.old row.new }
{
    let first = class_until(network, arc, tail, window.lo);
    let last = class_until(network, arc, tail, window.hi);
    row.fill_range(first, last + 1);
}

// Sets the bits of an arc's classes that have a moment in a part of a window, where it is free.
fn fill_part(network: &Network, arc: u32, tail: u32, part: Window, free: bool, row: &mut Row)
    requires valid { IsNetwork network.now }
    requires arc { arc < length network.now.tails }
    requires tail { tail ≡ tail_in network.now arc }
    requires some { part.lo ≤ part.hi }
    requires long { length row.old ≡ class_count network.now }
    ensures { FillsArc network.now arc (λ c. free && is_between (points_in network.now tail) (Some part) c.depart) row.old row.new }
{
    if free {
        fill_classes(network, arc, tail, part, row);
    }
}

// Sets the bits of an arc's classes that have a moment in a window at which all sides let a leg
// leave, part by part.
fn fill_parts(network: &Network, arc: u32, tail: u32, window: Window, sides: &[Side], row: &mut Row)
    requires valid { IsNetwork network.now }
    requires arc { arc < length network.now.tails }
    requires tail { tail ≡ tail_in network.now arc }
    requires some { window.lo ≤ window.hi }
    requires in_time { window.hi ≤ LATEST }
    requires long { length row.old ≡ class_count network.now }
    ensures { FillsArc network.now arc (λ c. has_open (points_in network.now tail) arc sides.now window.lo (window.hi + 1) c.depart) row.old row.new }
{
    let mut lo = window.lo;
    while lo <= window.hi {
        let hi = window.hi;
        let (last, free) = first_part(Window { lo, hi }, arc, sides);
        fill_part(network, arc, tail, Window { lo, hi: last }, free, row);
        lo = last + 1;
    }
}

// Sets the bits of the allowed classes of an arc that no side bars, where the sides are those that restrict
// the shipment's departures from the arc's tail.
fn fill_arc(
    instance: &Instance,
    windows: &Windows,
    network: &Network,
    shipment: u32,
    arc: u32,
    sides: &[Side],
    row: &mut Row,
)
    requires shipment { shipment < length instance.now.shipments }
    requires arc { arc < length instance.now.arcs }
    requires fits { FitsInstance instance.now windows.now }
    requires whole { IsWholeNetwork instance.now network.now }
    requires long { length row.old ≡ class_count network.now }
    ensures { (others : List Side) → sides.now ≡ concerned instance.now shipment (tails_of instance.now arc) others → is_barred_of instance.now shipment arc others ≡ false →
        FillsArc network.now arc (is_allowed instance.now (windows_in windows.now) (points_in network.now) others shipment) row.old row.new }
{
    if let Some((lo, hi)) = windows.window(shipment, arc) {
        let tail = instance.arc(arc).from;
        fill_parts(network, arc, tail, Window { lo, hi }, sides, row);
    }
}

// The row of a shipment under sides.
pub(crate) fn allowed_row(
    alloc: Global,
    instance: &Instance,
    windows: &Windows,
    network: &Network,
    shipment: u32,
    sides: &[Side],
) -> Result<Row, NoMemory>
    requires shipment { shipment < length instance.now.shipments }
    requires fits { FitsInstance instance.now windows.now }
    requires whole { IsWholeNetwork instance.now network.now }
    ensures { IfOk result (λ row. IsRowUnder (record { problem = instance.now; windows = windows.now; network = network.now }) sides.now shipment row) }
{
    let by_terminal = sides_by_terminal(alloc, instance, shipment, sides)?;
    let through = barring(alloc, shipment, sides)?;
    let mut row = Row::new(alloc, network.classes())?;
    for arc in 0..instance.arcs().len() as u32 {
        if !is_barred(instance, shipment, arc, &through) {
            let own = &by_terminal[instance.arc(arc).from as usize];
            fill_arc(instance, windows, network, shipment, arc, own, &mut row);
        }
    }
    Ok(row)
}
