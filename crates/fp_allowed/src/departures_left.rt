//! How many departures a shipment has left at a terminal under sides.

ghost use Rattle.std.specs.Prelude.{ℕ, ◌≡◌, ◌+◌, ◌<◌, ◌≤◌, ◌&&◌, not, Some, List, IfOk, IfSome, false, length, nat_le};
ghost use Rattle.fp_model.specs.Problem.{Problem};
ghost use Rattle.fp_flatnet.specs.Belonging.{BelongsTo};
ghost use Rattle.fp_flatnet.specs.Tables.{windows_in};
ghost use Rattle.fp_tree.specs.declared.sides.Side.{Side};
ghost use Rattle.fp_allowed.specs.Allowed.{tails_of};
ghost use Rattle.fp_allowed.specs.Departures.{departures_in, departures_left};
ghost use Rattle.fp_base_lists.specs.Below.{count_below};
ghost use Rattle.fp_allowed.specs.Moments.{all_let, barring as barring_for, concerned as concerned_of, in_range, is_barred as is_barred_of, lets};

use crate::NoMemory;
use crate::moments::{barring, concerned, is_barred};
use fp_flatnet::{Window, Windows};
use fp_model::Instance;
use fp_model::limits::LATEST;
use fp_rows::Row;
use fp_tree::Side;
use std::alloc::Global;

// How many whole moments there are, from 0 to the latest one.
const MOMENTS: u32 = LATEST + 1;

/// The number of departures that a shipment has left at a terminal under sides: of the pairs of an
/// arc that leaves the terminal and a whole moment in the shipment's window for the arc that no
/// side forbids, at most 100,001,000. `NoMemory` only where no memory is found.
pub fn departures(
    alloc: Global,
    instance: &Instance,
    windows: &Windows,
    shipment: u32,
    terminal: u32,
    sides: &[Side],
) -> Result<u32, NoMemory>
    requires belongs { BelongsTo instance.now windows.now }
    requires shipment { shipment < length instance.now.shipments }
    ensures { IfOk result (λ n. n ≡ departures_left instance.now (windows_in windows.now) sides.now shipment terminal) }
{
    let own = concerned(alloc, instance, shipment, terminal, sides)?;
    let through = barring(alloc, shipment, sides)?;
    let mut moments = Row::new(alloc, MOMENTS)?;
    let mut total = 0;
    for arc in 0..instance.arcs().len() as u32 {
        if instance.arc(arc).from == terminal {
            total += departures_at(
                instance,
                windows,
                shipment,
                arc,
                &through,
                &own,
                &mut moments,
            );
        }
    }
    Ok(total)
}

// The departures by one arc under sides of which `through` may bar arcs for the shipment, and `own` restrict
// its departures from the arc's tail: none where a side bars it. What the row holds before is free.
fn departures_at(
    instance: &Instance,
    windows: &Windows,
    shipment: u32,
    arc: u32,
    through: &[Side],
    own: &[Side],
    moments: &mut Row,
) -> u32
    requires shipment { shipment < length windows.now.rows }
    requires arc { arc < length windows.now.tails }
    requires in_time { IfSome (windows_in windows.now shipment arc) (λ w. (w.lo ≤ w.hi) × (w.hi ≤ LATEST)) }
    requires long { length moments.old ≡ MOMENTS }
    ensures long { length moments.new ≡ MOMENTS }
    ensures exact { (others : List Side) → own.now ≡ concerned_of instance.now shipment (tails_of instance.now arc) others → through.now ≡ barring_for shipment others →
        result ≡ departures_in instance.now others shipment arc (windows_in windows.now shipment arc) }
{
    if is_barred(instance, shipment, arc, through) {
        return 0;
    }
    departures_by(windows, shipment, arc, own, moments)
}

// The departures by one arc that no side bars, where the sides are those that restrict the shipment's
// departures from the arc's tail. What the row holds before is free.
fn departures_by(
    windows: &Windows,
    shipment: u32,
    arc: u32,
    sides: &[Side],
    moments: &mut Row,
) -> u32
    requires shipment { shipment < length windows.now.rows }
    requires arc { arc < length windows.now.tails }
    requires in_time { IfSome (windows_in windows.now shipment arc) (λ w. (w.lo ≤ w.hi) × (w.hi ≤ LATEST)) }
    requires long { length moments.old ≡ MOMENTS }
    ensures long { length moments.new ≡ MOMENTS }
    ensures exact { (p : Problem) (others : List Side) → sides.now ≡ concerned_of p shipment (tails_of p arc) others → is_barred_of p shipment arc others ≡ false →
        result ≡ departures_in p others shipment arc (windows_in windows.now shipment arc) }
{
    match windows.window(shipment, arc) {
        Some((lo, hi)) => count_moments(Window { lo, hi }, arc, sides, moments),
        None => 0,
    }
}

// The moments of a window at which all sides let a leg by the arc leave.
fn count_moments(window: Window, arc: u32, sides: &[Side], moments: &mut Row) -> u32
    requires some { window.lo ≤ window.hi }
    requires in_time { window.hi ≤ LATEST }
    requires long { length moments.old ≡ MOMENTS }
    ensures long { length moments.new ≡ MOMENTS }
    ensures exact { result ≡ count_below (window.hi + 1) (λ m. nat_le window.lo m && all_let arc m sides.now) }
{
    moments.clear_range(0, MOMENTS);
    moments.fill_range(window.lo, window.hi + 1);
    for side in sides {
        let (from, to) = forbidden(arc, *side);
        moments.clear_range(from, to);
    }
    moments.count()
}

// The range of the moments at which a side does not let a leg by the arc leave.
fn forbidden(arc: u32, side: Side) -> (u32, u32)
    ensures order { result.0 ≤ result.1 }
    ensures within { result.1 ≤ MOMENTS }
    ensures exact { (m : ℕ) → m < MOMENTS → in_range result.0 result.1 m ≡ not (lets arc m side) }
{
    match side {
        Side::Without { arc: other, .. } => (0, if arc == other { MOMENTS } else { 0 }),
        Side::Only { arc: other, .. } => (0, if arc == other { 0 } else { MOMENTS }),
        Side::Before { at, .. } => (at.min(MOMENTS), MOMENTS),
        Side::From { at, .. } => (0, at.min(MOMENTS)),
        Side::AtMost {
            arc: other,
            point,
            until,
            ..
        }
        | Side::Outside {
            arc: other,
            point,
            until,
            ..
        } => {
            if arc == other && point < until {
                (point.min(MOMENTS), until.min(MOMENTS))
            } else {
                (0, 0)
            }
        }
        Side::MoreThan { .. } | Side::Through { .. } => (0, 0),
    }
}
