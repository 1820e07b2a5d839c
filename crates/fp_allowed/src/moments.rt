//! The moments at which a leg by an arc can leave under sides.

ghost use Rattle.std.specs.Prelude.{ℕ, ◌≡◌, ◌≤◌, IfOk, nat_lt};
ghost use Rattle.fp_model.specs.Problem.{arc_at};
ghost use Rattle.fp_allowed.specs.Allowed.{is_rival as is_rival_of};
ghost use Rattle.fp_allowed.specs.Moments.{all_let, barring as barring_for, bars as bars_of, concerned as concerned_of, concerns as concerns_of, is_barred as is_barred_of, is_barring as is_barring_for, lets, speaks_of as speaks_of_shipment, terminal_of as terminal_of_side};

use crate::NoMemory;
use fp_flatnet::Window;
use fp_model::Instance;
use fp_tree::Side;
use std::alloc::Global;

// Whether a side asks something of when and by which arc legs of a shipment leave one terminal.
pub(crate) fn speaks_of(shipment: u32, side: Side) -> bool
    ensures { result ≡ speaks_of_shipment shipment side }
{
    match side {
        Side::Without { shipment: own, .. }
        | Side::Only { shipment: own, .. }
        | Side::Before { shipment: own, .. }
        | Side::From { shipment: own, .. }
        | Side::Outside { shipment: own, .. } => shipment == own,
        Side::AtMost { trucks, .. } => trucks == 0,
        Side::MoreThan { .. } | Side::Through { .. } => false,
    }
}

// The terminals that an arc leaves and enters.
fn ends_of(instance: &Instance, arc: u32) -> (u32, u32)
    ensures tail { result.0 ≡ (arc_at instance.now arc).from }
    ensures head { result.1 ≡ (arc_at instance.now arc).to }
{
    match instance.arcs().get(arc as usize) {
        Some(arc) => (arc.from, arc.to),
        None => (0, 0),
    }
}

// Whether an arc is a rival of another.
fn is_rival(instance: &Instance, arc: u32, other: u32) -> bool
    ensures { result ≡ is_rival_of instance.now arc other }
{
    let (tail, head) = ends_of(instance, arc);
    let (from, to) = ends_of(instance, other);
    arc != other && (tail == from || head == to)
}

// Whether a side bars an arc for a shipment, whenever it would leave by it.
fn bars(instance: &Instance, shipment: u32, arc: u32, side: Side) -> bool
    ensures { result ≡ bars_of instance.now shipment arc side }
{
    match side {
        Side::Through {
            shipment: own,
            arc: other,
        } => shipment == own && is_rival(instance, arc, other),
        Side::Without { .. }
        | Side::Only { .. }
        | Side::Before { .. }
        | Side::From { .. }
        | Side::AtMost { .. }
        | Side::MoreThan { .. }
        | Side::Outside { .. } => false,
    }
}

// Whether a side may bar arcs for a shipment.
fn is_barring(shipment: u32, side: Side) -> bool
    ensures { result ≡ is_barring_for shipment side }
{
    match side {
        Side::Through { shipment: own, .. } => shipment == own,
        Side::Without { .. }
        | Side::Only { .. }
        | Side::Before { .. }
        | Side::From { .. }
        | Side::AtMost { .. }
        | Side::MoreThan { .. }
        | Side::Outside { .. } => false,
    }
}

// The sides that may bar arcs for a shipment: a few, where there may be many of others.
pub(crate) fn barring(alloc: Global, shipment: u32, sides: &[Side]) -> Result<Vec<Side>, NoMemory>
    ensures { IfOk result (λ v. v.items ≡ barring_for shipment sides.now) }
{
    sides
        .iter()
        .filter(|side| is_barring(shipment, **side))
        .copied()
        .collect(alloc)
}

// Whether one of the sides bars an arc for a shipment.
pub(crate) fn is_barred(instance: &Instance, shipment: u32, arc: u32, sides: &[Side]) -> bool
    ensures { result ≡ is_barred_of instance.now shipment arc sides.now }
{
    sides
        .iter()
        .any(|side| bars(instance, shipment, arc, *side))
}

// The terminal whose departures a side restricts.
pub(crate) fn terminal_of(instance: &Instance, side: Side) -> u32
    ensures { result ≡ terminal_of_side instance.now side }
{
    match side {
        Side::Without { arc, .. }
        | Side::AtMost { arc, .. }
        | Side::MoreThan { arc, .. }
        | Side::Through { arc, .. }
        | Side::Outside { arc, .. } => ends_of(instance, arc).0,
        Side::Only { tail, .. } => tail,
        Side::Before { terminal, .. } | Side::From { terminal, .. } => terminal,
    }
}

// Whether a side restricts the departures of a shipment from a terminal.
fn concerns(instance: &Instance, shipment: u32, terminal: u32, side: Side) -> bool
    ensures { result ≡ concerns_of instance.now shipment terminal side }
{
    speaks_of(shipment, side) && terminal == terminal_of(instance, side)
}

// The sides that restrict the departures of a shipment from a terminal.
pub(crate) fn concerned(
    alloc: Global,
    instance: &Instance,
    shipment: u32,
    terminal: u32,
    sides: &[Side],
) -> Result<Vec<Side>, NoMemory>
    ensures { IfOk result (λ v. v.items ≡ concerned_of instance.now shipment terminal sides.now) }
{
    sides
        .iter()
        .filter(|side| concerns(instance, shipment, terminal, **side))
        .copied()
        .collect(alloc)
}

// Whether a side lets a leg by the arc leave at a moment, where it restricts the departures from the
// arc's tail.
fn lets_leave(side: Side, arc: u32, moment: u32) -> bool
    ensures { result ≡ lets arc moment side }
{
    match side {
        Side::Without { arc: other, .. } => arc != other,
        Side::Only { arc: other, .. } => arc == other,
        Side::Before { at, .. } => moment < at,
        Side::From { at, .. } => at <= moment,
        Side::AtMost {
            arc: other,
            point,
            until,
            ..
        }
        | Side::Outside {
            arc: other,
            point,
            until,
            ..
        } => !(arc == other && (point <= moment && moment < until)),
        Side::MoreThan { .. } | Side::Through { .. } => true,
    }
}

// The last moment of a window that is before a time, or from it on, as its first one is.
fn alike_by_time(window: Window, at: u32) -> u32
    requires { window.lo ≤ window.hi }
    ensures first { window.lo ≤ result }
    ensures last { result ≤ window.hi }
    ensures alike { (m : ℕ) → window.lo ≤ m → m ≤ result → nat_lt m at ≡ nat_lt window.lo at }
{
    if window.lo < at {
        window.hi.min(at - 1)
    } else {
        window.hi
    }
}

// The last moment of a window up to which a side lets a leg by the arc leave or not, as at its first
// one.
fn alike_until(window: Window, arc: u32, side: Side) -> u32
    requires { window.lo ≤ window.hi }
    ensures first { window.lo ≤ result }
    ensures last { result ≤ window.hi }
    ensures alike { (m : ℕ) → window.lo ≤ m → m ≤ result → lets arc m side ≡ lets arc window.lo side }
{
    match side {
        Side::Without { .. } | Side::Only { .. } | Side::MoreThan { .. } | Side::Through { .. } =>
            window.hi,
        Side::Before { at, .. } | Side::From { at, .. } => alike_by_time(window, at),
        Side::AtMost { point, until, .. } | Side::Outside { point, until, .. } => {
            let hi = alike_by_time(window, point);
            let lo = window.lo;
            alike_by_time(Window { lo, hi }, until)
        }
    }
}

// The first part of a window in which each side answers alike at all moments: its last moment, and
// whether all sides let a leg by the arc leave in it.
pub(crate) fn first_part(window: Window, arc: u32, sides: &[Side]) -> (u32, bool)
    requires { window.lo ≤ window.hi }
    ensures first { window.lo ≤ result.0 }
    ensures last { result.0 ≤ window.hi }
    ensures alike { (m : ℕ) → window.lo ≤ m → m ≤ result.0 → all_let arc m sides.now ≡ result.1 }
{
    let lo = window.lo;
    let mut hi = window.hi;
    let mut free = true;
    for side in sides {
        hi = alike_until(Window { lo, hi }, arc, *side);
        free &= lets_leave(*side, arc, lo);
    }
    (hi, free)
}
