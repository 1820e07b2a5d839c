//! The moments at which a shipment can leave by one arc under sides: the first and the last one that serves.

ghost use Rattle.std.specs.Prelude.{ℕ, ◌≡◌, ◌≤◌, ◌<◌, IfSome, length};
ghost use Rattle.fp_allowed.specs.FreeMoments.{IsAsked, IsFirst, IsFreeFrom, IsFreeUntil, IsLast, LeavesFrom, LeavesInTime, open_window as open_window_of, own_sides as own_sides_of};

use crate::moments::{first_part, is_barred};
use fp_flatnet::{Window, Windows};
use fp_model::Instance;
use fp_model::limits::LATEST;
use fp_tree::Side;

/// A shipment of an instance, with its windows, for each terminal the sides that restrict its
/// departures from it, and the sides that may bar arcs for it.
#[derive(Clone, Copy)]
pub(crate) struct Asked<'a> {
    pub(crate) instance: &'a Instance,
    pub(crate) windows: &'a Windows,
    pub(crate) shipment: u32,
    pub(crate) by_terminal: &'a [Vec<Side>],
    pub(crate) through: &'a [Side],
}

// The first moment of a window from another moment on at which all of the sides let a leg by the arc leave.
fn first_free(window: Window, arc: u32, sides: &[Side], at: u32) -> Option<u32>
    requires { window.hi ≤ LATEST }
    ensures { IsFirst (IsFreeFrom window arc sides.now at) result }
{
    let mut lo = window.lo.max(at);
    while lo <= window.hi {
        let hi = window.hi;
        let (last, free) = first_part(Window { lo, hi }, arc, sides);
        if free {
            return Some(lo);
        }
        lo = last + 1;
    }
    None
}

// The last moment of a window up to another moment at which all of the sides let a leg by the arc leave.
fn last_free(window: Window, arc: u32, sides: &[Side], until: u32) -> Option<u32>
    requires { window.hi ≤ LATEST }
    ensures { IsLast (IsFreeUntil window arc sides.now until) result }
{
    let hi = window.hi.min(until);
    let mut lo = window.lo;
    let mut found = None;
    while lo <= hi {
        let (last, free) = first_part(Window { lo, hi }, arc, sides);
        if free {
            found = Some(last);
        }
        lo = last + 1;
    }
    found
}

// The shipment's window for an arc, if it has one and no side bars the arc for it.
fn open_window(asked: &Asked, arc: u32) -> Option<Window>
    requires asked { IsAsked asked.now }
    requires arc { arc < length asked.now.instance.now.arcs }
    ensures same { result ≡ open_window_of asked.now arc }
    ensures in_time { IfSome result (λ w. w.hi ≤ LATEST) }
{
    if is_barred(asked.instance, asked.shipment, arc, asked.through) {
        return None;
    }
    let (lo, hi) = asked.windows.window(asked.shipment, arc)?;
    Some(Window { lo, hi })
}

// The sides that restrict the shipment's departures from an arc's tail.
fn own_sides<'a>(asked: &Asked<'a>, arc: u32) -> &'a [Side]
    requires asked { IsAsked asked.now }
    requires arc { arc < length asked.now.instance.now.arcs }
    ensures { result.now ≡ own_sides_of asked.now arc }
{
    &asked.by_terminal[asked.instance.arc(arc).from as usize]
}

// The first moment at which the shipment can leave by an arc, where it is ready at the arc's tail from some
// moment on.
pub(crate) fn first_leave(asked: &Asked, arc: u32, ready: Option<u32>) -> Option<u32>
    requires asked { IsAsked asked.now }
    requires arc { arc < length asked.now.instance.now.arcs }
    ensures first { IsFirst (LeavesFrom asked.now arc ready) result }
    ensures in_time { IfSome result (λ m. m ≤ LATEST) }
{
    let at = ready?;
    let window = open_window(asked, arc)?;
    first_free(window, arc, own_sides(asked, arc), at)
}

// The last moment at which the shipment can leave by an arc, where it has to be ready at the arc's head at some
// moment or before it.
pub(crate) fn last_leave(asked: &Asked, arc: u32, until: Option<u32>) -> Option<u32>
    requires asked { IsAsked asked.now }
    requires arc { arc < length asked.now.instance.now.arcs }
    ensures { IsLast (LeavesInTime asked.now arc until) result }
{
    let at = until?.checked_sub(asked.instance.step(arc))?;
    let window = open_window(asked, arc)?;
    last_free(window, arc, own_sides(asked, arc), at)
}
