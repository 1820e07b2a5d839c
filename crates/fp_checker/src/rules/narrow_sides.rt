//! Sides without those that others imply, as sides come and go.
ghost use Rattle.std.specs.Prelude.{◌≡◌, IfOk, IsTrue};
ghost use Rattle.fp_checker.specs.LeafWays.{Implies, IsAdded, IsInside, undone};

use crate::NoMemory;
use fp_tree::Side;

/// What a side changed of the sides before it.
#[derive(Clone, Copy)]
pub(crate) enum Change {
    /// It was added behind them.
    Added,
    /// It and the side at a place imply one the other: the stricter stands there now, and this one
    /// did before.
    Replaced { place: usize, side: Side },
}

// Whether one side asks of the same run of times of an arc for no more trucks than another, or for
// more than no fewer.
fn is_stricter_count(first: Side, second: Side) -> bool
    ensures { IsTrue result → Implies first second }
{
    match (first, second) {
        (
            Side::AtMost {
                arc,
                point,
                until,
                trucks,
            },
            Side::AtMost {
                arc: other,
                point: from,
                until: end,
                trucks: limit,
            },
        ) => arc == other && point == from && until == end && trucks <= limit,
        (
            Side::MoreThan {
                arc,
                point,
                until,
                trucks,
            },
            Side::MoreThan {
                arc: other,
                point: from,
                until: end,
                trucks: limit,
            },
        ) => arc == other && point == from && until == end && limit <= trucks,
        _ => false,
    }
}

// Whether one side asks a shipment to leave the same terminal no later than another, or no sooner.
fn is_stricter_time(first: Side, second: Side) -> bool
    ensures { IsTrue result → Implies first second }
{
    match (first, second) {
        (
            Side::Before {
                shipment,
                terminal,
                at,
            },
            Side::Before {
                shipment: other,
                terminal: there,
                at: limit,
            },
        ) => shipment == other && terminal == there && at <= limit,
        (
            Side::From {
                shipment,
                terminal,
                at,
            },
            Side::From {
                shipment: other,
                terminal: there,
                at: limit,
            },
        ) => shipment == other && terminal == there && limit <= at,
        _ => false,
    }
}

// Whether the sides are one that stands twice. Sides that ask a shipment to go by an arc all stay, since
// their number counts.
fn is_same(first: Side, second: Side) -> bool
    ensures { IsTrue result → Implies first second }
{
    match first {
        Side::Through { .. } => false,
        _ => first == second,
    }
}

// Whether what meets one side meets another: of times the stricter one at the same terminal, of
// trucks the stricter one in the same run of an arc.
fn implies(first: Side, second: Side) -> bool
    ensures { IsTrue result → Implies first second }
{
    is_same(first, second) || is_stricter_time(first, second) || is_stricter_count(first, second)
}

/// Adds a side to others: in the place of one that it implies, nowhere where one implies it, and
/// otherwise behind them. `NoMemory` only where no memory is found.
pub(crate) fn add_side(sides: &mut Vec<Side>, side: Side) -> Result<Change, NoMemory>
    ensures { IfOk result (IsAdded sides.old.items side sides.new.items) }
{
    for place in 0..sides.len() {
        let old = sides[place];
        if implies(side, old) {
            sides[place] = side;
            return Ok(Change::Replaced { place, side: old });
        }
        if implies(old, side) {
            return Ok(Change::Replaced { place, side: old });
        }
    }
    sides.push(side)?;
    Ok(Change::Added)
}

/// Takes a change of sides back.
pub(crate) fn undo(sides: &mut Vec<Side>, change: Change)
    requires { IsInside change sides.old.items }
    ensures { sides.new.items ≡ undone change sides.old.items }
{
    match change {
        Change::Added => {
            let _ = sides.pop();
        }
        Change::Replaced { place, side } => sides[place] = side,
    }
}
