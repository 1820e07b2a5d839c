//! The split of a shipment at a terminal that parts the allowed classes that leave it.

ghost use Rattle.std.specs.Prelude.{ℕ, ◌≡◌, ◌<◌, ◌≤◌, ◌≢◌, true, false, IfSome, IsTrue, MatchBool, MatchOption, length};
ghost use Rattle.fp_model.specs.declared.parts.Leg.{Leg};
ghost use Rattle.fp_flatnet.specs.Tables.{windows_in};
ghost use Rattle.fp_longestarcs.specs.Networks.{IsNetwork, class_count, tail_in};
ghost use Rattle.fp_allowed.specs.Allowed.{tails_of};
ghost use Rattle.fp_allowed.specs.Bits.{bit_of, row_allows};
ghost use Rattle.fp_allowed.specs.Choices.{IsBetter, IsLeaving, IsMiddle, IsParted, IsTaken, OneAtMost, PartsClasses, Picks, last_moment as last_moment_of};
ghost use Rattle.fp_allowed.specs.Leaving.{OneLeaves};
ghost use Rattle.fp_tree.specs.declared.sides.Split.TheVariants.{ByWay};

use crate::exits::{class_range, first_set};
use fp_flatnet::Windows;
use fp_longestarcs::Network;
use fp_model::Instance;
use fp_rows::Row;
use fp_tree::Split;

/// The classes that are allowed for a shipment, as its row tells, and leave a terminal.
#[derive(Clone, Copy)]
pub(crate) struct Leaving<'a> {
    pub(crate) instance: &'a Instance,
    pub(crate) windows: &'a Windows,
    pub(crate) network: &'a Network,
    pub(crate) shipment: u32,
    pub(crate) row: &'a Row,
    pub(crate) terminal: u32,
}

/// An arc with allowed classes, and whether it is the only one that leaves its terminal and has
/// some.
#[derive(Clone, Copy)]
pub struct Pick {
    pub arc: u32,
    pub alone: bool,
}

// The last moment of a shipment's window for an arc, 0 where there is no window.
fn last_moment(windows: &Windows, shipment: u32, arc: u32) -> u32
    requires shipment { shipment < length windows.now.rows }
    requires arc { arc < length windows.now.tails }
    ensures { result ≡ last_moment_of (windows_in windows.now) shipment arc }
{
    match windows.window(shipment, arc) {
        Some((_, last)) => last,
        None => 0,
    }
}

// One more arc, or the one picked before where its window does not end earlier.
fn better(windows: &Windows, shipment: u32, found: Option<Pick>, arc: u32) -> Pick
    requires shipment { shipment < length windows.now.rows }
    requires arc { arc < length windows.now.tails }
    requires found { IfSome found (λ old. old.arc < length windows.now.tails) }
    ensures { IsBetter (last_moment_of (windows_in windows.now) shipment) found arc result }
{
    match found {
        None => Pick { arc, alone: true },
        Some(old) => {
            let later = last_moment(windows, shipment, old.arc)
                < last_moment(windows, shipment, arc);
            Pick {
                arc: if later { arc } else { old.arc },
                alone: false,
            }
        }
    }
}

// Whether an arc has an allowed class.
fn has_allowed(network: &Network, arc: u32, tail: u32, row: &Row) -> bool
    requires valid { IsNetwork network.now }
    requires arc { arc < length network.now.tails }
    requires tail { tail ≡ tail_in network.now arc }
    requires long { length row.now ≡ class_count network.now }
    ensures { MatchBool result ((c : Leg) × OneLeaves (row_allows network.now row.now) (λ k. k.arc ≡ arc) c)
        ((c : Leg) → OneLeaves (row_allows network.now row.now) (λ k. k.arc ≡ arc) c → ⊥) }
{
    let (start, end) = class_range(network, arc, tail);
    first_set(row, start, end).is_some()
}

// Of the arcs that leave a terminal and have allowed classes the one whose window ends last.
fn picked_arc(leaving: &Leaving) -> Option<Pick>
    requires { IsLeaving leaving.now }
    ensures { Picks (last_moment_of (windows_in leaving.now.windows.now) leaving.now.shipment) (row_allows leaving.now.network.now leaving.now.row.now)
        (λ c. tails_of leaving.now.instance.now c.arc ≡ leaving.now.terminal) result }
{
    let terminal = leaving.terminal;
    let mut found = None;
    for arc in 0..leaving.instance.arcs().len() as u32 {
        if leaving.instance.arc(arc).from == terminal
            && has_allowed(leaving.network, arc, terminal, leaving.row)
        {
            found = Some(better(leaving.windows, leaving.shipment, found, arc));
        }
    }
    found
}

// The last bit that is set in a range whose first bit is.
fn last_set(row: &Row, first: u32, to: u32) -> u32
    requires some { first < to }
    requires within { to ≤ length row.now }
    requires set { bit_of row.now first ≡ true }
    ensures from { first ≤ result }
    ensures to { result < to }
    ensures set { bit_of row.now result ≡ true }
    ensures none { (n : ℕ) → result < n → n < to → bit_of row.now n ≡ false }
{
    let mut last = first;
    for place in first + 1..to {
        if row.get(place) {
            last = place;
        }
    }
    last
}

// The point of the middle allowed class of an arc, where it has two or more.
fn middle_point(network: &Network, arc: u32, tail: u32, row: &Row) -> Option<u32>
    requires valid { IsNetwork network.now }
    requires arc { arc < length network.now.tails }
    requires tail { tail ≡ tail_in network.now arc }
    requires long { length row.now ≡ class_count network.now }
    ensures parted { MatchOption result (OneAtMost (row_allows network.now row.now) (λ c. c.arc ≡ arc))
        (IsParted (row_allows network.now row.now) (λ c. c.arc ≡ arc)) }
    ensures middle { IfSome result (IsMiddle network.now (row_allows network.now row.now) arc) }
{
    let (start, end) = class_range(network, arc, tail);
    let first = first_set(row, start, end)?;
    let second = first_set(row, first + 1, end)?;
    let last = last_set(row, second, end);
    let middle = first_set(row, first + (last - first + 1) / 2, end).unwrap_or(second);
    Some(network.points(tail)[(middle - start) as usize])
}

#[tactic(auto, using(crate::proofs::ArcPicks::taken_by_arc, crate::proofs::ArcPicks::taken_by_time))]
// A split of a shipment at a terminal that parts the allowed classes that leave it, where there are
// two or more.
pub(crate) fn parting_split(leaving: &Leaving) -> Option<Split>
    requires { IsLeaving leaving.now }
    ensures parts { MatchOption result (OneAtMost (row_allows leaving.now.network.now leaving.now.row.now) (λ c. tails_of leaving.now.instance.now c.arc ≡ leaving.now.terminal))
        (PartsClasses leaving.now.instance.now (row_allows leaving.now.network.now leaving.now.row.now) leaving.now.shipment leaving.now.terminal) }
    ensures taken { IfSome result (IsTaken leaving.now.instance.now (windows_in leaving.now.windows.now) leaving.now.network.now
        (row_allows leaving.now.network.now leaving.now.row.now) leaving.now.shipment leaving.now.terminal) }
{
    let shipment = leaving.shipment;
    let terminal = leaving.terminal;
    let pick = picked_arc(leaving)?;
    if !pick.alone {
        return Some(Split::ByArc {
            shipment,
            arc: pick.arc,
        });
    }
    let at = middle_point(leaving.network, pick.arc, terminal, leaving.row)?;
    Some(Split::ByTime {
        shipment,
        terminal,
        at,
    })
}

// Whether an allowed class leaves the terminal by another arc than this one.
fn has_other(leaving: &Leaving, arc: u32) -> bool
    requires { IsLeaving leaving.now }
    ensures { IsTrue result → (c : Leg) × OneLeaves (row_allows leaving.now.network.now leaving.now.row.now)
        (λ k. tails_of leaving.now.instance.now k.arc ≡ leaving.now.terminal) c × (c.arc ≢ arc) }
{
    let terminal = leaving.terminal;
    for other in 0..leaving.instance.arcs().len() as u32 {
        if other != arc
            && leaving.instance.arc(other).from == terminal
            && has_allowed(leaving.network, other, terminal, leaving.row)
        {
            return true;
        }
    }
    false
}

// The split of a shipment by the way by an arc that leaves the terminal, where allowed classes leave it
// by that arc and by another.
pub(crate) fn way_split(leaving: &Leaving, arc: u32) -> Option<Split>
    requires leaving { IsLeaving leaving.now }
    requires arc { arc < length leaving.now.instance.now.arcs }
    requires tail { tails_of leaving.now.instance.now arc ≡ leaving.now.terminal }
    ensures way { IfSome result (λ split. split ≡ ByWay leaving.now.shipment arc) }
    ensures parts { IfSome result (PartsClasses leaving.now.instance.now
        (row_allows leaving.now.network.now leaving.now.row.now) leaving.now.shipment leaving.now.terminal) }
{
    let by_it = has_allowed(leaving.network, arc, leaving.terminal, leaving.row);
    if by_it && has_other(leaving, arc) {
        return Some(Split::ByWay {
            shipment: leaving.shipment,
            arc,
        });
    }
    None
}
