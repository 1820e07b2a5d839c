//! The windows in which exactly those plans lie that keep legs.
ghost use Rattle.std.specs.Prelude.{ℕ, ◌≡◌, ◌≢◌, ◌<◌, ◌≤◌, ◌==◌, Some, None, length, cond, map, false, IfOk, OnOk};
ghost use Rattle.std.specs.List.{AllByRecursion, list_any};
ghost use Rattle.fp_base_lists.specs.Membership.{list_has};
ghost use Rattle.fp_base_lists.specs.Vectors.{lists_of};
ghost use Rattle.fp_model.specs.declared.parts.Leg.{Leg};
ghost use Rattle.fp_model.specs.Numbered.{route_at};
ghost use Rattle.fp_model.specs.Routes.{ArcsExist, arcs_of};
ghost use Rattle.fp_flatnet.specs.Belonging.{BelongsTo};
ghost use Rattle.fp_flatnet.specs.Tables.{windows_in};
ghost use Rattle.fp_flatnet.specs.Windows.{PlanLiesWithin};
ghost use Rattle.fp_replan.specs.declared.kept.TheConstants.{MOST_KEPT};
ghost use Rattle.fp_replan.specs.Beginnings.{AreBeginnings};
ghost use Rattle.fp_replan.specs.KeptLegs.{AreKept, kept_of};
ghost use Rattle.fp_replan.specs.KeptWindows.{AreKeptAnchors, AreKeptWindows, AreNarrow, CanBeKept, CanNarrowAll, TellKept, kept_place, shut_off as shut_off_of, touches as touches_of};

use crate::NoMemory;
use crate::beginnings::beginnings_of;
use crate::kept::{Kept, MOST_KEPT};
use fp_flatnet::{MOST_ANCHORS, Windows};
use fp_model::{Instance, Leg};
use std::alloc::Global;

const _: () = prove!(MOST_KEPT == MOST_ANCHORS);

// Whether an arc leaves or enters the tail of a leg.
fn touches(instance: &Instance, number: u32, leg: Leg) -> bool
    requires number { number < length instance.now.arcs }
    requires leg { leg.arc < length instance.now.arcs }
    ensures { result ≡ touches_of instance.now number leg }
{
    let arc = instance.arc(number);
    let tail = instance.arc(leg.arc).from;
    arc.from == tail || arc.to == tail
}

// Whether legs go by an arc.
fn go_by(legs: &[Leg], number: u32) -> bool
    ensures { result ≡ list_has (arcs_of legs.now) number }
{
    for leg in legs {
        if leg.arc == number {
            return true;
        }
    }
    false
}

// Whether an arc leaves or enters the tail of one of the legs.
fn touches_some(instance: &Instance, number: u32, legs: &[Leg]) -> bool
    requires number { number < length instance.now.arcs }
    requires legs { ArcsExist instance.now legs.now }
    ensures { result ≡ list_any (touches_of instance.now number) legs.now }
{
    for leg in legs {
        if touches(instance, number, *leg) {
            return true;
        }
    }
    false
}

// Whether legs leave an arc without a window.
fn shut_off(instance: &Instance, legs: &[Leg], number: u32) -> bool
    requires legs { ArcsExist instance.now legs.now }
    requires number { number < length instance.now.arcs }
    ensures { result ≡ shut_off_of instance.now legs.now number }
{
    !go_by(legs, number) && touches_some(instance, number, legs)
}

// Takes the windows of a shipment away that its kept legs leave none.
fn close_row(instance: &Instance, shipment: u32, legs: &[Leg], windows: &mut Windows)
    requires legs { ArcsExist instance.now legs.now }
    requires shipment { shipment < length instance.now.shipments }
    requires belongs { BelongsTo instance.now windows.old }
    ensures belongs { BelongsTo instance.now windows.new }
    ensures anchors { windows.new.anchors ≡ windows.old.anchors }
    ensures row { (a : ℕ) → a < length instance.now.arcs
        → windows_in windows.new shipment a ≡ cond (shut_off_of instance.now legs.now a) None (windows_in windows.old shipment a) }
    ensures others { (k a : ℕ) → k ≢ shipment → windows_in windows.new k a ≡ windows_in windows.old k a }
{
    for number in 0..instance.arcs().len() as u32 {
        if shut_off(instance, legs, number) {
            windows.close(shipment, number);
        }
    }
}

// Takes the windows away that kept legs leave none.
fn close_rows(instance: &Instance, beginnings: &[Vec<Leg>], windows: &mut Windows)
    requires beginnings { length beginnings.now ≡ length instance.now.shipments }
    requires legs { (k : ℕ) → k < length beginnings.now → ArcsExist instance.now (route_at (lists_of beginnings.now) k) }
    requires belongs { BelongsTo instance.now windows.old }
    ensures belongs { BelongsTo instance.now windows.new }
    ensures anchors { windows.new.anchors ≡ windows.old.anchors }
    ensures rows { (k a : ℕ) → k < length instance.now.shipments → a < length instance.now.arcs
        → windows_in windows.new k a ≡ cond (shut_off_of instance.now (route_at (lists_of beginnings.now) k) a) None (windows_in windows.old k a) }
{
    for (number, legs) in beginnings.iter().enumerate() {
        close_row(instance, number as u32, legs, windows);
    }
}

// Narrows the window of each kept leg to the moment at which it leaves.
fn narrow_all(
    alloc: Global,
    instance: &Instance,
    kept: &[Kept],
    windows: &mut Windows,
) -> Result<(), NoMemory>
    requires kept { AreKept instance.now kept.now }
    requires few { length kept.now ≤ MOST_KEPT }
    requires can { CanNarrowAll kept.now windows.old }
    requires anchors { length windows.old.anchors ≡ 0 }
    requires belongs { BelongsTo instance.now windows.old }
    ensures belongs { OnOk result (BelongsTo instance.now windows.new) }
    ensures anchors { OnOk result (AreKeptAnchors instance.now kept.now windows.new.anchors) }
    ensures narrow { OnOk result (AreNarrow kept.now (windows_in windows.old) (windows_in windows.new)) }
{
    for leg in kept {
        windows.narrow(alloc, leg.shipment, leg.arc, leg.depart, leg.depart)?;
    }
    Ok(())
}

/// The windows in which exactly those plans lie, over every denominator, that keep the legs.
///
/// They are those of the instance with these changes for a shipment's kept legs: a kept leg's arc
/// has the window from its departure to its departure; no other arc that leaves a kept leg's tail
/// has a window; no arc that enters a kept leg's tail has one, unless it is itself kept. Each kept
/// leg's tail and departure are an anchor, in the order of the legs.
///
/// There are at most 30,000 kept legs, and some plan keeps them, as where [`start`](crate::start)
/// answers a plan. `NoMemory` only where no memory is found.
pub fn windows(alloc: Global, instance: &Instance, kept: &[Kept]) -> Result<Windows, NoMemory>
    requires kept { AreKept instance.now kept.now }
    requires few { length kept.now ≤ MOST_KEPT }
    requires can { CanBeKept instance.now kept.now }
    ensures belongs { IfOk result (BelongsTo instance.now) }
    ensures windows { IfOk result (λ w. AreKeptWindows instance.now kept.now (windows_in w)) }
    ensures anchors { IfOk result (λ w. AreKeptAnchors instance.now kept.now w.anchors) }
    ensures tell { IfOk result (λ w. TellKept instance.now kept.now (windows_in w)) }
{
    let beginnings = beginnings_of(alloc, instance.shipments().len(), kept)?;
    let mut windows = Windows::of(alloc, instance)?;
    close_rows(instance, &beginnings, &mut windows);
    narrow_all(alloc, instance, kept, &mut windows)?;
    Ok(windows)
}
