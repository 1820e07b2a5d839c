//! The windows in which exactly those plans of what is left lie that make a plan under way.
ghost use Rattle.std.specs.Prelude.{ℕ, ◌≡◌, ◌≢◌, ◌<◌, None, List, length, cond, IfOk};
ghost use Rattle.fp_base_lists.specs.Membership.{list_has};
ghost use Rattle.fp_base_lists.specs.Vectors.{lists_of};
ghost use Rattle.fp_model.specs.declared.parts.Leg.{Leg};
ghost use Rattle.fp_model.specs.Problem.{IsValid, Problem, arc_at};
ghost use Rattle.fp_flatnet.specs.Belonging.{BelongsTo};
ghost use Rattle.fp_flatnet.specs.Tables.{windows_in};
ghost use Rattle.fp_flatnet.specs.Windows.{PlanLiesWithin};
ghost use Rattle.fp_replan.specs.KeptWindows.{AreKeptAnchors};
ghost use Rattle.fp_replan_present.specs.Days.{Day};
ghost use Rattle.fp_replan_present.specs.Parts.{CanGoOn, IsStart};
ghost use Rattle.fp_replan_present.specs.Rests.{IsOpen, IsRest, gone_at};
ghost use Rattle.fp_replan_present.specs.Windows.{AreRestWindows, TellCheaper, TellRest, TellUnderway};

use crate::NoMemory;
use crate::rests::Rest;
use fp_flatnet::Windows;
use fp_model::Instance;
use fp_replan::is_among;
use std::alloc::Global;

// Takes the windows of a shipment away by arcs that enter one of the terminals.
fn close_row(instance: &Instance, shipment: u32, gone: &[u32], windows: &mut Windows)
    requires shipment { shipment < length instance.now.shipments }
    requires belongs { BelongsTo instance.now windows.old }
    ensures belongs { BelongsTo instance.now windows.new }
    ensures anchors { windows.new.anchors ≡ windows.old.anchors }
    ensures row { (a : ℕ) → a < length instance.now.arcs
        → windows_in windows.new shipment a ≡ cond (list_has gone.now (arc_at instance.now a).to) None (windows_in windows.old shipment a) }
    ensures others { (k a : ℕ) → k ≢ shipment → windows_in windows.new k a ≡ windows_in windows.old k a }
{
    for number in 0..instance.arcs().len() as u32 {
        if is_among(gone, instance.arc(number).to) {
            windows.close(shipment, number);
        }
    }
}

// Takes the windows away by arcs that enter a terminal where a shipment was.
fn close_rows(instance: &Instance, gone: &[Vec<u32>], windows: &mut Windows)
    requires gone { length gone.now ≡ length instance.now.shipments }
    requires belongs { BelongsTo instance.now windows.old }
    ensures belongs { BelongsTo instance.now windows.new }
    ensures anchors { windows.new.anchors ≡ windows.old.anchors }
    ensures rows { (k a : ℕ) → k < length instance.now.shipments → a < length instance.now.arcs
        → windows_in windows.new k a ≡ cond (list_has (gone_at (lists_of gone.now) k) (arc_at instance.now a).to) None (windows_in windows.old k a) }
{
    for (number, terminals) in gone.iter().enumerate() {
        close_row(instance, number as u32, terminals, windows);
    }
}

/// The windows in which exactly those plans of what is left lie, over every denominator, that keep
/// its promised legs and enter no terminal where a shipment was.
///
/// They are those of its kept legs, but that no arc that enters a terminal where a shipment was has
/// one for it, and have the anchors of those. Some plan of what is left keeps the legs, as where
/// [`left`](crate::left) answers what is left, and the plan that it answers lies within them. Routes are a plan under way exactly where they are the
/// settled legs and such a plan; so no plan under way is cheaper than what the settled legs cost and
/// c, exactly where no plan of what is left within the windows is cheaper than c. `NoMemory` only
/// where no memory is found.
pub fn windows(alloc: Global, rest: &Rest) -> Result<Windows, NoMemory>
    requires { CanGoOn rest.now }
    ensures belongs { IfOk result (BelongsTo rest.now.instance) }
    ensures windows { IfOk result (λ w. AreRestWindows rest.now.instance rest.now.kept.items (lists_of rest.now.gone.items) (windows_in w)) }
    ensures anchors { IfOk result (λ w. AreKeptAnchors rest.now.instance rest.now.kept.items w.anchors) }
    ensures tell { IfOk result (λ w. TellRest rest.now.instance rest.now.kept.items (lists_of rest.now.gone.items) (windows_in w)) }
    ensures start { IfOk result (λ w. (p : Problem) (day : Day) (start : List (List Leg)) → IsRest p day rest.now → IsStart p day start → PlanLiesWithin (windows_in w) 1 start) }
    ensures underway { IfOk result (λ w. (p : Problem) (day : Day) → IsValid p → IsOpen p day → IsRest p day rest.now → TellUnderway p day (windows_in w) × TellCheaper p day (windows_in w)) }
{
    let mut windows = fp_replan::windows(alloc, &rest.instance, &rest.kept)?;
    close_rows(&rest.instance, &rest.gone, &mut windows);
    Ok(windows)
}
