//! A plan from a relaxed plan.
ghost use Rattle.std.specs.Prelude.{List, [], ◌≤◌, ◌↔◌, IfOk, IsTrue};
ghost use Rattle.fp_model.specs.declared.parts.Leg.{Leg};
ghost use Rattle.fp_model.specs.declared.parts.Member.{Member};
ghost use Rattle.fp_model.specs.Costs.{cost};
ghost use Rattle.fp_model.specs.Members.{arc_lists};
ghost use Rattle.fp_model.specs.Plans.{IsPlan};
ghost use Rattle.fp_flatnet.specs.Belonging.{BelongsTo};
ghost use Rattle.fp_flatnet.specs.Tables.{windows_in};
ghost use Rattle.fp_flatnet.specs.Windows.{PlanLiesWithin};
ghost use Rattle.fp_dispatch.specs.Answers.{IsEarliest};
ghost use Rattle.fp_dispatch.specs.Times.{HaveTimes};
ghost use Rattle.fp_relaxmodel.specs.Groups.{AreGroups};
ghost use Rattle.fp_relaxmodel.specs.Relaxed.{HasRoutes};
ghost use Rattle.fp_repair.specs.KeptGroups.{AreKeptGroups};

use crate::NoMemory;
use crate::candidates::starting_plans;
use crate::class_costs::classes_cost;
use crate::improvement::improvement;
use crate::timings::least_times;
use fp_ends::{Deadline, Resources};
use fp_flatnet::Windows;
use fp_model::{Instance, Plan};
use fp_relaxmodel::{RelaxedPlan, groups};
use std::alloc::Global;

/// The plan that a repair found, and whether the legs of each class of the relaxed plan can leave
/// at one moment.
#[derive(Drop)]
pub struct Repaired {
    pub plan: Plan,
    pub timed: bool,
}

/// A plan from the routes of a relaxed plan and the plan in hand, which costs no more than that.
///
/// `timed` is true exactly where the routes have times with all groups of legs of one class, and
/// then the plan costs no more than the relaxed plan. In any case it costs no more than the routes
/// do at their least times without any group, and at those with the groups that are kept when the
/// groups are gone through in order.
///
/// Where the cheapest of these plans is near the cost of the relaxed plan, local searches look for
/// a cheaper one; their draws are a function of the arguments, so a call repeats.
///
/// The windows belong to the instance, `incumbent` is a plan within them, and each shipment has a
/// walk whose arcs are a route of it. `NoMemory` only where no memory is found.
pub fn repair(
    alloc: Global,
    instance: &Instance,
    windows: &Windows,
    relaxed: &RelaxedPlan,
    incumbent: &Plan,
) -> Result<Repaired, NoMemory>
    requires belongs { BelongsTo instance.now windows.now }
    requires relaxed { HasRoutes instance.now relaxed.now }
    requires incumbent { IsPlan instance.now 1 incumbent.now }
    requires within { PlanLiesWithin (windows_in windows.now) 1 incumbent.now }
    ensures plan { IfOk result (λ r. IsPlan instance.now 1 r.plan) }
    ensures within { IfOk result (λ r. PlanLiesWithin (windows_in windows.now) 1 r.plan) }
    ensures cheaper { IfOk result (λ r. cost instance.now r.plan ≤ cost instance.now incumbent.now) }
    ensures timed { IfOk result (λ r. (groups : List (List Member)) → AreGroups relaxed.now groups →
        (IsTrue r.timed ↔ HaveTimes instance.now (windows_in windows.now) (arc_lists relaxed.now) groups)) }
    ensures together { IfOk result
        (λ r. IsTrue r.timed → cost instance.now r.plan ≤ cost instance.now relaxed.now) }
    ensures apart { IfOk result (λ r. (legs : List (List Leg)) →
        IsEarliest instance.now (windows_in windows.now) (arc_lists relaxed.now) [] legs →
        cost instance.now r.plan ≤ cost instance.now legs) }
    ensures kept { IfOk result (λ r. (groups kept : List (List Member)) (legs : List (List Leg)) →
        AreGroups relaxed.now groups →
        AreKeptGroups instance.now (windows_in windows.now) (arc_lists relaxed.now) groups kept →
        IsEarliest instance.now (windows_in windows.now) (arc_lists relaxed.now) kept legs →
        cost instance.now r.plan ≤ cost instance.now legs) }
{
    let resources = &Resources::endless(alloc);
    repair_within(resources, instance, windows, relaxed, incumbent)
}

/// The same in the time that there is: where it is over the local searches end with what they have.
pub fn repair_within<D: Deadline>(
    resources: &Resources<D>,
    instance: &Instance,
    windows: &Windows,
    relaxed: &RelaxedPlan,
    incumbent: &Plan,
) -> Result<Repaired, NoMemory>
    requires belongs { BelongsTo instance.now windows.now }
    requires relaxed { HasRoutes instance.now relaxed.now }
    requires incumbent { IsPlan instance.now 1 incumbent.now }
    requires within { PlanLiesWithin (windows_in windows.now) 1 incumbent.now }
    ensures plan { IfOk result (λ r. IsPlan instance.now 1 r.plan) }
    ensures within { IfOk result (λ r. PlanLiesWithin (windows_in windows.now) 1 r.plan) }
    ensures cheaper { IfOk result (λ r. cost instance.now r.plan ≤ cost instance.now incumbent.now) }
    ensures timed { IfOk result (λ r. (groups : List (List Member)) → AreGroups relaxed.now groups →
        (IsTrue r.timed ↔ HaveTimes instance.now (windows_in windows.now) (arc_lists relaxed.now) groups)) }
    ensures together { IfOk result
        (λ r. IsTrue r.timed → cost instance.now r.plan ≤ cost instance.now relaxed.now) }
    ensures apart { IfOk result (λ r. (legs : List (List Leg)) →
        IsEarliest instance.now (windows_in windows.now) (arc_lists relaxed.now) [] legs →
        cost instance.now r.plan ≤ cost instance.now legs) }
    ensures kept { IfOk result (λ r. (groups kept : List (List Member)) (legs : List (List Leg)) →
        AreGroups relaxed.now groups →
        AreKeptGroups instance.now (windows_in windows.now) (arc_lists relaxed.now) groups kept →
        IsEarliest instance.now (windows_in windows.now) (arc_lists relaxed.now) kept legs →
        cost instance.now r.plan ≤ cost instance.now legs) }
{
    let routes = relaxed.arcs(resources.alloc)?;
    let groups = groups(resources.alloc, relaxed)?;
    let relaxed_cost = classes_cost(instance, &routes, &groups);
    let timings = least_times(resources.alloc, instance, windows, &routes, groups)?;
    let timed = timings.timed;
    let starts = starting_plans(resources.alloc, instance, windows, incumbent, timings)?;
    let best = improvement(resources, instance, windows, starts, relaxed_cost)?;
    Ok(Repaired {
        plan: best.plan,
        timed,
    })
}
