//! The plans with the least times of routes: without any group, and with as many as can be kept.
ghost use Rattle.std.specs.Prelude.{[], ◌↔◌, IfOk, IsTrue, MatchOption};
ghost use Rattle.std.specs.List.{AllZip};
ghost use Rattle.fp_base_lists.specs.Vectors.{lists_of};
ghost use Rattle.fp_model.specs.Members.{AreGroupsOf};
ghost use Rattle.fp_model.specs.Routes.{IsRoute};
ghost use Rattle.fp_flatnet.specs.Belonging.{BelongsTo};
ghost use Rattle.fp_flatnet.specs.Tables.{windows_in};
ghost use Rattle.fp_dispatch.specs.Answers.{IsEarliest};
ghost use Rattle.fp_dispatch.specs.Times.{HaveTimes};
ghost use Rattle.fp_repair.specs.KeptGroups.{IsKeptPlan};

use crate::NoMemory;
use fp_dispatch::{Dispatch, earliest};
use fp_flatnet::Windows;
use fp_model::{Instance, Member, Plan};
use std::alloc::Global;

// The plans with the least times of routes, if they have times at all: without any group, and with
// the groups that are kept. `timed` tells whether all groups are.
#[derive(Drop)]
pub(crate) struct Timings {
    pub apart: Option<Plan>,
    pub grouped: Option<Plan>,
    pub timed: bool,
}

// The plan with the least times of routes and groups, if they have times.
fn earliest_plan(
    alloc: Global,
    instance: &Instance,
    windows: &Windows,
    routes: &[Vec<u32>],
    groups: &[Vec<Member>],
) -> Result<Option<Plan>, NoMemory>
    requires belongs { BelongsTo instance.now windows.now }
    requires routes { AllZip (IsRoute instance.now) instance.now.shipments (lists_of routes.now) }
    requires groups { AreGroupsOf (lists_of routes.now) (lists_of groups.now) }
    ensures { IfOk result (λ r. MatchOption r
        (HaveTimes instance.now (windows_in windows.now) (lists_of routes.now) (lists_of groups.now) → ⊥)
        (IsEarliest instance.now (windows_in windows.now) (lists_of routes.now) (lists_of groups.now))) }
{
    match earliest(alloc, instance, windows, routes, groups)? {
        Dispatch::Times { plan } => Ok(Some(plan)),
        Dispatch::Clash { .. } => Ok(None),
    }
}

// The plan with the least times with the groups that are kept, where `plan` has those without any.
//
// A group of one leg changes nothing, so it's kept without a look.
fn kept_plan(
    alloc: Global,
    instance: &Instance,
    windows: &Windows,
    routes: &[Vec<u32>],
    groups: Vec<Vec<Member>>,
    mut plan: Plan,
) -> Result<Plan, NoMemory>
    requires belongs { BelongsTo instance.now windows.now }
    requires routes { AllZip (IsRoute instance.now) instance.now.shipments (lists_of routes.now) }
    requires groups { AreGroupsOf (lists_of routes.now) (lists_of groups.items) }
    requires plan { IsEarliest instance.now (windows_in windows.now) (lists_of routes.now) [] plan }
    ensures { IfOk result
        (IsKeptPlan instance.now (windows_in windows.now) (lists_of routes.now) (lists_of groups.items)) }
{
    let mut kept = Vec::new(alloc);
    for group in groups {
        if group.len() < 2 {
            continue;
        }
        kept.push(group)?;
        match earliest_plan(alloc, instance, windows, routes, &kept)? {
            Some(with_group) => plan = with_group,
            None => {
                let _clashing = kept.pop();
            }
        }
    }
    Ok(plan)
}

// The least times of routes.
pub(crate) fn least_times(
    alloc: Global,
    instance: &Instance,
    windows: &Windows,
    routes: &[Vec<u32>],
    groups: Vec<Vec<Member>>,
) -> Result<Timings, NoMemory>
    requires belongs { BelongsTo instance.now windows.now }
    requires routes { AllZip (IsRoute instance.now) instance.now.shipments (lists_of routes.now) }
    requires groups { AreGroupsOf (lists_of routes.now) (lists_of groups.items) }
    ensures timed { IfOk result (λ t. IsTrue t.timed
        ↔ HaveTimes instance.now (windows_in windows.now) (lists_of routes.now) (lists_of groups.items)) }
    ensures apart { IfOk result (λ t. MatchOption t.apart
        (HaveTimes instance.now (windows_in windows.now) (lists_of routes.now) [] → ⊥)
        (IsEarliest instance.now (windows_in windows.now) (lists_of routes.now) [])) }
    ensures grouped { IfOk result (λ t. MatchOption t.grouped
        (HaveTimes instance.now (windows_in windows.now) (lists_of routes.now) [] → ⊥)
        (IsKeptPlan instance.now (windows_in windows.now) (lists_of routes.now) (lists_of groups.items))) }
{
    let all = earliest_plan(alloc, instance, windows, routes, &groups)?;
    let apart = earliest_plan(alloc, instance, windows, routes, &[])?;
    if let Some(plan) = all {
        return Ok(Timings {
            apart,
            grouped: Some(plan),
            timed: true,
        });
    }
    let Some(plan) = apart else {
        return Ok(Timings {
            apart: None,
            grouped: None,
            timed: false,
        });
    };
    let copy = plan.copy(alloc)?;
    let kept = kept_plan(alloc, instance, windows, routes, groups, copy)?;
    Ok(Timings {
        apart: Some(plan),
        grouped: Some(kept),
        timed: false,
    })
}
