//! The least times of routes and groups, or why there are none.
ghost use Rattle.std.specs.Prelude.{◌≡◌, ◌<◌, ◌↔◌, IfOk, length};
ghost use Rattle.std.specs.List.{AllZip};
ghost use Rattle.std.specs.Option.{option_map};
ghost use Rattle.fp_base_lists.specs.Vectors.{lists_of};
ghost use Rattle.fp_model.specs.Members.{AreGroupsOf, IsMemberOf, member_arc};
ghost use Rattle.fp_model.specs.Routes.{IsRoute};
ghost use Rattle.fp_flatnet.specs.Belonging.{BelongsTo};
ghost use Rattle.fp_flatnet.specs.Tables.{windows_in};
ghost use Rattle.fp_dispatch.specs.declared.dispatches.Dispatch.TheVariants as dispatch;
ghost use Rattle.fp_dispatch.specs.Answers.{HasPlan, IfClash, IfTimes, IsEarliest};
ghost use Rattle.fp_dispatch.specs.Times.{HaveTimes, IsClash, window_of};

use crate::NoMemory;
use crate::gathering::all_legs;
use crate::group_numbers::group_numbers;
use crate::places::{latest, longest};
use crate::planning::timed_plan;
use crate::rising::{Late, Moments};
use crate::starting::start;
use crate::tasks::Task;
use fp_flatnet::Windows;
use fp_model::{Instance, Member, Plan};
use std::alloc::Global;

/// Whether routes and groups have times: the plan with the least whole ones, or a leg that shows
/// that there are none.
///
/// In every choice of times, over whatever denominator, that keeps the windows' beginnings, the
/// steps of the routes and the groups, the leg of a clash leaves at `value` or later. `latest` is
/// the end of its window, which lies before `value`; or `None` where it has no window. Times are in
/// the input's unit.
#[derive(Drop)]
pub enum Dispatch {
    Times {
        plan: Plan,
    },
    Clash {
        shipment: u32,
        leg: u32,
        value: u32,
        latest: Option<u32>,
    },
}

/// The least whole departures of routes of arcs within the windows, so that each leg leaves at or
/// after the arrival of its shipment's leg before it and the hold, and all legs of a group leave
/// together; or `Clash`, exactly where there are none in any fraction of the unit.
///
/// The windows belong to the instance, there is one route for each shipment, and each leg is in at
/// most one group, whose legs all go by one arc. `NoMemory` only where no memory is found.
pub fn earliest(
    alloc: Global,
    instance: &Instance,
    windows: &Windows,
    routes: &[Vec<u32>],
    groups: &[Vec<Member>],
) -> Result<Dispatch, NoMemory>
    requires belongs { BelongsTo instance.now windows.now }
    requires routes { AllZip (IsRoute instance.now) instance.now.shipments (lists_of routes.now) }
    requires groups { AreGroupsOf (lists_of routes.now) (lists_of groups.now) }
    ensures times { IfOk result (λ d. IfTimes d
        (IsEarliest instance.now (windows_in windows.now) (lists_of routes.now) (lists_of groups.now))) }
    ensures exact { IfOk result (λ d. HasPlan d
        ↔ HaveTimes instance.now (windows_in windows.now) (lists_of routes.now) (lists_of groups.now)) }
    ensures clash { IfOk result (λ d. IfClash d
        (IsClash instance.now (windows_in windows.now) (lists_of routes.now) (lists_of groups.now))) }
{
    let width = longest(routes);
    let count = routes.len() * width;
    let mut values = vec![in alloc; 0; count]?;
    if let Some(leg) = start(windows, routes, width, &mut values) {
        return Ok(clash(windows, routes, Late { leg, value: 0 }));
    }
    let numbers = group_numbers(alloc, routes, groups, width, count)?;
    let mut moments = Moments {
        values,
        waits: vec![in alloc; true; count]?,
        waiting: all_legs(alloc, routes, count)?,
    };
    let task = Task {
        instance,
        windows,
        routes,
        groups,
        numbers,
    };
    if let Some(late) = moments.gather(&task)? {
        return Ok(clash(windows, routes, late));
    }
    if let Some(late) = moments.settle(&task)? {
        return Ok(clash(windows, routes, late));
    }
    let plan = timed_plan(alloc, routes, width, &moments.values)?;
    Ok(Dispatch::Times { plan })
}

// The clash of a leg.
fn clash(windows: &Windows, routes: &[Vec<u32>], late: Late) -> Dispatch
    requires member { IsMemberOf (lists_of routes.now) late.leg }
    requires shipment { late.leg.shipment < length windows.now.rows }
    requires arc { member_arc (lists_of routes.now) late.leg < length windows.now.tails }
    ensures { result ≡ dispatch.Clash late.leg.shipment late.leg.leg late.value
        (option_map (λ w. w.hi) (window_of (windows_in windows.now) (lists_of routes.now) late.leg)) }
{
    Dispatch::Clash {
        shipment: late.leg.shipment,
        leg: late.leg.leg,
        value: late.value,
        latest: latest(windows, routes, late.leg),
    }
}
