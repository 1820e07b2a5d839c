//! The plan of routes and moments.
ghost use Rattle.std.specs.Prelude.{ℕ, ◌≡◌, ◌+◌, ◌*◌, ◌<◌, ◌≤◌, ◌^◌, length, All, IfOk, slice_index_or};
ghost use Rattle.fp_base_lists.specs.Vectors.{lists_of};
ghost use Rattle.fp_model.specs.declared.parts.Member.{Member};
ghost use Rattle.fp_model.specs.Members.{IsMemberOf, arc_lists};
ghost use Rattle.fp_model.specs.Numbered.{leg_at};
ghost use Rattle.fp_model.specs.Routes.{arcs_of};
ghost use Rattle.fp_dispatch.specs.Rising.{IsWide, value_at};
ghost use Rattle.fp_dispatch.specs.Times.{departure};

use crate::NoMemory;
use fp_model::{Leg, Plan};
use std::alloc::Global;

// The plan in which each leg leaves at its moment.
pub(crate) fn timed_plan(
    alloc: Global,
    routes: &[Vec<u32>],
    width: usize,
    values: &[u32],
) -> Result<Plan, NoMemory>
    requires wide { IsWide (lists_of routes.now) width }
    requires long { length values.now ≡ length routes.now * width }
    requires few { length values.now < 2 ^ 32 }
    ensures arcs { IfOk result (λ plan. arc_lists plan ≡ lists_of routes.now) }
    ensures times { IfOk result (λ plan. (m : Member) → IsMemberOf (lists_of routes.now) m →
        departure plan m ≡ value_at width values.now m) }
{
    let mut plan = Vec::with_capacity(alloc, routes.len())?;
    for (shipment, route) in routes.iter().enumerate() {
        let first = shipment * width;
        plan.push(timed_route(alloc, route, first, values)?)?;
    }
    Ok(Plan { routes: plan })
}

// The legs of a route, each at its moment, where the first one's stands at the place `first`.
fn timed_route(
    alloc: Global,
    route: &[u32],
    first: usize,
    values: &[u32],
) -> Result<Vec<Leg>, NoMemory>
    requires { first + length route.now ≤ length values.now }
    ensures arcs { IfOk result (λ legs. arcs_of legs.items ≡ route.now) }
    ensures times { IfOk result (λ legs. (i : ℕ) → i < length route.now →
        (leg_at legs.items i).depart ≡ slice_index_or values.now (first + i) 0) }
{
    let mut legs = Vec::with_capacity(alloc, route.len())?;
    for (leg, arc) in route.iter().enumerate() {
        legs.push(Leg {
            arc: *arc,
            depart: values[first + leg],
        })?;
    }
    Ok(legs)
}
