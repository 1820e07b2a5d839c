//! Whether legs are a plan, and else their first fault.
ghost use Rattle.std.specs.Prelude.{ℕ, ◌≡◌, ◌<◌, ◌≤◌, ◌↔◌, length, IfErr, IfOk, IfSome, IsNone, IsOk};
ghost use Rattle.fp_base_lists.specs.Vectors.{lists_of};
ghost use Rattle.fp_model.specs.Faults.{AreFaultless, HasLegFault, IsFirstFault, IsFirstLegFault, kind_number};
ghost use Rattle.fp_model.specs.Numbered.{leg_at, route_at, shipment_at};
ghost use Rattle.fp_model.specs.Plans.{IsPlan};
ghost use Rattle.fp_model.specs.Problem.{IsValid};
ghost use Rattle.fp_model.specs.declared.faults.PlanKind.{PlanKind};

use crate::instances::Instance;
use crate::parts::{Leg, Shipment};
use crate::plans::Plan;
use crate::routes::{arrives_late, breaks_off, leaves_before_release, leaves_early, returns};

/// What a plan's fault is. The kinds are numbered from 1 in this order.
#[derive(Clone, Copy, PartialEq, Eq)]
pub enum PlanKind {
    /// The number of routes differs from the number of shipments. It stands at shipment 0 and leg
    /// 0.
    Count,
    /// The legs are no route. It stands at leg 0 where there are none, at a leg whose arc does not
    /// exist or does not leave the end of the leg before (the origin for leg 0), and at the last
    /// leg where it does not enter the destination.
    NotRoute,
    /// A leg enters the origin or the end of an earlier leg, and stands there.
    TerminalTwice,
    /// Leg 0 leaves before the release.
    BeforeRelease,
    /// A leg leaves before the leg before it has arrived and the hold of the terminal between them
    /// has passed.
    BeforeArrival,
    /// The last leg arrives after the due time.
    AfterDue,
}

/// The first fault of a plan: by the number of the shipment, then of the leg, then of the kind.
#[derive(Clone, Copy, PartialEq, Eq)]
pub struct PlanFault {
    pub kind: PlanKind,
    pub shipment: u32,
    pub leg: u32,
}

// The first kind of fault at a leg, where the legs before it have none.
fn leg_fault(
    instance: &Instance,
    shipment: &Shipment,
    route: &[Leg],
    place: usize,
) -> Option<PlanKind>
    requires place { place < length route.now }
    requires earlier { (i : ℕ) → i < place → (leg_at route.now i).arc < length instance.now.arcs }
    ensures there { IfSome result (λ kind. HasLegFault instance.now shipment.now route.now kind place) }
    ensures first { IfSome result (λ kind. (other : PlanKind) → kind_number other < kind_number kind
        → HasLegFault instance.now shipment.now route.now other place → ⊥) }
    ensures none { IsNone result → (kind : PlanKind)
        → HasLegFault instance.now shipment.now route.now kind place → ⊥ }
    ensures valid { IsValid instance.now }
{
    if breaks_off(instance, shipment, route, place) {
        Some(PlanKind::NotRoute)
    } else if returns(instance, shipment, route, place) {
        Some(PlanKind::TerminalTwice)
    } else if leaves_before_release(shipment, route, place) {
        Some(PlanKind::BeforeRelease)
    } else if leaves_early(instance, route, place) {
        Some(PlanKind::BeforeArrival)
    } else if arrives_late(instance, shipment, route, place) {
        Some(PlanKind::AfterDue)
    } else {
        None
    }
}

// The first leg of a route with a fault, and its first kind.
fn route_fault(instance: &Instance, shipment: &Shipment, route: &[Leg]) -> Option<(u32, PlanKind)>
    ensures first { IfSome result (λ f. IsFirstLegFault instance.now shipment.now route.now f.1 f.0) }
    ensures none { IsNone result → AreFaultless instance.now shipment.now route.now }
{
    if route.is_empty() {
        return Some((0, PlanKind::NotRoute));
    }
    for place in 0..route.len() {
        if let Some(kind) = leg_fault(instance, shipment, route, place) {
            return Some((place as u32, kind));
        }
    }
    None
}

// The first leg of the shipment with a number that has a fault, and its first kind.
#[tactic(auto, using(crate::proofs::FirstFaults::route_at_lists_of))]
fn shipment_fault(instance: &Instance, routes: &[Vec<Leg>], number: u32) -> Option<(u32, PlanKind)>
    requires shipment { number < length instance.now.shipments }
    requires route { number < length routes.now }
    ensures first { IfSome result (λ f.
        IsFirstLegFault instance.now (shipment_at instance.now number)
        (route_at (lists_of routes.now) number) f.1 f.0) }
    ensures none { IsNone result → AreFaultless instance.now (shipment_at instance.now number)
        (route_at (lists_of routes.now) number) }
{
    route_fault(
        instance,
        instance.shipment(number),
        &routes[number as usize],
    )
}

// The first fault of routes.
fn first_fault(instance: &Instance, routes: &[Vec<Leg>]) -> Option<PlanFault>
    ensures fault { IfSome result (λ f.
        IsFirstFault instance.now (lists_of routes.now) f.kind f.shipment f.leg) }
    ensures none { IsNone result → IsPlan instance.now 1 (lists_of routes.now) }
{
    let count = instance.shipments().len();
    if routes.len() != count {
        return Some(PlanFault {
            kind: PlanKind::Count,
            shipment: 0,
            leg: 0,
        });
    }
    for shipment in 0..count as u32 {
        if let Some((leg, kind)) = shipment_fault(instance, routes, shipment) {
            return Some(PlanFault {
                kind,
                shipment,
                leg,
            });
        }
    }
    None
}

/// Whether legs are a plan over the denominator 1: whether each shipment has a route that carries
/// it within its times.
///
/// `Ok` exactly where they are. Otherwise the first fault, by the number of the shipment, then of
/// the leg, then of the kind. Takes no memory.
#[tactic(auto, using(crate::proofs::FirstFaults::no_plan_at_fault))]
pub fn test_plan(instance: &Instance, plan: &Plan) -> Result<(), PlanFault>
    ensures plan { IsOk result ↔ IsPlan instance.now 1 plan.now }
    ensures fault { IfErr result (λ f. IsFirstFault instance.now plan.now f.kind f.shipment f.leg) }
    ensures no_plan { IfErr result (λ f. IsPlan instance.now 1 plan.now → ⊥) }
{
    match first_fault(instance, plan.routes.as_slice()) {
        Some(fault) => Err(fault),
        None => Ok(()),
    }
}
