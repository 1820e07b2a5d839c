//! The weight of an instance, which bounds every sum of prices.
ghost use Rattle.std.specs.Prelude.{ℕ, ◌≡◌, ◌+◌, ◌*◌, ◌<◌, ◌≤◌, ◌^◌, ◌↔◌, All, IfSome, IsNone, sum_by};
ghost use Rattle.fp_model.specs.Problem.{IsArcWithin, IsShipmentWithin, alone_cost, alone_total, weight as weight_of};

use crate::limits::{GREATEST_AMOUNT, MOST_TIMED_NODES, SCALE};
use crate::parts::{Arc, Shipment};

// The greatest total whose weight is below 2^127.
const MOST_ALONE: u128 = 2_596_148_429_267_413_814_265_248_164;

// What a shipment of that size costs alone over an arc.
fn alone(arc: &Arc, size: u64) -> u128
    requires arc { IsArcWithin arc.now }
    requires size { size ≤ GREATEST_AMOUNT }
    ensures cost { result ≡ alone_cost size arc.now }
    ensures small { result ≤ 2 * 10 ^ 36 }
{
    let load = u128::from(size);
    let trucks = load.div_ceil(u128::from(arc.capacity));
    u128::from(arc.freight) * load + u128::from(arc.truck) * trucks
}

// The total with a shipment of that size alone over every arc, or `None` where it is above the
// most.
fn with_alone(mut total: u128, arcs: &[Arc], size: u64) -> Option<u128>
    requires total { total ≤ MOST_ALONE }
    requires arcs { All IsArcWithin arcs.now }
    requires size { size ≤ GREATEST_AMOUNT }
    ensures sum { IfSome result (λ t. t ≡ total + sum_by (alone_cost size) arcs.now) }
    ensures most { IfSome result (λ t. t ≤ MOST_ALONE) }
    ensures above { IsNone result → MOST_ALONE < total + sum_by (alone_cost size) arcs.now }
{
    for arc in arcs {
        total += alone(arc, size);
        if total > MOST_ALONE {
            return None;
        }
    }
    Some(total)
}

// Every shipment alone over every arc, or `None` where the total is above the most.
pub(crate) fn total_alone(arcs: &[Arc], shipments: &[Shipment]) -> Option<u128>
    requires arcs { All IsArcWithin arcs.now }
    requires shipments { All IsShipmentWithin shipments.now }
    ensures some { IfSome result (λ t. t ≡ alone_total arcs.now shipments.now) }
    ensures most { IfSome result (λ t. t ≤ MOST_ALONE) }
    ensures none { IsNone result → MOST_ALONE < alone_total arcs.now shipments.now }
{
    let mut total: u128 = 0;
    for shipment in shipments {
        total = with_alone(total, arcs, shipment.size)?;
    }
    Some(total)
}

/// The weight of an instance with these arcs and shipments, or `None` exactly where it is above
/// `2^127 - 1`.
///
/// It is 1,000,000 times 65,536 times the sum, over every shipment and every arc, of what the
/// shipment would cost if it went over the arc alone. It is always taken at the scale of 1,000,000.
/// Takes no memory.
pub fn weight(arcs: &[Arc], shipments: &[Shipment]) -> Option<u128>
    requires arcs { All IsArcWithin arcs.now }
    requires shipments { All IsShipmentWithin shipments.now }
    ensures some { IfSome result (λ w. w ≡ weight_of arcs.now shipments.now) }
    ensures none { IsNone result ↔ (2 ^ 127 ≤ weight_of arcs.now shipments.now) }
{
    let total = total_alone(arcs, shipments)?;
    Some(SCALE * u128::from(MOST_TIMED_NODES) * total)
}
