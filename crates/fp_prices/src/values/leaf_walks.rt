//! The walks of least cost of a leaf, shipment by shipment.
ghost use Rattle.std.specs.Prelude.{[], ◌≡◌, IfNone, IfOk, IfSome, length, slice_index_or};
ghost use Rattle.fp_longestarcs.specs.Networks.{class_count};
ghost use Rattle.fp_longestarcs.specs.Stops.{legs_of};
ghost use Rattle.fp_prices.specs.ClassCosts.{IsFree};
ghost use Rattle.fp_prices.specs.Found.{IsPricedLeaf};
ghost use Rattle.fp_prices.specs.FoundWalks.{AreWalksAtLeaf, HasPreferredAtLeaf, IsEmptyAtLeaf, IsWalkAtLeaf, PrefersAtLeaf};
ghost use Rattle.fp_prices.specs.PointGraphs.{IsPointGraph};
ghost use Rattle.fp_prices.specs.PricedGraphs.{IsShipmentOver};

use crate::NoMemory;
use crate::graphs::least_costs::least_walk;
use crate::graphs::priced_graphs::PricedGraph;
use fp_longestarcs::{Stop, TimedWalk};
use fp_rows::Row;
use std::alloc::Global;

// A walk of least cost of a shipment whose row this is, the preferred one where that is one, and
// `None` exactly where it has no allowed timed walk. The costs of the classes are put in anew.
fn shipment_walk(
    alloc: Global,
    over: &PricedGraph,
    shipment: u32,
    row: &Row,
    costs: &mut [Option<u128>],
    preferred: &[Stop],
) -> Result<Option<TimedWalk>, NoMemory>
    requires { IsShipmentOver over.now shipment row.now costs.old }
    ensures free { IsFree (class_count over.now.pricing.now.network.now) costs.new }
    ensures exact { IfOk result (IsWalkAtLeaf over.now.pricing.now shipment row.now) }
    ensures preferred { IfOk result (PrefersAtLeaf over.now.pricing.now shipment row.now (legs_of preferred.now)) }
{
    over.pricing.fill_costs(shipment, row, costs);
    least_walk(alloc, over, costs, shipment, preferred)
}

// The classes of the walk that is preferred for a shipment, none where there is no such walk.
fn preferred_for(preferred: &[TimedWalk], shipment: u32) -> &[Stop]
    ensures { legs_of result.now ≡ slice_index_or preferred.now shipment [] }
{
    match preferred.get(shipment as usize) {
        Some(walk) => &walk.stops,
        None => &[],
    }
}

/// A walk of least cost of each shipment, whose rows these are, the preferred one where that is
/// one, or `None` where some shipment has no allowed timed walk. `NoMemory` only where no memory is
/// found.
pub(crate) fn walks_over(
    alloc: Global,
    over: &PricedGraph,
    rows: &[Row],
    preferred: &[TimedWalk],
) -> Result<Option<Vec<TimedWalk>>, NoMemory>
    requires graph { IsPointGraph over.now.pricing.now.instance.now over.now.pricing.now.network.now over.now.graph.now }
    requires rows { length rows.now ≡ length over.now.pricing.now.instance.now.shipments }
    requires priced { IsPricedLeaf over.now.pricing.now rows.now }
    ensures none { IfOk result (λ found. IfNone found (IsEmptyAtLeaf over.now.pricing.now rows.now)) }
    ensures walks { IfOk result (λ found. IfSome found (λ walks. AreWalksAtLeaf over.now.pricing.now rows.now walks.items)) }
    ensures preferred { IfOk result (λ found. IfSome found (λ walks. HasPreferredAtLeaf over.now.pricing.now rows.now preferred.now walks.items)) }
{
    let mut costs = over.graph.free_costs(alloc)?;
    let mut walks = Vec::new(alloc);
    for shipment in 0..over.pricing.instance.shipments().len() as u32 {
        let row = &rows[shipment as usize];
        let wanted = preferred_for(preferred, shipment);
        match shipment_walk(alloc, over, shipment, row, &mut costs, wanted)? {
            Some(walk) => walks.push(walk)?,
            None => return Ok(None),
        }
    }
    Ok(Some(walks))
}
