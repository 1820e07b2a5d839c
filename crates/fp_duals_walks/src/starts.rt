//! Walks from which the local search starts.
ghost use Rattle.std.specs.Prelude.{◌<◌, length};

use crate::NoMemory;
use crate::allowed_walks::is_allowed_walk;
use fp_duals_nets::{ALL_PARTS, LeafNets, LoadCosts, SharedWalks};
use fp_longestarcs::TimedWalk;
use fp_prices::Leaf;
use fp_prices_spans::leaf_ways;
use std::alloc::Global;

// Whether a walk goes by each of some arcs.
fn goes_by_all(walk: &TimedWalk, arcs: &[u32]) -> bool {
    for arc in arcs {
        if !walk.stops.iter().any(|stop| stop.arc == *arc) {
            return false;
        }
    }
    true
}

// Gives a shipment the walk that is given for it, where that is an allowed timed walk, and goes by the arcs
// that count for the shipment, as the walks of its net do. Whether it is so.
fn take_given(
    alloc: Global,
    leaf: &Leaf,
    costs: &LoadCosts,
    shared: &mut SharedWalks,
    shipment: u32,
    given: &[TimedWalk],
) -> Result<bool, NoMemory>
    requires { shipment < length leaf.now.setting.problem.shipments }
{
    let Some(walk) = given.get(shipment as usize) else {
        return Ok(false);
    };
    let ways = leaf_ways(alloc, leaf, shipment)?;
    if goes_by_all(walk, &ways) && is_allowed_walk(leaf, shipment, walk) {
        Ok(shared.put(costs, shipment as usize, &walk.stops))
    } else {
        Ok(false)
    }
}

/// The walks that a search starts from, and what they cost: for each shipment the walk that is given
/// for it, or where there's none that is allowed and goes by the arcs that count for the shipment, one
/// that adds least to the loads before.
pub(crate) fn start(
    alloc: Global,
    leaf: &Leaf,
    model: &LeafNets,
    given: &[TimedWalk],
) -> Result<(SharedWalks, u64), NoMemory> {
    let mut shared = SharedWalks::over_all(alloc, model)?;
    let costs = LoadCosts::of(model);
    let mut cost = 0u64;
    for shipment in 0..leaf.round().instance().shipments().len() as u32 {
        if !take_given(alloc, leaf, &costs, &mut shared, shipment, given)? {
            shared.choose(&costs, shipment as usize, ALL_PARTS);
        }
        cost = cost.saturating_add(shared.join(&costs, shipment as usize));
    }
    Ok((shared, cost))
}
