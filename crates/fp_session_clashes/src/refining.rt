//! One more round: the points that it adds, and the network with them.
ghost use Rattle.std.specs.Prelude.{◌≡◌, ◌≤◌, All, IfOk, length};
ghost use Rattle.fp_base_lists.specs.Distinct.{AreDistinct};
ghost use Rattle.fp_longestarcs.specs.Whole.{IsNetworkOf};
ghost use Rattle.fp_timenodes.specs.Points.{greatest_round};
ghost use Rattle.fp_session_clashes.specs.Refining.{CanAdd, IsRefined};

use crate::NoMemory;
use fp_longestarcs::Network;
use fp_model::Instance;
use fp_timenodes::{Place, Points};
use std::alloc::Global;

/// The points with those that a round adds, and the network with them.
#[derive(Drop)]
pub struct RefinedNetwork {
    pub points: Points,
    pub network: Network,
}

/// The points with places that a round adds, which are none of them yet, and the network with them.
///
/// The points are those of the instance's terminals, none is of a later round, and the network is theirs. The
/// places are distinct. `NoMemory` only where no memory is found.
pub fn refined(
    alloc: Global,
    instance: &Instance,
    points: Points,
    network: Network,
    round: u32,
    places: &[Place],
) -> Result<RefinedNetwork, NoMemory>
    requires round { 1 ≤ round }
    requires last { greatest_round points.added ≤ round }
    requires terminals { points.terminals ≡ length instance.now.terminals }
    requires network { IsNetworkOf instance.now points round network }
    requires places { All (CanAdd instance.now points round) places.now }
    requires distinct { AreDistinct places.now }
    ensures { IfOk result (IsRefined instance.now points round places.now) }
{
    let mut refined = RefinedNetwork { points, network };
    for place in places {
        let _added = refined.points.add(alloc, place.terminal, place.at, round)?;
        refined
            .network
            .refine(alloc, instance, place.terminal, place.at)?;
        refined.network.restore(instance, place.terminal, place.at);
    }
    Ok(refined)
}
