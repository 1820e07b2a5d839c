//! Walks of classes, read from walks in the graph of a network's points.
ghost use Rattle.std.specs.Prelude.{◌≡◌, IfOk};
ghost use Rattle.fp_prices.specs.LeastWalks.{classes_on};

use crate::NoMemory;
use fp_longestarcs::{Network, Stop, TimedWalk};
use std::alloc::Global;

/// The classes of a walk in the graph of a network's points, which is given by the numbers of its
/// edges: those of its edges that aren't holding edges. `NoMemory` only where no memory is found.
pub fn class_walk(alloc: Global, network: &Network, edges: &[u32]) -> Result<TimedWalk, NoMemory>
    ensures { IfOk result (λ walk. walk ≡ classes_on network.now edges.now) }
{
    let count = network.classes();
    let mut stops = Vec::new(alloc);
    for edge in edges {
        if *edge < count {
            let (arc, point) = network.of_class(*edge);
            stops.push(Stop { arc, point })?;
        }
    }
    Ok(TimedWalk { stops })
}
