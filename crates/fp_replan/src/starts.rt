//! The plan that a search begins with: kept legs, and the fastest way on from them.
ghost use Rattle.std.specs.Prelude.{ℕ, ◌≡◌, ◌≢◌, ◌<◌, ◌≤◌, List, [], ◌++◌, ◌∷◌, length, IfOk, OnOk};
ghost use Rattle.fp_replan.specs.KeptLegs.{AreKept};
ghost use Rattle.fp_replan.specs.Starts.{IsStarted};

use crate::NoMemory;
use crate::beginnings::beginnings_of;
use crate::kept::Kept;
use crate::onward::{backward_graph, begun_route};
use fp_model::{Instance, Leg, Plan};
use std::alloc::Global;

/// How a search for plans that keep legs begins.
#[derive(Drop)]
pub enum Started {
    /// A plan that keeps the legs.
    Plan { plan: Plan },
    /// No plan keeps the legs, over any denominator. The shipment is the first that has no legs
    /// that carry it and begin with its kept legs.
    Stuck { shipment: u32 },
}

/// A plan that keeps the legs, or `Stuck` exactly where no plan keeps them, in any fraction of the
/// unit of time, with the first shipment that has no legs that begin with its kept legs.
///
/// After its kept legs a shipment takes at each terminal the arc of least number with which a walk
/// of least time to its destination begins, among the walks that avoid the terminals where it was.
/// It leaves as early as it can and never waits. `NoMemory` only where no memory is found.
pub fn start(alloc: Global, instance: &Instance, kept: &[Kept]) -> Result<Started, NoMemory>
    requires { AreKept instance.now kept.now }
    ensures { IfOk result (IsStarted instance.now kept.now) }
{
    let beginnings = beginnings_of(alloc, instance.shipments().len(), kept)?;
    let graph = backward_graph(alloc, instance)?;
    let mut routes = Vec::new(alloc);
    for (number, front) in beginnings.iter().enumerate() {
        let shipment = instance.shipment(number as u32);
        match begun_route(alloc, instance, &graph, shipment, front, &[])? {
            Some(route) => add_route(&mut routes, route)?,
            None => {
                return Ok(Started::Stuck {
                    shipment: number as u32,
                });
            }
        }
    }
    Ok(Started::Plan {
        plan: Plan { routes },
    })
}

// Adds a route.
fn add_route(routes: &mut Vec<Vec<Leg>>, route: Vec<Leg>) -> Result<(), NoMemory>
    ensures { OnOk result (routes.new.items ≡ routes.old.items ++ route ∷ []) }
{
    routes.push(route)?;
    Ok(())
}
