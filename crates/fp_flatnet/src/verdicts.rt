//! Whether every shipment can arrive in time by itself: exactly then there is a plan.
ghost use Rattle.std.specs.Prelude.{◌≡◌, ◌≢◌, ◌+◌, ◌<◌, ◌≤◌, ◌↔◌, length, IfOk, IsSomeAnd, IsTrue};
ghost use Rattle.fp_model.specs.Numbered.{shipment_at};
ghost use Rattle.fp_model.specs.Plans.{PlanExists};
ghost use Rattle.fp_model.specs.Times.{IsFastest};
ghost use Rattle.fp_flatnet.specs.Verdicts.{IsVerdict};

use crate::NoMemory;
use crate::arc_graphs::forward_graph;
use crate::least_times::fastest_time;
use fp_model::{Instance, Shipment};
use std::alloc::Global;

/// Whether all shipments of an instance can arrive in time, each by itself. Then there is a plan,
/// and otherwise there is none.
#[derive(Clone, Copy, PartialEq, Eq, Debug)]
pub enum Verdict {
    /// Each shipment that leaves at its release and takes a fastest walk arrives by its due time.
    All,
    /// The first shipment that cannot, and its fastest time in the input's unit, or `None` where no
    /// walk leads from its origin to its destination.
    Blocked {
        shipment: u32,
        distance: Option<u32>,
    },
}

/// The fastest time of a shipment: the least time of a walk from its origin to its destination, in
/// the input's unit. `None` exactly where there is no route. `NoMemory` only where no memory is
/// found.
pub fn fastest(alloc: Global, instance: &Instance, shipment: u32) -> Result<Option<u32>, NoMemory>
    requires { shipment < length instance.now.shipments }
    ensures { IfOk result (IsFastest instance.now (shipment_at instance.now shipment)) }
{
    let forward = forward_graph(alloc, instance)?;
    fastest_time(alloc, instance, &forward, instance.shipment(shipment))
}

/// Decides whether a plan exists: `All` where each shipment is in time by itself, and `Blocked`
/// with the first shipment that is not. `NoMemory` only where no memory is found.
pub fn feasible(alloc: Global, instance: &Instance) -> Result<Verdict, NoMemory>
    ensures verdict { IfOk result (IsVerdict instance.now) }
    ensures some_plan { IfOk result (λ v. v ≡ Verdict.All → PlanExists instance.now) }
    ensures no_plan { IfOk result (λ v. v ≢ Verdict.All → PlanExists instance.now → ⊥) }
{
    let forward = forward_graph(alloc, instance)?;
    for (number, shipment) in instance.shipments().iter().enumerate() {
        let distance = fastest_time(alloc, instance, &forward, shipment)?;
        if !is_in_time(shipment, distance) {
            return Ok(Verdict::Blocked {
                shipment: number as u32,
                distance,
            });
        }
    }
    Ok(Verdict::All)
}

// Whether a shipment with this fastest time arrives by its due time.
fn is_in_time(shipment: &Shipment, distance: Option<u32>) -> bool
    ensures { IsTrue result ↔ IsSomeAnd distance (λ t. shipment.now.release + t ≤ shipment.now.due) }
{
    match distance {
        Some(time) => u64::from(shipment.release) + u64::from(time) <= u64::from(shipment.due),
        None => false,
    }
}
