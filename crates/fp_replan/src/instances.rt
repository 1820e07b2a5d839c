//! An instance without its last shipment.
ghost use Rattle.std.specs.Prelude.{ℕ, ◌≡◌, ◌≤◌, ◌<◌, List, length, map, take, IfOk};
ghost use Rattle.fp_model.specs.declared.parts.Leg.{Leg};
ghost use Rattle.fp_model.specs.Plans.{IsPlan, PlanExists};
ghost use Rattle.fp_model.specs.Problem.{IsValid};
ghost use Rattle.fp_replan.specs.Quotes.{HasPlanAtMost, without_last as without_last_of};
ghost use Rattle.fp_model.specs.Costs.{cost};

use crate::NoMemory;
use fp_model::{Instance, Name, Shipment};
use std::alloc::Global;

// Equal names.
fn copy_names(alloc: Global, names: &[Name]) -> Result<Vec<Name>, NoMemory>
    ensures { IfOk result (λ copies. copies.items ≡ names.now) }
{
    let mut copies = Vec::new(alloc);
    for name in names {
        copies.push(name.copy(alloc)?)?;
    }
    Ok(copies)
}

// Equal shipments.
fn copy_shipments(alloc: Global, shipments: &[Shipment]) -> Result<Vec<Shipment>, NoMemory>
    ensures { IfOk result (λ copies. copies.items ≡ shipments.now) }
{
    let mut copies = Vec::new(alloc);
    for shipment in shipments {
        copies.push(Shipment {
            name: shipment.name.copy(alloc)?,
            from: shipment.from,
            to: shipment.to,
            size: shipment.size,
            release: shipment.release,
            due: shipment.due,
        })?;
    }
    Ok(copies)
}

/// The same instance but for its shipments, with which it is valid. `NoMemory` only where no memory is
/// found.
pub fn with_shipments(
    alloc: Global,
    instance: &Instance,
    shipments: Vec<Shipment>,
) -> Result<Instance, NoMemory>
    requires { IsValid (record instance.now { shipments = shipments.items }) }
    ensures { IfOk result (λ i. i ≡ record instance.now { shipments = shipments.items }) }
{
    let copy = Instance::new(
        copy_names(alloc, instance.terminals())?,
        instance.holds().to_vec(alloc)?,
        instance.arcs().to_vec(alloc)?,
        shipments,
    );
    Ok(copy.with_scale(instance.scale()))
}

/// The same instance but for its last shipment, of at least one.
///
/// To each plan there is one of it that costs no more: the plan without the shipment's route.
/// `NoMemory` only where no memory is found.
pub fn without_last(alloc: Global, instance: &Instance) -> Result<Instance, NoMemory>
    requires { 1 ≤ length instance.now.shipments }
    ensures same { IfOk result (λ i. i ≡ without_last_of instance.now) }
    ensures plan { IfOk result (λ i. PlanExists instance.now → PlanExists i) }
    ensures cheaper { IfOk result (λ i. (d : ℕ) (routes : List (List Leg)) → 1 ≤ d → IsPlan instance.now d routes → HasPlanAtMost i d (cost instance.now routes)) }
{
    let shipments = instance.shipments();
    let kept = copy_shipments(alloc, &shipments[..shipments.len() - 1])?;
    let without = with_shipments(alloc, instance, kept)?;
    Ok(without)
}
