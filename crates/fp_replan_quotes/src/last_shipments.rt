//! An instance with one of its shipments as the last one.
ghost use Rattle.std.specs.Prelude.{◌≡◌, ◌<◌, ◌++◌, ◌∷◌, [], length, IfOk, OnOk};
ghost use Rattle.fp_model.specs.Plans.{PlanExists};
ghost use Rattle.fp_replan_quotes.specs.LastShipments.{PlansCorrespond, StandsLast, to_last, with_last as with_last_of};
ghost use Rattle.fp_replan_quotes.specs.NamedQuotes.{PricesAsLast};

use crate::NoMemory;
use fp_model::{Instance, Shipment};
use fp_replan::with_shipments;
use std::alloc::Global;

// An equal shipment.
fn copy_shipment(alloc: Global, shipment: &Shipment) -> Result<Shipment, NoMemory>
    ensures { IfOk result (λ copy. copy ≡ shipment.now) }
{
    Ok(Shipment {
        name: shipment.name.copy(alloc)?,
        from: shipment.from,
        to: shipment.to,
        size: shipment.size,
        release: shipment.release,
        due: shipment.due,
    })
}

// Adds equal shipments.
fn add_copies(
    alloc: Global,
    copies: &mut Vec<Shipment>,
    shipments: &[Shipment],
) -> Result<(), NoMemory>
    ensures { OnOk result (copies.new.items ≡ copies.old.items ++ shipments.now) }
{
    for shipment in shipments {
        copies.push(copy_shipment(alloc, shipment)?)?;
    }
    Ok(())
}

// The shipments with the one of a number as the last, and the others in their order.
fn shipments_with_last(
    alloc: Global,
    shipments: &[Shipment],
    number: usize,
) -> Result<Vec<Shipment>, NoMemory>
    requires { number < length shipments.now }
    ensures { IfOk result (λ copies. copies.items ≡ to_last number shipments.now) }
{
    let mut copies = Vec::new(alloc);
    add_copies(alloc, &mut copies, &shipments[..number])?;
    add_copies(alloc, &mut copies, &shipments[number + 1..])?;
    add_copies(alloc, &mut copies, &shipments[number..number + 1])?;
    Ok(copies)
}

/// The same instance with the shipment of a number as the last one, and the others in their order.
///
/// Each plan of the one is a plan of the other, with its routes in the same order as the shipments, at
/// the same cost; and what the shipment costs extra is what the last one costs extra. `NoMemory` only
/// where no memory is found.
pub fn with_last(alloc: Global, instance: &Instance, number: u32) -> Result<Instance, NoMemory>
    requires { number < length instance.now.shipments }
    ensures same { IfOk result (λ i. i ≡ with_last_of instance.now number) }
    ensures stands { IfOk result (λ i. StandsLast number instance.now.shipments i.shipments) }
    ensures plans { IfOk result (PlansCorrespond instance.now number) }
    ensures prices { IfOk result (PricesAsLast instance.now number) }
    ensures exists { IfOk result (λ i. PlanExists instance.now → PlanExists i) }
{
    let shipments = shipments_with_last(alloc, instance.shipments(), number as usize)?;
    let moved = with_shipments(alloc, instance, shipments)?;
    Ok(moved)
}
