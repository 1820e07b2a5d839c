//! Whether a shipment can't arrive in time.
ghost use Rattle.std.specs.Prelude.{◌+◌, ◌<◌, ◌↔◌, IfOk, IfSome, IsTrue, length};
ghost use Rattle.fp_model.specs.Numbered.{shipment_at};
ghost use Rattle.fp_certificate_rules.specs.Accepted.{IsTooLate};

use crate::NoMemory;
use fp_flatnet::fastest;
use fp_model::{Instance, Shipment};
use std::alloc::Global;

// Whether a shipment with this fastest time, or with no route, arrives after its due time or
// never.
fn is_late(shipment: &Shipment, time: Option<u32>) -> bool
    ensures { IsTrue result ↔ IfSome time (λ t. shipment.now.due < shipment.now.release + t) }
{
    match time {
        Some(time) => u64::from(shipment.due) < u64::from(shipment.release) + u64::from(time),
        None => true,
    }
}

// Whether the fastest time of a shipment is as told, and it is missing or too long.
pub(crate) fn is_too_late(
    alloc: Global,
    instance: &Instance,
    shipment: u32,
    time: Option<u32>,
) -> Result<bool, NoMemory>
    requires { shipment < length instance.now.shipments }
    ensures { IfOk result (λ late. IsTrue late
        ↔ IsTooLate instance.now (shipment_at instance.now shipment) time) }
{
    let least = fastest(alloc, instance, shipment)?;
    Ok(least == time && is_late(instance.shipment(shipment), time))
}
