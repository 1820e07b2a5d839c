//! The instance of an input that is one alone.
ghost use Rattle.std.specs.Prelude.{◌≤◌, length, IfOk};
ghost use Rattle.fp_model.specs.declared.limits.TheConstants.{GREATEST_SCALE};
ghost use Rattle.fp_app.specs.Inputs.{IsAtScale, IsInstanceInput, IsQuotedInput, IsScaledInput, IsWithShipment};
ghost use Rattle.fp_app.specs.declared.limits.TheConstants.{INSTANCE_LIMIT};

use crate::NoMemory;
use fp_model::Instance;
use fp_reader::{InputFault, Tail, instance};
use fp_records::records;
use std::alloc::{AllocError, Global};

/// What an input gives that is an instance alone.
#[derive(Drop)]
pub enum InstanceInput {
    /// An instance.
    Read { instance: Instance },
    /// The first fault of its records.
    Fault { ordinal: u32, code: u32 },
}

/// The instance of an input. Neither its bytes nor its records are kept.
pub fn read_instance(alloc: Global, bytes: Vec<u8>) -> Result<InstanceInput, NoMemory>
    requires { length bytes.items ≤ INSTANCE_LIMIT }
    ensures { IfOk result (IsInstanceInput bytes.items) }
{
    let lines = records(alloc, &bytes)?;
    drop(bytes);
    match instance(alloc, &lines, Tail::Alone) {
        Ok(read) => Ok(InstanceInput::Read {
            instance: read.instance,
        }),
        Err(InputFault::Bad { ordinal, code }) => Ok(InstanceInput::Fault { ordinal, code }),
        Err(InputFault::NoMemory) => Err(AllocError),
    }
}

/// The instance at a scale within its limits, or a fault of the input as a whole, with ordinal 0 and
/// code 12, where the scale doesn't fit.
pub fn at_scale(instance: Instance, scale: u32) -> InstanceInput
    requires { (1 ≤ scale) × (scale ≤ GREATEST_SCALE) }
    ensures { IsAtScale scale instance result }
{
    if instance.fits(scale) {
        InstanceInput::Read {
            instance: instance.with_scale(scale),
        }
    } else {
        InstanceInput::Fault {
            ordinal: 0,
            code: 12,
        }
    }
}

// The instance where it has a shipment, or a fault of the input as a whole where it has none.
fn with_shipment(instance: Instance) -> InstanceInput
    ensures { IsWithShipment instance result }
{
    if instance.shipments().is_empty() {
        InstanceInput::Fault {
            ordinal: 0,
            code: 38,
        }
    } else {
        InstanceInput::Read { instance }
    }
}

/// The instance of an input that has a shipment. Where the records have no fault and there is no
/// shipment, the fault has ordinal 0 and code 38.
pub fn read_quoted(alloc: Global, bytes: Vec<u8>) -> Result<InstanceInput, NoMemory>
    requires { length bytes.items ≤ INSTANCE_LIMIT }
    ensures { IfOk result (IsQuotedInput bytes.items) }
{
    match read_instance(alloc, bytes)? {
        InstanceInput::Read { instance } => Ok(with_shipment(instance)),
        fault => Ok(fault),
    }
}

/// The instance of an input at a scale within its limits. Where the records have no fault and the
/// scale doesn't fit the instance, the fault has ordinal 0 and code 12.
pub fn read_scaled(alloc: Global, bytes: Vec<u8>, scale: u32) -> Result<InstanceInput, NoMemory>
    requires length { length bytes.items ≤ INSTANCE_LIMIT }
    requires scale { (1 ≤ scale) × (scale ≤ GREATEST_SCALE) }
    ensures { IfOk result (IsScaledInput scale bytes.items) }
{
    match read_instance(alloc, bytes)? {
        InstanceInput::Read { instance } => Ok(at_scale(instance, scale)),
        fault => Ok(fault),
    }
}
