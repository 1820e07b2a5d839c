//! What `direct` shows.
ghost use Rattle.std.specs.Prelude.{◌≤◌, length, IfOk};
ghost use Rattle.fp_app.specs.Inputs.{OfInstance};
ghost use Rattle.fp_app.specs.declared.limits.TheConstants.{INSTANCE_LIMIT};
ghost use Rattle.fp_app.specs.Runs.{ShowsDirect};
ghost use Rattle.fp_app.specs.Shown.{IsPrintable};

use crate::inputs::instances::{InstanceInput, read_instance};
use crate::{NoMemory, Shown};
use fp_flatnet::{Verdict, direct, feasible};
use fp_model::Instance;
use std::alloc::Global;

/// What `direct` shows for the bytes of an input.
pub fn direct_shown(alloc: Global, bytes: Vec<u8>) -> Result<Shown, NoMemory>
    requires { length bytes.items ≤ INSTANCE_LIMIT }
    ensures shown { IfOk result (λ shown. OfInstance bytes.items shown (λ p. ShowsDirect p shown)) }
    ensures printable { IfOk result IsPrintable }
{
    match read_instance(alloc, bytes)? {
        InstanceInput::Read { instance } => plan_directly(alloc, instance),
        InstanceInput::Fault { ordinal, code } => Ok(Shown::BadInput { ordinal, code }),
    }
}

// The direct plan of an instance, or the first shipment that can't be carried in time.
fn plan_directly(alloc: Global, instance: Instance) -> Result<Shown, NoMemory>
    ensures shown { IfOk result (ShowsDirect instance) }
    ensures printable { IfOk result IsPrintable }
{
    match feasible(alloc, &instance)? {
        Verdict::All => {
            let plan = direct(alloc, &instance)?;
            Ok(Shown::Direct { instance, plan })
        }
        Verdict::Blocked { shipment, distance } => Ok(Shown::Infeasible {
            instance,
            shipment,
            time: distance,
        }),
    }
}
