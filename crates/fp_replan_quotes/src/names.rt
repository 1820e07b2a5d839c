//! The number of a shipment by its name.
ghost use Rattle.std.specs.Prelude.{◌≡◌, ◌<◌, length, IfOk, IfSome};
ghost use Rattle.fp_model.specs.Numbered.{shipment_at};
ghost use Rattle.fp_records_fields.specs.Indexes.{entries_of};
ghost use Rattle.fp_records_fields.specs.NamedParts.{shipment_named};

use crate::NoMemory;
use fp_model::Instance;
use fp_records_fields::{Index, Lookup};
use std::alloc::Global;

// The number of the shipment with a name, if there is one, by the index of an instance.
fn number_among(instance: &Instance, index: &Index<'_>, name: &[u8]) -> Option<u32>
    requires { index.now ≡ entries_of instance.now }
    ensures { result ≡ shipment_named instance.now name.now }
{
    Lookup::new(instance, index).shipment(name)
}

/// The number of the shipment with a name, if there is one. Any bytes may be asked for. `NoMemory` only
/// where no memory is found.
pub fn number_named(
    alloc: Global,
    instance: &Instance,
    name: &[u8],
) -> Result<Option<u32>, NoMemory>
    ensures number { IfOk result (λ number. number ≡ shipment_named instance.now name.now) }
    ensures exists { IfOk result (λ number. IfSome number (λ k. k < length instance.now.shipments)) }
    ensures name { IfOk result (λ number. IfSome number (λ k. (shipment_at instance.now k).name ≡ name.now)) }
{
    let index = Index::of(alloc, instance)?;
    Ok(number_among(instance, &index, name))
}
