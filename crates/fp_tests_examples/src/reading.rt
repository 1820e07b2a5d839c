//! Reads an instance from its text.
ghost use Rattle.std.specs.Prelude.{◌≡◌, ◌<◌, ℕ, length, IfOk, Ok, Err};
ghost use Rattle.fp_records.specs.Fields.{records_of};
ghost use Rattle.fp_reader.specs.Input.{input_of};

use fp_model::Instance;
use fp_reader::{InputFault, Tail, instance};
use fp_records::records;
use std::alloc::Global;

/// The instance of a text of fewer than 2,000 bytes.
///
/// # Errors
/// `Bad` exactly where the text's records have a fault, with the first one, and `NoMemory` only where
/// no memory is found.
pub fn instance_of(alloc: Global, text: &str) -> Result<Instance, InputFault>
    requires { length text.now < 2000 }
    ensures read { IfOk result (λ i. input_of Tail.Alone (records_of text.now) ≡ Ok i) }
    ensures bad { (ordinal code : ℕ) → result ≡ Err (InputFault.Bad ordinal code) → input_of Tail.Alone (records_of text.now) ≡ Err (record { ordinal = ordinal; code = code }) }
{
    let Ok(lines) = records(alloc, text.as_bytes()) else {
        return Err(InputFault::NoMemory);
    };
    let read = instance(alloc, &lines, Tail::Alone)?;
    Ok(read.instance)
}
