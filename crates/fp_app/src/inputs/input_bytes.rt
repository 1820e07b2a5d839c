//! The bytes of an input.
ghost use Rattle.std.specs.Prelude.{◌≡◌, ◌+◌, ◌≤◌, IfOk, IsErrOf, None, Ok, true};
ghost use Rattle.fp_ends.specs.Causes.{Rose};
ghost use Rattle.fp_app.specs.Runs.{Takes, TakesOneMore, TakesWithin};

use crate::failures::Failure;
use fp_ends::{ReadEnd, Source, read_all};
use std::alloc::Global;

/// All bytes of the source, or `None` where there are more than the limit. Then one more than the
/// limit was taken, and before a failed read no more than the limit; never more than one past it.
pub fn take_input<S: Source>(
    alloc: Global,
    source: &mut S,
    limit: usize,
) -> Result<Option<Vec<u8>>, Failure>
    ensures taken { IfOk result (Takes limit (S.left source.old) (S.left source.new)) }
    ensures later { S.faults source.old ≤ S.faults source.new }
    ensures within { TakesWithin (limit + 1) (S.left source.old) (S.left source.new) }
    ensures fault { IsErrOf result Failure.ReadFault
        → Rose (S.faults source.old) (S.faults source.new) }
    ensures same { (IsErrOf result Failure.ReadFault → ⊥) → S.faults source.new ≡ S.faults source.old }
    ensures sure { S.is_sure source.old ≡ true → IsErrOf result Failure.ReadFault → ⊥ }
    ensures fault_within { IsErrOf result Failure.ReadFault
        → TakesWithin limit (S.left source.old) (S.left source.new) }
    ensures long_within { result ≡ Ok None
        → TakesOneMore limit (S.left source.old) (S.left source.new) }
{
    match read_all(alloc, source, limit) {
        Ok(bytes) => Ok(Some(bytes)),
        Err(ReadEnd::TooLong) => Ok(None),
        Err(ReadEnd::ReadFault) => Err(Failure::ReadFault),
        Err(ReadEnd::NoMemory) => Err(Failure::NoMemory),
    }
}
