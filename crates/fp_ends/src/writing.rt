//! Writes all of a text to a sink.

ghost use Rattle.std.specs.Result.{IsOk};
ghost use Rattle.std.specs.Prelude.{◌≤◌, length, OnOk, OnErr};
ghost use Rattle.std.specs.Io.KnownBytes.{Appends};
ghost use Rattle.fp_ends.specs.Causes.{HasCause};
ghost use Rattle.fp_ends.specs.Moves.{AppendsFront};

use crate::{Failed, Sink};

/// A write failed before all bytes were taken.
#[derive(Clone, Copy, Debug, PartialEq, Eq)]
pub struct WriteFault;

/// Writes all of the bytes. It takes no memory of its own, and each turn but a failed one writes
/// at least one byte.
///
/// # Errors
/// `WriteFault` only where the sink's count of faults rose in this call, and never where the sink
/// surely has room for the bytes; the count stays as it was otherwise. A front of the bytes was
/// taken then.
pub fn write_all<K: Sink>(sink: &mut K, bytes: &[u8]) -> Result<(), WriteFault>
    ensures ok { OnOk result (Appends (K.taken sink.old) (K.taken sink.new) bytes.now) }
    ensures err { OnErr result (AppendsFront (K.taken sink.old) (K.taken sink.new) bytes.now) }
    ensures cause { HasCause (K.faults sink.old) (K.faults sink.new) result }
    ensures sure { length bytes.now ≤ K.sure_room sink.old → IsOk result }
{
    let mut at = 0;
    while at < bytes.len() {
        match sink.write(bytes.split_at(at).1) {
            Ok(count) => at += count,
            Err(Failed) => return Err(WriteFault),
        }
    }
    Ok(())
}
