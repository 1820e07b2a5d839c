//! Reads a source to its end.

ghost use Rattle.std.specs.Prelude.{◌≡◌, ◌≤◌, true};
ghost use Rattle.fp_ends.specs.Causes.{Rose};
ghost use Rattle.fp_ends.specs.Moves.{ReadsAll, ReadsPiece, IsWholeInput};

use crate::Source;
use std::alloc::Global;
use thiserror::Error;

/// Why a source was not read to its end.
#[derive(Clone, Copy, Debug, PartialEq, Eq, Error)]
pub enum ReadEnd {
    /// A read failed, and the source's count of faults rose.
    #[error("a read failed")]
    ReadFault,
    /// More bytes came than the limit.
    #[error("the input is too long")]
    TooLong,
    /// No memory was found for the bytes.
    #[error("out of memory")]
    NoMemory,
}

// The most bytes that one read asks for.
const PIECE: usize = 4096;

/// All bytes of the source up to its end, of which there may be at most `limit`. Each turn but the
/// last takes at least one byte, and the call takes at most `limit + 1`.
///
/// # Errors
/// `ReadFault` only where the source's count of faults rose in this call, and never over a source
/// that is sure; the count stays as it was otherwise. `TooLong` exactly where
/// more than `limit` bytes came before the end. `NoMemory` only where no memory is found. The source
/// may have given bytes before each of them.
pub fn read_all<S: Source>(alloc: Global, source: &mut S, limit: usize) -> Result<Vec<u8>, ReadEnd>
    // What came was taken from the front, and is all of the answer, too long, or cut off.
    ensures bytes { ReadsAll limit (S.left source.old) (S.left source.new) result }
    // The answer is all that there was, or more than the limit was there.
    ensures whole { IsWholeInput limit (S.left source.old) (S.left source.new) result }
    ensures later { S.faults source.old ≤ S.faults source.new }
    ensures fault { result ≡ Err ReadEnd.ReadFault → Rose (S.faults source.old) (S.faults source.new) }
    ensures same { (result ≡ Err ReadEnd.ReadFault → ⊥) → S.faults source.new ≡ S.faults source.old }
    ensures sure { S.is_sure source.old ≡ true → result ≡ Err ReadEnd.ReadFault → ⊥ }
{
    let mut bytes = Vec::new(alloc);
    while bytes.len() <= limit {
        let room = limit - bytes.len();
        if read_piece(source, &mut bytes, room)? == 0 {
            return Ok(bytes);
        }
    }
    Err(ReadEnd::TooLong)
}

// Reads once, at most `room` bytes and one more, and adds them to `bytes`. The one more shows
// whether the input goes past its limit.
fn read_piece<S: Source>(source: &mut S, bytes: &mut Vec<u8>, room: usize) -> Result<usize, ReadEnd>
    ensures bytes { ReadsPiece room (S.left source.old) (S.left source.new) bytes.old.items bytes.new.items result }
    ensures later { S.faults source.old ≤ S.faults source.new }
    ensures fault { result ≡ Err ReadEnd.ReadFault → Rose (S.faults source.old) (S.faults source.new) }
    ensures same { (result ≡ Err ReadEnd.ReadFault → ⊥) → S.faults source.new ≡ S.faults source.old }
    ensures sure { S.is_sure source.old ≡ true → result ≡ Err ReadEnd.ReadFault → ⊥ }
    ensures stays { S.is_sure source.new ≡ S.is_sure source.old }
{
    let mut piece = [0; PIECE];
    let want = room.min(PIECE - 1) + 1;
    let Ok(count) = source.read(&mut piece[..want]) else {
        return Err(ReadEnd::ReadFault);
    };
    if bytes.extend_from_slice(&piece[..count]).is_err() {
        return Err(ReadEnd::NoMemory);
    }
    Ok(count)
}
