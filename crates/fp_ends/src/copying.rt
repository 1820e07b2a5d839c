//! Copies between slices.

ghost use Rattle.std.specs.Prelude.{◌≡◌, length, min, take};

/// Copies the front of `from` to the front of `into`, at most `most` bytes, and gives their number.
pub(crate) fn copy_front(from: &[u8], into: &mut [u8], most: usize) -> usize
    ensures count { result ≡ min most (min (length into.old) (length from.now)) }
    ensures front { take result into.new ≡ take result from.now }
    ensures len { length into.new ≡ length into.old }
{
    let count = most.min(into.len().min(from.len()));
    into[..count].copy_from_slice(&from[..count]);
    count
}
