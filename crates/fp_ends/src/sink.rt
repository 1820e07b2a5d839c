//! What takes bytes.

ghost use Rattle.std.specs.Result.{IsOk};
ghost use Rattle.std.specs.Prelude.{◌≡◌, ℕ, ◌+◌, ◌^◌, ◌<◌, ◌≤◌, List, [], length, IfOk};
ghost use Rattle.std.specs.Io.{WritesAtMost};
ghost use Rattle.std.specs.Io.KnownBytes.{WriteAppends};
ghost use Rattle.std.specs.declared.option.Option.{Option};
ghost use Rattle.fp_ends.specs.Causes.{HasCause};

use crate::Failed;

/// Takes the bytes of an output in order, some at each call, and counts the calls that failed.
pub trait Sink {
    /// The bytes that were taken, where the sink tells them.
    ghost taken: { Self → Option (List ℕ) };

    /// How many writes have failed. The count never falls, and it stands still at `2^64 - 1`.
    ghost faults: { Self → ℕ };

    /// How many bytes it will surely take without a failed write, in whatever pieces.
    ghost sure_room: { Self → ℕ };

    /// Takes the first `n` bytes of `piece` at `Ok(n)`, one or more where there are any.
    ///
    /// # Errors
    /// `Failed` where the write failed or could take nothing: nothing was taken, and the count
    /// rose. It stays as it was otherwise.
    fn write(&mut self, piece: &[u8]) -> Result<usize, Failed>
        ensures bound { WritesAtMost result piece.now }
        ensures bytes { WriteAppends (taken self.old) (taken self.new) result piece.now }
        ensures moves { IfOk result (λ n. n ≡ 0 → piece.now ≡ []) }
        ensures cause { HasCause (faults self.old) (faults self.new) result }
        ensures sure { 1 ≤ length piece.now → length piece.now ≤ sure_room self.old → IsOk result }
        ensures room { IfOk result (λ n. sure_room self.old ≤ sure_room self.new + n) };

    ghost counted: { (sink : Self) → faults sink < 2 ^ 64 };
}
