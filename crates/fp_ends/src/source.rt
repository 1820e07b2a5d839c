//! What gives bytes.

ghost use Rattle.std.specs.Result.{IsOk};
ghost use Rattle.std.specs.Prelude.{ℕ, ◌≡◌, ◌^◌, ◌<◌, Bool, true, List};
ghost use Rattle.std.specs.Io.{ReadsAtMost};
ghost use Rattle.std.specs.Io.KnownBytes.{ReadConsumes};
ghost use Rattle.std.specs.declared.option.Option.{Option};
ghost use Rattle.fp_ends.specs.Causes.{HasCause};

/// A call of a source or a sink failed. It moved no byte, and the count of faults rose.
#[derive(Clone, Copy, Debug, PartialEq, Eq)]
pub struct Failed;

/// Gives the bytes of an input in order, some at each call, and counts the calls that failed.
pub trait Source {
    /// The bytes that are left, where the source tells them.
    ghost left: { Self → Option (List ℕ) };

    /// How many reads have failed. The count never falls, and it stands still at `2^64 - 1`.
    ghost faults: { Self → ℕ };

    /// Whether no read will fail.
    ghost is_sure: { Self → Bool };

    /// Puts the next `n` bytes at the front of `into` at `Ok(n)`. `Ok(0)` where `into` has room
    /// is the end of the input.
    ///
    /// # Errors
    /// `Failed` where the read failed: nothing was taken, and the count rose. It stays as it was
    /// otherwise.
    fn read(&mut self, into: &mut [u8]) -> Result<usize, Failed>
        ensures bound { ReadsAtMost result into.new }
        ensures bytes { ReadConsumes (left self.old) (left self.new) result into.new }
        ensures cause { HasCause (faults self.old) (faults self.new) result }
        ensures sure { is_sure self.old ≡ true → IsOk result }
        ensures stays { is_sure self.new ≡ is_sure self.old };

    ghost counted: { (source : Self) → faults source < 2 ^ 64 };
}
