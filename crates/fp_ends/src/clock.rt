//! What tells how much time has passed.

ghost use Rattle.std.specs.Prelude.{ℕ, ◌≡◌, ◌≤◌, IfOk};
ghost use Rattle.fp_ends.specs.Causes.{HasCause};

use crate::Failed;

/// Tells how many milliseconds have passed since it was started, and counts the looks that failed.
pub trait Clock {
    /// The milliseconds that it showed last. They never fall.
    ghost moment: { Self → ℕ };

    /// How many looks have failed. The count never falls, and it stands still at `2^64 - 1`.
    ghost faults: { Self → ℕ };

    /// Looks at it: the milliseconds that have passed.
    ///
    /// # Errors
    /// `Failed` where it couldn't be read: the count rose, and stays as it was otherwise.
    fn look(&mut self) -> Result<u64, Failed>
        ensures later { moment self.old ≤ moment self.new }
        ensures shown { IfOk result (λ now. now ≡ moment self.new) }
        ensures cause { HasCause (faults self.old) (faults self.new) result };

    /// What a look would show, told without one, where it wouldn't fail: a hint for long work, of which
    /// nothing is promised.
    fn glance(&self) -> Option<u64>;
}
