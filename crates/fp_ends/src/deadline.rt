//! What tells long work that its time is over.

ghost use Rattle.std.specs.Prelude.{◌≡◌, Bool, Some, true, false};
ghost use Rattle.fp_ends.specs.Deadlines.{IsLater, has_shown};

use crate::Clock;

/// Looks at a clock, where there are seconds: whether it shows that they have passed, or fails.
pub fn have_passed<C: Clock>(clock: &mut C, seconds: Option<u32>) -> bool
    ensures shown { result ≡ true
        → has_shown seconds (C.moment clock.new) (C.faults clock.old) (C.faults clock.new) ≡ true }
    ensures later { IsLater (C.moment clock.old) (C.moment clock.new) (C.faults clock.old) (C.faults clock.new) }
{
    let Some(seconds) = seconds else {
        return false;
    };
    match clock.look() {
        Ok(moment) => u64::from(seconds) * 1000 <= moment,
        Err(_) => true,
    }
}

/// Tells whether the time for some work seems to be over. Long work asks it over and over, and ends
/// with what it has once it is. Whoever says that the time was over looks at the clock itself.
pub trait Deadline {
    /// Whether the time has an end.
    ghost ends: { Self → Bool };

    /// Whether the time seems to be over: never where it has no end.
    fn has_passed(&self) -> bool
        ensures { result ≡ true → ends self.now ≡ true };
}

/// No deadline: the time is never over.
#[derive(Drop)]
pub struct NoDeadline {}

impl NoDeadline {
    /// No deadline.
    pub fn new() -> NoDeadline {
        NoDeadline {}
    }
}

impl Deadline for NoDeadline {
    ghost ends = { λ _. false };

    fn has_passed(&self) -> bool {
        false
    }
}

/// A deadline by a clock, glanced at: the time seems to be over once a look would show so many seconds,
/// or fail. With no seconds it is never over, and the clock isn't glanced at.
#[derive(Drop)]
pub struct ClockDeadline<'a, C> {
    clock: &'a C,
    seconds: Option<u32>,
}

impl<'a, C: Clock> ClockDeadline<'a, C> {
    ghost use Rattle.fp_ends.specs.Deadlines.{limit_of};

    /// A deadline after so many seconds of a clock, or none.
    pub fn new(clock: &'a C, seconds: Option<u32>) -> ClockDeadline<'a, C>
        ensures { limit_of result ≡ seconds }
    {
        ClockDeadline { clock, seconds }
    }
}

impl<C: Clock> Deadline for ClockDeadline<'_, C> {
    ghost use Rattle.fp_ends.specs.Deadlines.{is_limit, limit_of};

    ghost ends = { λ d. is_limit (limit_of d) };

    fn has_passed(&self) -> bool {
        let Some(seconds) = self.seconds else {
            return false;
        };
        match self.clock.glance() {
            Some(moment) => u64::from(seconds).saturating_mul(1000) <= moment,
            None => true,
        }
    }
}
