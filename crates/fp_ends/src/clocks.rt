//! Clocks: one that stands, one over a list, and one over the system's.

ghost use Rattle.std.specs.Prelude.{◌<◌, ◌^◌};

use crate::{Clock, Failed};
use std::cell::Cell;
use std::time::{Clock as SystemClock, Instant};

/// A clock that stands: it shows no time, and never fails.
#[derive(Drop)]
pub struct StillClock {}

impl StillClock {
    /// A clock that stands.
    pub fn new() -> StillClock {
        StillClock {}
    }
}

impl Clock for StillClock {
    ghost moment = { λ _. 0 };

    ghost faults = { λ _. 0 };

    fn look(&mut self) -> Result<u64, Failed> {
        Ok(0)
    }

    fn glance(&self) -> Option<u64> {
        Some(0)
    }
}

/// A clock in memory. Its looks and glances show what is listed for them, one after the other, or what was
/// shown before where that is more, and fail once nothing is listed any more.
#[derive(Drop)]
pub struct MemClock {
    shown: Vec<u64>,
    looks: Cell<usize>,
    moment: u64,
    faults: u64,
    ghost in_range: { faults < 2 ^ 64 },
}

impl MemClock {
    /// A clock whose looks and glances show these milliseconds.
    pub fn new(shown: Vec<u64>) -> MemClock {
        MemClock {
            shown,
            looks: Cell::new(0),
            moment: 0,
            faults: 0,
        }
    }
}

impl Clock for MemClock {
    ghost moment = { λ c. c.moment };

    ghost faults = { λ c. c.faults };

    fn look(&mut self) -> Result<u64, Failed> {
        let Some(moment) = self.glance() else {
            self.faults = self.faults.saturating_add(1);
            return Err(Failed);
        };
        self.moment = self.moment.max(moment);
        Ok(self.moment)
    }

    fn glance(&self) -> Option<u64> {
        let look = self.looks.get();
        self.looks.set(look.saturating_add(1));
        self.shown.get(look).copied()
    }
}

/// The milliseconds since it was made, by the system's clock that doesn't go back. A look fails where the
/// system doesn't tell them.
#[derive(Drop)]
pub struct StdClock<R> {
    clock: R,
    // When it was made, where the system told that.
    start: Option<Instant>,
    moment: u64,
    faults: u64,
    ghost in_range: { faults < 2 ^ 64 },
}

impl<R: SystemClock> StdClock<R> {
    /// A clock that starts now.
    pub fn new(clock: R) -> StdClock<R> {
        let start = Instant::now(&clock).ok();
        StdClock {
            clock,
            start,
            moment: 0,
            faults: 0,
        }
    }
}

impl<R: SystemClock> Clock for StdClock<R> {
    ghost moment = { λ c. c.moment };

    ghost faults = { λ c. c.faults };

    fn look(&mut self) -> Result<u64, Failed> {
        let Some(moment) = self.glance() else {
            self.faults = self.faults.saturating_add(1);
            return Err(Failed);
        };
        self.moment = self.moment.max(moment);
        Ok(self.moment)
    }

    fn glance(&self) -> Option<u64> {
        let start = self.start?;
        let passed = start.elapsed(&self.clock).ok()?;
        u64::try_from(passed.as_millis()).ok()
    }
}
