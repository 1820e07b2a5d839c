//! Targets above the best value, towards which the prices of a subgradient ascent move (B. T. Polyak,
//! "Minimization of unsmooth functionals", USSR Computational Mathematics and Mathematical Physics 9,
//! 1969), and which come nearer where too many turns had little gain.

/// The best value of an ascent, and how far above it the target lies.
#[derive(Clone, Copy)]
pub struct Target {
    /// The best value so far.
    pub best: u64,
    // What is added to each value that the target lies above.
    base: u64,
    // How far above the best value the target lies, in parts of 2^20 of all that it lies above, and
    // where it's near enough.
    level: u32,
    least_level: u32,
    // After more turns than this with little gain the target comes nearer, and how many had it.
    patience: u32,
    idle: u32,
}

/// How an ascent goes on after a turn.
#[derive(Clone, Copy, PartialEq, Eq)]
pub enum Way {
    /// As before.
    On,
    /// With a nearer target.
    Nearer,
    /// Not at all: the target is near enough.
    End,
}

// A part of a value, in parts of 2^`shift`.
fn part_of(value: u64, level: u32, shift: u32) -> u64 {
    let part = u128::from(value).saturating_mul(u128::from(level)) >> shift.min(127);
    part.min(u128::from(u64::MAX)) as u64
}

impl Target {
    /// A target above a value, where `base` is added to each value. The levels are in parts of 2^20.
    pub fn of(value: u64, base: u64, level: u32, least_level: u32, patience: u32) -> Target {
        Target {
            best: value,
            base,
            level,
            least_level,
            patience,
            idle: 0,
        }
    }

    // A part of what the target lies above, in parts of 2^`shift`.
    fn part(&self, shift: u32) -> u64 {
        part_of(self.best.saturating_add(self.base), self.level, shift)
    }

    /// How far a value is below the target, at least 1.
    pub fn gap(&self, value: u64) -> u64 {
        let target = self.best.saturating_add(self.part(20).max(1));
        target.saturating_sub(value).max(1)
    }

    /// Notes the value of a turn, and tells whether it's the best.
    pub fn note(&mut self, value: u64) -> bool {
        let much = self.best.saturating_add(self.part(23));
        self.idle = if value > much {
            0
        } else {
            self.idle.saturating_add(1)
        };
        if value > self.best {
            self.best = value;
            return true;
        }
        false
    }

    /// Lets the target come half as near where too many turns had little gain.
    pub fn come_nearer(&mut self) -> Way {
        if self.idle <= self.patience {
            return Way::On;
        }
        self.idle = 0;
        self.level /= 2;
        if self.level < self.least_level {
            Way::End
        } else {
            Way::Nearer
        }
    }
}

/// How far a step over a gap goes, in parts of 2^20 of a direction of this squared length, whose
/// whole uses are 2^12.
pub fn rate(gap: u64, norm: u64) -> u64 {
    let rate = (u128::from(gap) << 32) / u128::from(norm.max(1));
    rate.min(u128::from(u64::MAX)) as u64
}
