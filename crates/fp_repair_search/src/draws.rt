//! Numbers that look random and are the same at every run.

// A linear congruential generator (D. E. Knuth, "The Art of Computer Programming" 2, 3.3.4).
#[derive(Drop)]
pub(crate) struct Draws {
    state: u64,
}

impl Draws {
    // The numbers that a seed gives.
    pub(crate) fn new(seed: u64) -> Draws {
        Draws {
            state: seed.wrapping_mul(2).wrapping_add(1),
        }
    }

    // A number below another one, or 0.
    pub(crate) fn below(&mut self, end: u32) -> u32 {
        self.bits().checked_rem(end).unwrap_or(0)
    }

    // A place in a list of so many, or 0.
    pub(crate) fn place(&mut self, length: usize) -> usize {
        self.below(u32::try_from(length).unwrap_or(u32::MAX)) as usize
    }

    // A number of 31 bits.
    pub(crate) fn bits(&mut self) -> u32 {
        self.state = self
            .state
            .wrapping_mul(6_364_136_223_846_793_005)
            .wrapping_add(1_442_695_040_888_963_407);
        // The low bits of such a generator have short periods.
        u32::try_from(self.state >> 33).unwrap_or(0)
    }
}
