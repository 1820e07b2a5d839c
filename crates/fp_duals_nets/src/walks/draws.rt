//! Numbers that are drawn, always the same ones: a linear congruential generator.

/// The state of the generator.
#[derive(Clone, Copy)]
pub struct Draws {
    state: u64,
}

impl Draws {
    /// The generator before its first number.
    pub fn new() -> Draws {
        Draws { state: 1 }
    }

    /// A number below a count.
    pub fn below(&mut self, count: u64) -> u64 {
        self.state = self
            .state
            .wrapping_mul(6_364_136_223_846_793_005)
            .wrapping_add(1_442_695_040_888_963_407);
        (self.state >> 33) % count.max(1)
    }
}
