//! Numbers drawn from a seed.
ghost use Rattle.std.specs.Prelude.{◌≡◌, ◌≤◌, ◌<◌};
ghost use Rattle.fp_reader.specs.Draws.{drawn, next_number};

use std::marker::Model;

const MULTIPLIER: u64 = 1_103_515_245;

const INCREMENT: u64 = 12_345;

const MODULUS: u64 = 1 << 31;

/// Numbers drawn one after the other, the same for the same seed: those of the example of `rand` in
/// the C standard (ISO/IEC 9899:1990, 7.10.2).
///
/// Contracts see it as its present number, 0 to 2,147,483,647.
#[derive(Drop)]
pub struct Draws {
    number: u32,
}

impl Model for Draws {
    ghost use Rattle.std.specs.Prelude.{ℕ, ◌<◌, ◌^◌};

    ghost Value = { ℕ };

    ghost view = { λ d. d.number };

    ghost invariant = { λ d. d.number < 2 ^ 31 };
}

impl Draws {
    /// The draws that begin with a seed, 0 to 2,147,483,647. Takes no memory.
    pub fn new(seed: u32) -> Draws
        requires { seed ≤ 2147483647 }
        ensures { result ≡ seed }
    {
        Draws { number: seed }
    }

    /// Draws one of so many values, 0 to `count - 1`; `count` is at least 1. Takes no memory.
    pub fn draw(&mut self, count: u32) -> u32
        requires { 1 ≤ count }
        ensures drawn { result ≡ drawn self.old count }
        ensures below { result < count }
        ensures next { self.new ≡ next_number self.old }
    {
        let next = (MULTIPLIER * u64::from(self.number) + INCREMENT) % MODULUS;
        self.number = next as u32;
        (self.number / 65_536) % count
    }
}
