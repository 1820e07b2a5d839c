//! A source and a sink that never fail.

ghost use Rattle.std.specs.Result.{IsOk};
ghost use Rattle.std.specs.Prelude.{◌≡◌, ◌+◌, ◌^◌, ◌≤◌, [], length, drop, min, true, None, Some, Ok, IfOk};
ghost use Rattle.std.specs.Io.{ReadsAtMost, WritesAtMost};
ghost use Rattle.std.specs.Io.KnownBytes.{ReadConsumes, WriteAppends};
ghost use Rattle.std.proofs.Common.{lit<};
ghost use Rattle.fp_ends.specs.Causes.{HasCause};

use crate::copying::copy_front;
use crate::{Failed, Sink, Source};

/// Gives bytes that lie in memory, tells those that are left, and never fails.
#[derive(Drop)]
pub struct SureSource {
    bytes: Vec<u8>,
    at: usize,
    ghost within: { at ≤ length bytes.items },
}

impl SureSource {
    ghost use Rattle.fp_ends.specs.Memory.{bytes_left};

    /// A source of `bytes`.
    pub fn new(bytes: Vec<u8>) -> SureSource
        ensures { bytes_left result ≡ bytes.items }
    {
        SureSource { bytes, at: 0 }
    }
}

impl Source for SureSource {
    ghost left = { λ s. Some (drop s.at s.bytes.items) };

    ghost faults = { λ _. 0 };

    ghost is_sure = { λ _. true };

    ghost counted = { λ _. lit< tt };

    ghost use Rattle.fp_ends.specs.Memory.{bytes_left};

    fn read(&mut self, into: &mut [u8]) -> Result<usize, Failed>
        ensures bound { ReadsAtMost result into.new }
        ensures bytes { ReadConsumes (Some (bytes_left self.old)) (Some (bytes_left self.new)) result into.new }
        ensures cause { HasCause 0 0 result }
        ensures sure { true ≡ true → IsOk result }
        ensures stays { true ≡ true }
        ensures exact { result ≡ Ok (min (length into.old) (length (bytes_left self.old))) }
    {
        let count = copy_front(self.bytes.split_at(self.at).1, into, usize::MAX);
        self.at += count;
        Ok(count)
    }
}

/// Takes each piece whole, keeps none of it, tells nothing, and never fails.
#[derive(Drop)]
pub struct SureSink {}

impl SureSink {
    /// A sink that has taken nothing.
    pub fn new() -> SureSink
        ensures { ⟦<SureSink as Sink>⟧.faults result ≡ 0 }
    {
        SureSink {}
    }
}

impl Sink for SureSink {
    ghost taken = { λ _. None };

    ghost faults = { λ _. 0 };

    ghost sure_room = { λ _. 2 ^ 64 };

    ghost counted = { λ _. lit< tt };

    fn write(&mut self, piece: &[u8]) -> Result<usize, Failed>
        ensures bound { WritesAtMost result piece.now }
        ensures bytes { WriteAppends None None result piece.now }
        ensures moves { IfOk result (λ n. n ≡ 0 → piece.now ≡ []) }
        ensures cause { HasCause 0 0 result }
        ensures sure { 1 ≤ length piece.now → length piece.now ≤ 2 ^ 64 → IsOk result }
        ensures room { IfOk result (λ n. 2 ^ 64 ≤ 2 ^ 64 + n) }
        ensures exact { result ≡ Ok (length piece.now) }
    {
        Ok(piece.len())
    }
}
