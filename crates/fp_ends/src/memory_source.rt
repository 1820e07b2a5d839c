//! A source in memory, with faults at chosen calls.

ghost use Rattle.std.specs.Result.{IsOk};
ghost use Rattle.std.specs.Prelude.{◌≡◌, ◌^◌, ◌<◌, ◌≤◌, length, drop, true, Some};
ghost use Rattle.std.specs.Io.{ReadsAtMost};
ghost use Rattle.std.specs.Io.KnownBytes.{ReadConsumes};
ghost use Rattle.fp_ends.specs.Causes.{HasCause};

use crate::copying::copy_front;
use crate::{Failed, Source};

/// Gives bytes that lie in memory, and tells those that are left. Its calls are numbered from 1,
/// and exactly those whose numbers were chosen fail.
#[derive(Drop)]
pub struct MemSource {
    bytes: Vec<u8>,
    at: usize,
    step: usize,
    fails: Vec<u64>,
    calls: u64,
    faults: u64,
    ghost within: { at ≤ length bytes.items },
    ghost moves: { 1 ≤ step },
    ghost in_range: { faults < 2 ^ 64 },
}

impl MemSource {
    ghost use Rattle.fp_ends.specs.Memory.{source_state};

    /// A source of `bytes` that gives at most `step` of them at a call, and whose calls with the
    /// numbers in `fails` fail.
    pub fn new(bytes: Vec<u8>, step: usize, fails: Vec<u64>) -> MemSource
        requires { 1 ≤ step }
        ensures { source_state result ≡ record { left = bytes.items; step = step; fails = fails.items; calls = 0; faults = 0 } }
    {
        MemSource {
            bytes,
            at: 0,
            step,
            fails,
            calls: 0,
            faults: 0,
        }
    }
}

impl Source for MemSource {
    ghost left = { λ s. Some (drop s.at s.bytes.items) };

    ghost faults = { λ s. s.faults };

    ghost is_sure = { λ s. fails_never s.fails.items };

    ghost counted = { λ s. s.in_range };

    ghost use Rattle.fp_ends.specs.Memory.{ReadsMemory, fails_never, source_state};

    fn read(&mut self, into: &mut [u8]) -> Result<usize, Failed>
        ensures bound { ReadsAtMost result into.new }
        ensures bytes { ReadConsumes (Some (source_state self.old).left) (Some (source_state self.new).left) result into.new }
        ensures cause { HasCause (source_state self.old).faults (source_state self.new).faults result }
        ensures sure { fails_never (source_state self.old).fails ≡ true → IsOk result }
        ensures stays { fails_never (source_state self.new).fails ≡ fails_never (source_state self.old).fails }
        // Which calls fail, and how many bytes the others give.
        ensures exact { ReadsMemory (source_state self.old) (source_state self.new) (length into.old) result }
    {
        self.calls = self.calls.saturating_add(1);
        if self.fails.contains(&self.calls) {
            self.faults = self.faults.saturating_add(1);
            return Err(Failed);
        }
        let count = copy_front(self.bytes.split_at(self.at).1, into, self.step);
        self.at += count;
        Ok(count)
    }
}
