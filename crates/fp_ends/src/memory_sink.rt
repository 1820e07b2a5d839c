//! A sink in memory, with limited room and with faults at chosen calls.

ghost use Rattle.std.specs.Result.{IsOk};
ghost use Rattle.std.specs.Prelude.{◌≡◌, ◌+◌, ◌^◌, ◌<◌, ◌≤◌, [], length, vec_capacity, Some, IfOk};
ghost use Rattle.std.specs.Io.{WritesAtMost};
ghost use Rattle.std.specs.Io.KnownBytes.{WriteAppends};
ghost use Rattle.fp_ends.specs.Causes.{HasCause};

use crate::{Failed, NoMemory, Sink};
use std::alloc::Global;

/// Keeps the bytes that it takes, up to its room, and tells them. Its calls are numbered from 1.
/// Exactly those calls fail whose numbers were chosen, or that bring bytes where no room is left.
#[derive(Drop)]
pub struct MemSink {
    bytes: Vec<u8>,
    room: usize,
    step: usize,
    fails: Vec<u64>,
    calls: u64,
    faults: u64,
    ghost within: { length bytes.items ≤ room },
    ghost reserved: { room ≤ vec_capacity bytes },
    ghost moves: { 1 ≤ step },
    ghost in_range: { faults < 2 ^ 64 },
}

impl MemSink {
    ghost use Rattle.fp_ends.specs.Memory.{sink_state};

    /// An empty sink with room for `room` bytes that takes at most `step` of them at a call, and
    /// whose calls with the numbers in `fails` fail. The memory for the room is taken here.
    ///
    /// # Errors
    /// `NoMemory` only where no memory is found for the room.
    pub fn new(
        alloc: Global,
        room: usize,
        step: usize,
        fails: Vec<u64>,
    ) -> Result<MemSink, NoMemory>
        requires { 1 ≤ step }
        ensures { IfOk result (λ s. sink_state s ≡ record { bytes = []; room = room; step = step; fails = fails.items; calls = 0; faults = 0 }) }
    {
        Ok(MemSink {
            bytes: Vec::with_capacity(alloc, room)?,
            room,
            step,
            fails,
            calls: 0,
            faults: 0,
        })
    }

    /// The bytes taken so far.
    pub fn bytes(&self) -> &[u8]
        ensures { result.now ≡ (sink_state self.now).bytes }
    {
        &self.bytes
    }
}

impl Sink for MemSink {
    ghost taken = { λ s. Some s.bytes.items };

    ghost faults = { λ s. s.faults };

    ghost sure_room = { λ s. room_left (sink_state s) };

    ghost counted = { λ s. s.in_range };

    ghost use Rattle.fp_ends.specs.Memory.{WritesMemory, room_left, sink_state};

    fn write(&mut self, piece: &[u8]) -> Result<usize, Failed>
        ensures bound { WritesAtMost result piece.now }
        ensures bytes { WriteAppends (Some (sink_state self.old).bytes) (Some (sink_state self.new).bytes) result piece.now }
        ensures moves { IfOk result (λ n. n ≡ 0 → piece.now ≡ []) }
        ensures cause { HasCause (sink_state self.old).faults (sink_state self.new).faults result }
        ensures sure { 1 ≤ length piece.now → length piece.now ≤ room_left (sink_state self.old) → IsOk result }
        ensures room { IfOk result (λ n. room_left (sink_state self.old) ≤ room_left (sink_state self.new) + n) }
        // Which calls fail, and how many bytes the others take.
        ensures exact { WritesMemory (sink_state self.old) (sink_state self.new) piece.now result }
    {
        self.calls = self.calls.saturating_add(1);
        let free = self.room - self.bytes.len();
        if self.fails.contains(&self.calls) {
            self.faults = self.faults.saturating_add(1);
            return Err(Failed);
        }
        if free == 0 && !piece.is_empty() {
            self.faults = self.faults.saturating_add(1);
            return Err(Failed);
        }
        let count = self.step.min(piece.len().min(free));
        self.bytes.extend_from_slice(&piece[..count]).unwrap();
        Ok(count)
    }
}
