//! Groups: legs by one arc that leave together.

use crate::usable_arcs::trucks_for;

/// Legs by one arc that leave together. A group of no legs stands free to be used again.
#[derive(Clone, Copy)]
pub struct Group {
    /// The number of the arc.
    pub arc: u32,
    /// How many legs there are.
    pub count: u32,
    /// The sizes of their shipments together.
    load: u64,
    /// What their trucks can hold beside the load.
    room: u64,
    /// The least time at which they can leave, in the input's unit of time.
    pub early: u32,
    /// The greatest time at which they can leave.
    pub late: u32,
}

/// A leg of a shipment, with its window, from `lo` to `hi`, and its arc's step, in the input's unit
/// of time.
#[derive(Clone, Copy)]
pub struct GroupedLeg {
    /// The number of the arc.
    pub arc: u32,
    /// The number of the group in which it leaves.
    pub group: usize,
    pub(crate) lo: u32,
    pub(crate) hi: u32,
    pub(crate) step: u32,
}

impl Group {
    // No legs by an arc, at any time.
    pub(crate) fn free(arc: u32) -> Group {
        Group {
            arc,
            count: 0,
            load: 0,
            room: 0,
            early: 0,
            late: u32::MAX,
        }
    }

    /// How many trucks more it takes to carry a size too, where a truck holds `capacity`.
    pub fn more_trucks(&self, size: u64, capacity: u64) -> u64 {
        if size <= self.room {
            return 0;
        }
        trucks_for(size.saturating_sub(self.room), capacity)
    }

    // Takes a leg of a size in. Answers how many trucks more it takes.
    pub(crate) fn join(&mut self, size: u64, capacity: u64) -> u64 {
        let more = self.more_trucks(size, capacity);
        let room = self.room.saturating_add(more.saturating_mul(capacity));
        self.room = room.saturating_sub(size);
        self.load = self.load.saturating_add(size);
        self.count = self.count.saturating_add(1);
        more
    }

    // Lets a leg of a size go. Answers how many trucks fewer it takes.
    pub(crate) fn leave(&mut self, size: u64, capacity: u64) -> u64 {
        let before = trucks_for(self.load, capacity);
        self.load = self.load.saturating_sub(size);
        self.count = self.count.saturating_sub(1);
        let after = trucks_for(self.load, capacity);
        self.room = after.saturating_mul(capacity).saturating_sub(self.load);
        before.saturating_sub(after)
    }

    // Keeps to a window.
    pub(crate) fn narrow(&mut self, lo: u32, hi: u32) {
        self.early = self.early.max(lo);
        self.late = self.late.min(hi);
    }
}
