//! The times of groups, noted to go back to them.
ghost use Rattle.std.specs.Prelude.{◌≡◌, OnErr};

use crate::NoMemory;
use crate::groups::Group;
use crate::room::push_in_room;
use std::alloc::Global;
use std::marker::Model;

/// For each group its least and its greatest time.
#[derive(Drop)]
pub struct SavedTimes {
    times: Vec<(u32, u32)>,
}

impl Model for SavedTimes {
    ghost use Rattle.std.specs.Prelude.{ℕ, List};

    ghost Value = { List (ℕ × ℕ) };

    ghost view = { λ saved. saved.times.items };
}

impl SavedTimes {
    /// No times. It takes no memory.
    pub fn new(alloc: Global) -> SavedTimes {
        SavedTimes {
            times: Vec::new(alloc),
        }
    }

    /// Notes the times of groups, in place of those that were noted. `NoMemory` only where no
    /// memory is found; then those stay noted.
    pub fn save(&mut self, groups: &[Group]) -> Result<(), NoMemory>
        ensures err { OnErr result (self.new ≡ self.old) }
    {
        let more = groups.len().saturating_sub(self.times.len());
        self.times.reserve(more)?;
        self.times.clear();
        for group in groups {
            push_in_room(&mut self.times, (group.early, group.late));
        }
        Ok(())
    }

    /// Gives groups the times that were noted; those that have come since keep theirs.
    pub fn load(&self, groups: &mut [Group]) {
        for (group, (early, late)) in groups.iter_mut().zip(&self.times) {
            group.early = *early;
            group.late = *late;
        }
    }
}
