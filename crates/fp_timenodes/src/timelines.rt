//! The points of one terminal in ascending order, and the search among them.
ghost use Rattle.std.specs.Prelude.{◌≡◌, [], ◌∷◌, false, IfOk, OnOk, OnErr, find, option_map, reverse, nat_le};
ghost use Rattle.fp_timenodes.specs.Floor.{floor_point, next_point};
ghost use Rattle.fp_base_lists.specs.Membership.{list_has};
ghost use Rattle.fp_timenodes.specs.Stamps.{IsAscending, points_of, AreUpTo, IncludesPoint, IsStampCut};

use crate::NoMemory;
use std::alloc::Global;
use std::marker::Model;

/// A point of one terminal, with the round that added it, 0 for one of the start.
#[derive(Clone, Copy)]
pub struct Stamp {
    pub at: u32,
    pub round: u32,
}

/// The points of one terminal in ascending order, each once.
#[derive(Drop)]
pub struct Timeline {
    stamps: Vec<Stamp>,
}

impl Model for Timeline {
    ghost use Rattle.std.specs.Prelude.{List};
    ghost use Rattle.fp_timenodes.specs.declared.timelines.Stamp.{Stamp};
    ghost use Rattle.fp_timenodes.specs.Stamps.{IsAscending};

    ghost Value = { List Stamp };

    ghost view = { λ t. t.stamps.items };

    ghost invariant = { λ t. IsAscending t.stamps.items };
}

impl Timeline {
    /// The timeline with the point 0 of the start alone. `NoMemory` only where no memory is found.
    pub fn new(alloc: Global) -> Result<Timeline, NoMemory>
        ensures { IfOk result (λ t. t ≡ (record { at = 0; round = 0 } ∷ [])) }
    {
        Ok(Timeline {
            stamps: vec![in alloc; Stamp { at: 0, round: 0 }]?,
        })
    }

    /// Whether there is a point at this time as of the round.
    pub fn has(&self, at: u32, round: u32) -> bool
        ensures { result ≡ list_has (points_of self.now round) at }
    {
        let stamps = self.stamps.as_slice();
        let end = count_until(stamps, at);
        if end == 0 {
            return false;
        }
        let last = stamps[end - 1];
        last.at == at && last.round <= round
    }

    /// The greatest point as of the round that is not after `at`, 0 where there is none.
    pub fn floor(&self, at: u32, round: u32) -> u32
        ensures { result ≡ floor_point (points_of self.now round) 1 at }
    {
        let stamps = self.stamps.as_slice();
        let end = count_until(stamps, at);
        last_by(&stamps[..end], round).unwrap_or(0)
    }

    /// The least point as of the round that is after `at`, if there is one.
    pub fn next(&self, at: u32, round: u32) -> Option<u32>
        ensures { result ≡ next_point (points_of self.now round) at }
    {
        let stamps = self.stamps.as_slice();
        let end = count_until(stamps, at);
        first_by(&stamps[end..], round)
    }

    /// Adds the point as of the round. `NoMemory` only where no memory is found: then nothing
    /// changes.
    pub fn insert(&mut self, at: u32, round: u32) -> Result<(), NoMemory>
        requires rounds { AreUpTo round self.old }
        requires absent { list_has (points_of self.old round) at ≡ false }
        ensures points { OnOk result (IncludesPoint self.old self.new at round) }
        ensures rounds { OnOk result (AreUpTo round self.new) }
        ensures err { OnErr result (self.new ≡ self.old) }
    {
        let end = count_until(&self.stamps, at);
        self.stamps.insert(end, Stamp { at, round })?;
        Ok(())
    }

    /// Has the point from the start, whether it was there or not. `NoMemory` only where no memory
    /// is found: then nothing changes.
    pub fn include(&mut self, at: u32) -> Result<(), NoMemory>
        requires { AreUpTo 0 self.old }
        ensures points { OnOk result (IncludesPoint self.old self.new at 0) }
        ensures rounds { OnOk result (AreUpTo 0 self.new) }
        ensures err { OnErr result (self.new ≡ self.old) }
    {
        if self.has(at, 0) {
            return Ok(());
        }
        self.insert(at, 0)
    }

    /// An equal timeline. `NoMemory` only where no memory is found.
    pub fn copy(&self, alloc: Global) -> Result<Timeline, NoMemory>
        ensures { IfOk result (λ t. t ≡ self.now) }
    {
        Ok(Timeline {
            stamps: self.stamps.as_slice().to_vec(alloc)?,
        })
    }
}

// The time of the first stamp up to the round.
fn first_by(stamps: &[Stamp], round: u32) -> Option<u32>
    ensures { result ≡ option_map (λ s. s.at) (find (λ s. nat_le s.round round) stamps.now) }
{
    stamps
        .iter()
        .find(|stamp| stamp.round <= round)
        .map(|stamp| stamp.at)
}

// The time of the last stamp up to the round.
fn last_by(stamps: &[Stamp], round: u32) -> Option<u32>
    ensures { result ≡ option_map (λ s. s.at) (find (λ s. nat_le s.round round) (reverse stamps.now)) }
{
    stamps
        .iter()
        .rev()
        .find(|stamp| stamp.round <= round)
        .map(|stamp| stamp.at)
}

// How many stamps are not after the time.
fn count_until(stamps: &[Stamp], at: u32) -> usize
    requires { IsAscending stamps.now }
    ensures { IsStampCut stamps.now at result }
{
    stamps.partition_point(|stamp| stamp.at <= at)
}
