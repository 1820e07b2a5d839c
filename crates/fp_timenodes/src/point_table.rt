//! The points of all terminals as of every round: look-ups, and one more point.
ghost use Rattle.std.specs.Prelude.{ℕ, ◌≡◌, ◌<◌, ◌≤◌, ◌↔◌, ◌++◌, [], ◌∷◌, All, IsTrue, IfOk, IfSome, OnErr, length, replicate};
ghost use Rattle.fp_timenodes.specs.Floor.{floor_point, next_point, IsFloorPoint, IsNextPoint};
ghost use Rattle.fp_base_lists.specs.Membership.{list_has};
ghost use Rattle.fp_timenodes.specs.Points.{TimePoints, IsPlace, IsAddedPoint, points_at, greatest_round, HasValidPoints};
ghost use Rattle.fp_timenodes.specs.Timelines.{StartAt, bare_timeline};

use crate::NoMemory;
use crate::places::{Added, AddedPoint, LATEST, Place};
use crate::timelines::Timeline;
use std::alloc::Global;
use std::marker::Model;

/// The points of all terminals, with the rounds that added them.
///
/// In every call a terminal is a number below the number of terminals; a time to look up and a
/// round may be any number. Times are in the input's unit. Look-ups take time that grows with the
/// logarithm of a terminal's points, and with the points of later rounds that they pass; they take
/// no memory.
///
/// A contract sees the number of terminals, the places that have a point from the start, and the
/// points added since, in the order of adding. The points of a terminal as of a round are 0, its
/// places of the start and every added point of it whose round is at most that round.
#[derive(Drop)]
pub struct Points {
    first: Vec<Place>,
    added: Vec<AddedPoint>,
    timelines: Vec<Timeline>,
}

impl Model for Points {
    ghost use Rattle.std.specs.Prelude.{length};
    ghost use Rattle.fp_timenodes.specs.Points.{TimePoints};
    ghost use Rattle.fp_timenodes.specs.Timelines.{Show};

    ghost Value = { TimePoints };

    ghost view = { λ p. record { terminals = length p.timelines.items; first = p.first.items; added = p.added.items } };

    ghost invariant = { λ p. Show (record { terminals = length p.timelines.items; first = p.first.items; added = p.added.items }) p.timelines.items };
}

impl Points {
    /// The points of so many terminals at the start: 0 at each, and the places of `first`, in
    /// whatever order and however often each is named. Each place is at one of the terminals, and
    /// no later than [`LATEST`]. `NoMemory` only where no memory is found.
    pub fn new(alloc: Global, terminals: u32, first: &[Place]) -> Result<Points, NoMemory>
        requires { All (IsPlace terminals) first.now }
        ensures { IfOk result (λ p. p ≡ (record { terminals = terminals; first = first.now; added = [] })) }
    {
        // In ascending order each place goes to the end of its timeline.
        let mut ascending = first.to_vec(alloc)?;
        ascending.sort_unstable_by_key(|place| place.at);
        Ok(Points {
            first: first.to_vec(alloc)?,
            added: Vec::new(alloc),
            timelines: timelines_of(alloc, terminals, &ascending)?,
        })
    }

    /// Whether the terminal has a point at this time as of the round.
    pub fn has(&self, terminal: u32, at: u32, round: u32) -> bool
        requires { terminal < self.now.terminals }
        ensures { result ≡ list_has (points_at self.now terminal round) at }
    {
        let timeline = &self.timelines[terminal as usize];
        timeline.has(at, round)
    }

    /// The greatest point of the terminal as of the round that is not after `at`. There is one,
    /// since 0 is a point.
    pub fn floor(&self, terminal: u32, at: u32, round: u32) -> u32
        requires { terminal < self.now.terminals }
        ensures value { result ≡ floor_point (points_at self.now terminal round) 1 at }
        ensures greatest { IsFloorPoint (points_at self.now terminal round) at result }
        ensures in_time { result ≤ LATEST }
    {
        let timeline = &self.timelines[terminal as usize];
        timeline.floor(at, round)
    }

    /// The least point of the terminal as of the round that is after `at`, `None` exactly where
    /// there is none.
    pub fn next(&self, terminal: u32, at: u32, round: u32) -> Option<u32>
        requires { terminal < self.now.terminals }
        ensures value { result ≡ next_point (points_at self.now terminal round) at }
        ensures least { IsNextPoint (points_at self.now terminal round) at result }
        ensures in_time { IfSome result (λ q. q ≤ LATEST) }
    {
        let timeline = &self.timelines[terminal as usize];
        timeline.next(at, round)
    }

    /// The points that were added, in the order of adding, and with rounds that do not fall.
    pub fn added(&self) -> &[AddedPoint]
        ensures same { result.now ≡ self.now.added }
        ensures valid { HasValidPoints self.now }
    {
        &self.added
    }

    /// The greatest round that added a point, 0 where none did.
    pub fn last_round(&self) -> u32
        ensures { result ≡ greatest_round self.now.added }
    {
        match self.added.last() {
            Some(point) => point.round,
            None => 0,
        }
    }

    /// Adds the point as of the round, and says whether it was there already, in which case nothing
    /// changes. The round is at least 1 and at least that of every point added before; `at` is no
    /// later than [`LATEST`]. `NoMemory` only where no memory is found: then nothing changes
    /// either.
    pub fn add(
        &mut self,
        _alloc: Global,
        terminal: u32,
        at: u32,
        round: u32,
    ) -> Result<Added, NoMemory>
        requires place { IsAddedPoint self.old.terminals (record { terminal = terminal; at = at; round = round }) }
        requires order { greatest_round self.old.added ≤ round }
        ensures there { (result ≡ Ok Added.There) ↔ IsTrue (list_has (points_at self.old terminal round) at) }
        ensures same { result ≡ Ok Added.There → self.new ≡ self.old }
        ensures new { result ≡ Ok Added.New →
            self.new ≡ record self.old { added = self.old.added ++ (record { terminal = terminal; at = at; round = round } ∷ []) } }
        ensures err { OnErr result (self.new ≡ self.old) }
    {
        if self.has(terminal, at, round) {
            return Ok(Added::There);
        }
        // Room first, so that nothing has changed where no memory is found.
        self.added.reserve(1)?;
        let timeline = &mut self.timelines[terminal as usize];
        timeline.insert(at, round)?;
        self.added.push(AddedPoint {
            terminal,
            at,
            round,
        })?;
        Ok(Added::New)
    }

    /// An equal set of points. `NoMemory` only where no memory is found.
    pub fn copy(&self, alloc: Global) -> Result<Points, NoMemory>
        ensures { IfOk result (λ p. p ≡ self.now) }
    {
        let mut timelines = Vec::new(alloc);
        for timeline in &self.timelines {
            timelines.push(timeline.copy(alloc)?)?;
        }
        Ok(Points {
            first: self.first.as_slice().to_vec(alloc)?,
            added: self.added.as_slice().to_vec(alloc)?,
            timelines,
        })
    }
}

// So many timelines of the point 0 alone.
fn bare_timelines(alloc: Global, terminals: u32) -> Result<Vec<Timeline>, NoMemory>
    ensures { IfOk result (λ t. t.items ≡ replicate terminals bare_timeline) }
{
    let mut timelines = Vec::new(alloc);
    for _terminal in 0..terminals {
        timelines.push(Timeline::new(alloc)?)?;
    }
    Ok(timelines)
}

// The timelines of so many terminals, with the point 0 and these places.
fn timelines_of(alloc: Global, terminals: u32, places: &[Place]) -> Result<Vec<Timeline>, NoMemory>
    requires { All (λ p. p.terminal < terminals) places.now }
    ensures { IfOk result (λ t. StartAt terminals places.now t.items) }
{
    let mut timelines = bare_timelines(alloc, terminals)?;
    for place in places {
        let timeline = &mut timelines[place.terminal as usize];
        timeline.include(place.at)?;
    }
    Ok(timelines)
}
