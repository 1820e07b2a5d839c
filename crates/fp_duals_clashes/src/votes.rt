//! Where points are missing: chains of places that lead to clashes of least walks, with votes.

ghost use Rattle.std.specs.Prelude.{◌≡◌, OnErr};

use crate::NoMemory;
use fp_model::Instance;
use fp_prices::RoundNetwork;
use fp_timenodes::Place;
use std::alloc::Global;
use std::marker::Model;

// Once there are so many votes, those for equal chains are put together.
const MANY: usize = 20_000;

// Votes for a chain: a number that equal chains share, where its places begin among all places, how many
// they are, and what the votes cost.
#[derive(Clone, Copy)]
struct Vote {
    code: u64,
    first: usize,
    count: usize,
    cost: u64,
}

/// Votes of a search for chains of places. A least walk clashes where it comes to an arc after the last
/// moment at which the set that it's charged with could leave together: the moments from the last one at
/// which it had to wait, up to there, are the chain at which points would tell it apart from the set.
/// Nothing is promised of them: to contracts they hold nothing, so they're the same after each call,
/// also after `NoMemory`.
#[derive(Drop)]
pub struct ClashVotes {
    // How long after it left by each arc a shipment can leave again.
    steps: Vec<u32>,
    places: Vec<Place>,
    votes: Vec<Vote>,
}

impl Model for ClashVotes {
    ghost use Rattle.std.specs.Prelude.{⊤};

    ghost Value = { ⊤ };

    ghost view = { λ _. tt };
}

// A number of a chain: chains with the same number are taken for equal.
fn code_of(chain: &[Place]) -> u64 {
    let mut code = 14_695_981_039_346_656_037u64;
    for place in chain {
        code = (code ^ u64::from(place.terminal)).wrapping_mul(1_099_511_628_211);
        code = (code ^ u64::from(place.at)).wrapping_mul(1_099_511_628_211);
    }
    code
}

impl ClashVotes {
    /// None yet, for a search at a leaf of the instance. `NoMemory` only where no memory is found.
    pub fn of(alloc: Global, instance: &Instance) -> Result<ClashVotes, NoMemory> {
        let mut steps = Vec::with_capacity(alloc, instance.arcs().len())?;
        for arc in 0..instance.arcs().len() as u32 {
            steps.push(instance.step(arc))?;
        }
        Ok(ClashVotes {
            steps,
            places: Vec::new(alloc),
            votes: Vec::new(alloc),
        })
    }

    /// How long after it left by an arc a shipment can leave again.
    pub fn step(&self, arc: u32) -> u32 {
        self.steps.get(arc as usize).copied().unwrap_or(0)
    }

    // Whether the last of the first so many votes is for a chain with a number.
    fn ends_with(&self, count: usize, code: u64) -> bool {
        match count.checked_sub(1) {
            Some(last) => self.votes.get(last).is_some_and(|vote| vote.code == code),
            None => false,
        }
    }

    // Adds a vote to the last of the first so many votes.
    fn raise_last(&mut self, count: usize, cost: u64) {
        if let Some(last) = count.checked_sub(1)
            && let Some(vote) = self.votes.get_mut(last)
        {
            vote.cost = vote.cost.saturating_add(cost);
        }
    }

    // Puts votes for equal chains together.
    fn merge(&mut self) -> Result<(), NoMemory> {
        self.votes.sort_by_key(|vote| vote.code)?;
        let mut kept = 0usize;
        for number in 0..self.votes.len() {
            let Some(vote) = self.votes.get(number).copied() else {
                break;
            };
            if self.ends_with(kept, vote.code) {
                self.raise_last(kept, vote.cost);
                continue;
            }
            if let Some(place) = self.votes.get_mut(kept) {
                *place = vote;
            }
            kept = kept.wrapping_add(1);
        }
        self.votes.truncate(kept);
        Ok(())
    }

    /// A vote for a chain. `NoMemory` only where no memory is found.
    pub fn add(&mut self, chain: &[Place], cost: u64) -> Result<(), NoMemory>
        ensures { OnErr result (self.new ≡ self.old) }
    {
        if self.votes.len() >= MANY {
            self.merge()?;
        }
        let first = self.places.len();
        self.places.extend_from_slice(chain)?;
        self.votes.push(Vote {
            code: code_of(chain),
            first,
            count: chain.len(),
            cost,
        })?;
        Ok(())
    }

    /// The places of the chains whose votes cost most, each once, at most so many, and none at which the
    /// round's network has a point. `NoMemory` only where no memory is found.
    pub fn places(
        mut self,
        alloc: Global,
        round: &RoundNetwork,
        most: usize,
    ) -> Result<Vec<Place>, NoMemory> {
        self.merge()?;
        self.votes.sort_by_key(|vote| u64::MAX - vote.cost)?;
        let mut found: Vec<Place> = Vec::new(alloc);
        for vote in &self.votes {
            let end = vote.first.saturating_add(vote.count);
            if let Some(chain) = self.places.get(vote.first..end) {
                add_places(&mut found, round, chain, most)?;
            }
        }
        Ok(found)
    }
}

// Whether a place is at a terminal, and the network has no point there.
fn is_free(round: &RoundNetwork, place: Place) -> bool {
    (place.terminal as usize) < round.instance().terminals().len()
        && !round.network().is_point(place.terminal, place.at)
}

// Adds the free places of a chain, each once, until there are so many.
fn add_places(
    found: &mut Vec<Place>,
    round: &RoundNetwork,
    chain: &[Place],
    most: usize,
) -> Result<(), NoMemory> {
    for place in chain {
        if found.len() < most && is_free(round, *place) && !found.contains(place) {
            found.push(*place)?;
        }
    }
    Ok(())
}
