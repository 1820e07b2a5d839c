//! Where the least walks of an ascent clash with the sets that they are charged with.

ghost use Rattle.std.specs.Prelude.{◌≡◌, OnErr};

use crate::NoMemory;
use crate::set_moments::SetMoments;
use crate::votes::ClashVotes;
use fp_duals_layouts::{Charges, Layout};
use fp_duals_nets::{ArcMoney, ClassNodes, Net, Nets, WAIT};
use fp_timenodes::Place;
use std::alloc::Global;
use std::marker::Model;

/// What votes go over: the classes of the leaf's network and what its arcs cost.
#[derive(Drop)]
pub struct Ground<'a> {
    pub classes: &'a [ClassNodes],
    pub arcs: &'a [ArcMoney],
    pub votes: &'a mut ClashVotes,
}

/// What clashes are found with. To contracts it holds nothing, so it's the same after each call, also after
/// `NoMemory`.
#[derive(Drop)]
pub struct Clashes {
    moments: SetMoments,
    chain: Vec<Place>,
    // What a vote counts for, in parts of 2^20: later turns count for more.
    strength: u64,
}

impl Model for Clashes {
    ghost use Rattle.std.specs.Prelude.{⊤};

    ghost Value = { ⊤ };

    ghost view = { λ _. tt };
}

// A leg of a walk: the payer that pays for it, its class, and the size of its shipment.
#[derive(Clone, Copy)]
struct Leg {
    payer: usize,
    class: ClassNodes,
    size: u64,
}

// What a leg has of a truck's cost by its size.
fn cost_part(arcs: &[ArcMoney], leg: &Leg) -> u64 {
    match arcs.get(leg.class.stop.arc as usize) {
        Some(arc) => leg.size.saturating_mul(arc.truck) / arc.capacity.max(1),
        None => 0,
    }
}

// A number times a part of 2^20, and at least 1.
fn scaled(number: u64, part: u64) -> u64 {
    let scaled = u128::from(number).saturating_mul(u128::from(part)) >> 20;
    (scaled.min(1 << 60) as u64).max(1)
}

impl Clashes {
    /// None yet. `NoMemory` only where no memory is found.
    pub fn of(alloc: Global, layout: &Layout) -> Result<Clashes, NoMemory> {
        Ok(Clashes {
            moments: SetMoments::of(alloc, layout)?,
            chain: Vec::new(alloc),
            strength: 1 << 20,
        })
    }

    // Goes by a leg, where its shipment is ready. When it's ready again; `None` where it clashes, for which
    // its chain gets a vote.
    fn go(&mut self, ground: &mut Ground, leg: &Leg, ready: u32) -> Result<Option<u32>, NoMemory> {
        let moments = self.moments.of_payer(leg.payer);
        let mut now = ready;
        if moments.first > ready {
            now = moments.first;
            self.chain.clear();
        }
        self.chain.push(Place {
            terminal: leg.class.from,
            at: now,
        })?;
        if now > moments.last {
            let cost = scaled(cost_part(ground.arcs, leg), self.strength);
            ground.votes.add(&self.chain, cost)?;
            return Ok(None);
        }
        Ok(Some(now.saturating_add(ground.votes.step(leg.class.stop.arc))))
    }

    // Goes by a walk of a net, of which the last edge stands first, until it clashes.
    fn go_by(
        &mut self,
        ground: &mut Ground,
        nets: &Nets,
        net: &Net,
        walk: &[usize],
    ) -> Result<(), NoMemory> {
        self.chain.clear();
        let mut ready = 0;
        for number in walk.iter().rev() {
            let Some(edge) = nets.uses.get(*number).copied() else {
                break;
            };
            if edge.class == WAIT {
                continue;
            }
            let Some(class) = ground.classes.get(edge.class as usize).copied() else {
                break;
            };
            let leg = Leg {
                payer: edge.part,
                class,
                size: net.size,
            };
            match self.go(ground, &leg, ready)? {
                Some(next) => ready = next,
                None => break,
            }
        }
        Ok(())
    }

    /// Votes by the walks of all nets, one after the other. `NoMemory` only where no memory is found.
    pub fn vote(
        &mut self,
        layout: &Layout,
        nets: &Nets,
        walks: &[usize],
        charges: &Charges,
        ground: &mut Ground,
    ) -> Result<(), NoMemory>
        ensures { OnErr result (self.new ≡ self.old) }
    {
        self.strength = self.strength.saturating_add(self.strength / 25);
        self.moments.find(layout, charges)?;
        let mut begin = 0usize;
        for net in &nets.list {
            let end = end_of(net, walks, begin);
            if let Some(walk) = walks.get(begin..end) {
                self.go_by(ground, nets, net, walk)?;
            }
            begin = end;
        }
        Ok(())
    }
}

// Where the edges of a net end that begin at a place among those of all walks.
fn end_of(net: &Net, walks: &[usize], begin: usize) -> usize {
    let mut end = begin;
    for number in walks.get(begin..).unwrap_or(&[]) {
        if *number < net.first_edge || net.end_edge <= *number {
            break;
        }
        end = end.wrapping_add(1);
    }
    end
}
