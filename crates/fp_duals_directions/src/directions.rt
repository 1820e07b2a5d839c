//! The averaged direction of the ascent.

use crate::NoMemory;
use crate::ties::Ties;
use fp_duals_layouts::{Charges, LaidGift, Layout, SpanPrices, of_span};
use fp_duals_nets::{Net, Nets, last_edge};
use std::alloc::Global;

/// A whole use, in the averaged direction.
const WHOLE: i64 = 1 << 12;

/// How the value changes with the prices, as an average over the turns that gives the newest the
/// most weight.
#[derive(Drop)]
pub struct Direction {
    // The walks' use of what each payer pays for, less the sets that are charged.
    means: Vec<i64>,
    // The payers whose means aren't 0, each once, among others.
    moving: Vec<usize>,
    // Whether each payer is among them.
    listed: Vec<bool>,
    // The trucks of the sets that are charged, for each span.
    trucks: Vec<i64>,
    /// The edges of the newest walks, among those of all nets.
    pub walks: Vec<usize>,
    // The part of the newest walks, in parts of 64.
    fresh: u64,
    // What moves together.
    ties: Ties,
    /// The payers that move, in their order.
    pub pulled: Vec<usize>,
}

// What is left of a mean when the part of the newest walks is taken off; in the end nothing.
fn aged(mean: i64, fresh: u64) -> i64 {
    let off = mean.unsigned_abs().wrapping_mul(fresh).wrapping_add(63) / 64;
    if mean >= 0 {
        mean.saturating_sub_unsigned(off)
    } else {
        mean.saturating_add_unsigned(off)
    }
}

// The square of a length.
fn square(length: i64) -> u64 {
    let length = length.unsigned_abs();
    length.saturating_mul(length)
}

// So many trucks, in the averaged direction.
fn whole_trucks(trucks: u64) -> i64 {
    WHOLE.wrapping_mul(trucks.min(1 << 33) as i64)
}

// Lets older turns count for less.
fn age_all(means: &mut [i64], fresh: u64) {
    for mean in means.iter_mut() {
        *mean = aged(*mean, fresh);
    }
}

impl Direction {
    /// No direction yet, over the payers of so many shipments; later the newest walks are so many parts in
    /// 64 of it, at most all. `NoMemory` only where no memory is found.
    pub fn of(
        alloc: Global,
        layout: &Layout,
        shipments: usize,
        fresh: u32,
    ) -> Result<Direction, NoMemory> {
        Ok(Direction {
            means: vec![in alloc; 0i64; layout.payers.len()]?,
            moving: Vec::new(alloc),
            listed: vec![in alloc; false; layout.payers.len()]?,
            trucks: vec![in alloc; 0i64; layout.spans.len()]?,
            walks: Vec::new(alloc),
            fresh: u64::from(fresh.min(64)),
            ties: Ties::of(alloc, layout, shipments)?,
            pulled: Vec::new(alloc),
        })
    }

    // Notes the least walk of a net whose nodes are labelled.
    fn note_walk(&mut self, nets: &Nets, net: &Net) -> Result<(), NoMemory> {
        let edges = nets.edges_of(net);
        let mut node = net.goal;
        for _ in 0..edges.len() {
            let Some((number, tail)) = last_edge(edges, &nets.labels, node) else {
                break;
            };
            self.walks.push(net.first_edge.wrapping_add(number))?;
            node = tail;
        }
        Ok(())
    }

    /// Finds and notes the least walks of all nets at the costs that are set. What they cost. `NoMemory`
    /// only where no memory is found.
    pub fn find_walks(&mut self, nets: &mut Nets) -> Result<u64, NoMemory> {
        self.walks.clear();
        let mut sum = 0u64;
        for number in 0..nets.list.len() {
            if let Some(net) = nets.list.get(number).copied() {
                sum = sum.saturating_add(nets.label_net(&net));
                self.note_walk(nets, &net)?;
            }
        }
        Ok(sum)
    }

    // The mean of a payer.
    fn mean(&self, payer: usize) -> i64 {
        self.means.get(payer).copied().unwrap_or(0)
    }

    // Lets the older walks count for less. Payers whose means come to nothing are left out.
    fn age_means(&mut self) {
        let mut kept = 0usize;
        for place in 0..self.moving.len() {
            if let Some(payer) = self.moving.get(place).copied()
                && let Some(mean) = self.means.get_mut(payer)
                && let Some(listed) = self.listed.get_mut(payer)
            {
                *mean = aged(*mean, self.fresh);
                *listed = *mean != 0;
                if *listed {
                    if let Some(to) = self.moving.get_mut(kept) {
                        *to = payer;
                    }
                    kept = kept.wrapping_add(1);
                }
            }
        }
        self.moving.truncate(kept);
    }

    // Adds to the mean of a payer.
    fn add(&mut self, payer: usize, more: i64) -> Result<(), NoMemory> {
        if let Some(mean) = self.means.get_mut(payer)
            && let Some(listed) = self.listed.get_mut(payer)
        {
            *mean = mean.wrapping_add(more);
            if !*listed {
                *listed = true;
                self.moving.push(payer)?;
            }
        }
        Ok(())
    }

    // Adds the newest walks.
    fn add_walks(&mut self, layout: &Layout, nets: &Nets, more: i64) -> Result<(), NoMemory> {
        for place in 0..self.walks.len() {
            if let Some(number) = self.walks.get(place).copied()
                && let Some(edge) = nets.uses.get(number)
            {
                self.add(edge.part, more)?;
                for payer in layout.links.group(number) {
                    self.add(*payer, more)?;
                }
            }
        }
        Ok(())
    }

    // Takes off the sets of a span that are charged, and counts their trucks.
    fn take_charged(
        &mut self,
        layout: &Layout,
        charges: &Charges,
        number: usize,
        less: i64,
    ) -> Result<(), NoMemory> {
        let Some(span) = layout.spans.get(number) else {
            return Ok(());
        };
        let mut payer = span.first;
        for charged in of_span(&charges.charged, span) {
            if *charged > 0 {
                let sets = i64::from(*charged);
                self.add(payer, less.wrapping_mul(sets).wrapping_neg())?;
            }
            payer = payer.wrapping_add(1);
        }
        if let Some(mean) = self.trucks.get_mut(number) {
            let trucks = charges.trucks(number).min(1 << 30) as i64;
            *mean = mean.wrapping_add(trucks.wrapping_mul(less));
        }
        Ok(())
    }

    /// Lets the older walks count for less and adds the newest, which are all where `first`.
    /// `NoMemory` only where no memory is found.
    pub fn turn(
        &mut self,
        layout: &Layout,
        nets: &Nets,
        charges: &Charges,
        first: bool,
    ) -> Result<(), NoMemory> {
        self.age_means();
        age_all(&mut self.trucks, self.fresh);
        let part = if first { 64 } else { self.fresh.min(64) as i64 };
        let more = part.wrapping_mul(WHOLE / 64);
        self.add_walks(layout, nets, more)?;
        for (number, charge) in charges.list.iter().enumerate() {
            if *charge > 0 {
                self.take_charged(layout, charges, number, more)?;
            }
        }
        Ok(())
    }

    /// What a joined span's money gains: its trucks less those of the single classes in its run.
    pub fn gain(&self, layout: &Layout, number: usize) -> i64 {
        let mut gain = self.trucks.get(number).copied().unwrap_or(0);
        if let Some(span) = layout.spans.get(number)
            && let Some(singles) = self.trucks.get(span.first_single..span.end_single)
        {
            for trucks in singles {
                gain = gain.wrapping_sub(*trucks);
            }
        }
        gain
    }

    /// What the amount of a gift gains: because at least so many trucks leave, these trucks less those
    /// of the single classes in its run; because at most so many do, the other way round.
    pub fn gift_gain(&self, laid: &LaidGift) -> i64 {
        let mut gain = whole_trucks(laid.gift.trucks);
        if let Some(singles) = self.trucks.get(laid.first_single..laid.end_single) {
            for trucks in singles {
                gain = gain.wrapping_sub(*trucks);
            }
        }
        if laid.gift.least {
            gain
        } else {
            gain.wrapping_neg()
        }
    }

    // The squared length of the part of the direction that is the gifts', without what would take
    // amounts out of their limits.
    fn gift_norm(&self, layout: &Layout, prices: &SpanPrices) -> u64 {
        let mut norm = 0u64;
        for (number, laid) in layout.gifts.iter().enumerate() {
            let gain = self.gift_gain(laid);
            let amount = prices.amount_of(number);
            if gain > 0 && amount < laid.most || gain < 0 && amount > 0 {
                norm = norm.saturating_add(square(gain));
            }
        }
        norm
    }

    /// Gathers what moves together, without what would lower prices below 0. `NoMemory` only where no
    /// memory is found.
    pub fn gather(&mut self, prices: &SpanPrices) -> Result<(), NoMemory> {
        self.ties.clear();
        for payer in &self.moving {
            let mean = self.means.get(*payer).copied().unwrap_or(0);
            let can_move = mean > 0 || prices.weight(*payer) > 0;
            self.ties.gather(*payer, mean, can_move)?;
        }
        self.ties.list_members(&mut self.pulled)
    }

    /// The payer at a place among those that move; no payer's number where there is none.
    pub fn pulled_at(&self, place: usize) -> usize {
        self.pulled.get(place).copied().unwrap_or(usize::MAX)
    }

    /// How a payer moves: by its mean and by the sum of what moves together.
    pub fn pull(&self, payer: usize) -> i64 {
        self.mean(payer).wrapping_add(self.ties.sum(payer))
    }

    /// The squared length of the direction, without what would lower prices and money below 0.
    pub fn norm(&self, layout: &Layout, prices: &SpanPrices) -> u64 {
        let mut norm = self.ties.norm();
        for payer in &self.moving {
            let mean = self.mean(*payer);
            if mean > 0 || prices.weight(*payer) > 0 {
                norm = norm.saturating_add(square(mean));
            }
        }
        for number in layout.singles..layout.spans.len() {
            let gain = self.gain(layout, number);
            if gain > 0 || prices.money_of(number) > 0 {
                norm = norm.saturating_add(square(gain));
            }
        }
        norm.saturating_add(self.gift_norm(layout, prices))
    }
}
