//! The prices by the spans of a layout, and what the edges cost by them.

use crate::NoMemory;
use crate::gifts::LaidGift;
use crate::layouts::{LaidSpan, Layout};
use fp_duals_nets::{Edge, Nets, copy_all};
use std::alloc::Global;

/// The prices by the spans of a layout.
#[derive(Drop)]
pub struct SpanPrices {
    /// What each payer pays.
    pub weights: Vec<u64>,
    /// The money of each span for a truck.
    pub money: Vec<u64>,
    /// The amount of each gift.
    pub amounts: Vec<u64>,
}

/// Raises the costs of edges by what a payer pays now, and lowers them by what it paid.
pub fn change_costs(edges: &mut [Edge], numbers: &[usize], old: u64, new: u64) {
    for number in numbers {
        if let Some(edge) = edges.get_mut(*number) {
            edge.cost = edge.cost.wrapping_sub(old).wrapping_add(new);
        }
    }
}

// What the spans with these numbers have of money together, and how many of them have some.
fn total(money: &[u64], numbers: &[usize]) -> (u64, u64) {
    let (mut sum, mut count) = (0u64, 0u64);
    for number in numbers {
        let part = money.get(*number).copied().unwrap_or(0);
        sum = sum.saturating_add(part);
        count = count.wrapping_add((part > 0) as u64);
    }
    (sum, count)
}

// Notes that something changed.
fn mark(stale: &mut [bool], number: usize) {
    if let Some(stale) = stale.get_mut(number) {
        *stale = true;
    }
}

// Takes the same money from each of the spans with these numbers, down to 0, so that they have
// together at most `most`.
fn cut_money(money: &mut [u64], numbers: &[usize], most: u64, stale: &mut [bool]) {
    for _ in 0..numbers.len() {
        let (sum, count) = total(money, numbers);
        if sum <= most {
            break;
        }
        let each = (sum - most).div_ceil(count.max(1));
        for number in numbers {
            if let Some(part) = money.get_mut(*number) {
                *part = part.saturating_sub(each);
                mark(stale, *number);
            }
        }
    }
}

impl SpanPrices {
    /// Prices of a layout that cost nothing, where each span has the money of a truck, and gifts have
    /// no amounts.
    pub fn of(alloc: Global, layout: &Layout) -> Result<SpanPrices, NoMemory> {
        let mut money = Vec::with_capacity(alloc, layout.spans.len())?;
        for span in &layout.spans {
            money.push(span.truck)?;
        }
        Ok(SpanPrices {
            weights: vec![in alloc; 0u64; layout.payers.len()]?,
            money,
            amounts: vec![in alloc; 0u64; layout.gifts.len()]?,
        })
    }

    /// The same prices again.
    pub fn copied(&self, alloc: Global) -> Result<SpanPrices, NoMemory> {
        Ok(SpanPrices {
            weights: self.weights.as_slice().to_vec(alloc)?,
            money: self.money.as_slice().to_vec(alloc)?,
            amounts: self.amounts.as_slice().to_vec(alloc)?,
        })
    }

    /// Takes over other prices of the same layout.
    pub fn copy(&mut self, from: &SpanPrices) {
        copy_all(&mut self.weights, &from.weights);
        copy_all(&mut self.money, &from.money);
        copy_all(&mut self.amounts, &from.amounts);
    }

    /// Sets the costs of all edges.
    pub fn set_costs(&self, layout: &Layout, nets: &mut Nets) {
        for (edge, edge_use) in nets.edges.iter_mut().zip(nets.uses.iter()) {
            edge.cost = edge_use.flow;
        }
        for (payer, weight) in layout.payers.iter().zip(self.weights.iter()) {
            change_costs(&mut nets.edges, layout.edges_of(payer), 0, *weight);
        }
    }

    /// The prices, of a layout before spans were joined, for that with them: those that are joined
    /// cost nothing and have no money. `NoMemory` only where no memory is found.
    pub fn extend(self, layout: &Layout) -> Result<SpanPrices, NoMemory> {
        let SpanPrices {
            mut weights,
            mut money,
            amounts,
        } = self;
        weights.resize(layout.payers.len(), 0)?;
        money.resize(layout.spans.len(), 0)?;
        Ok(SpanPrices {
            weights,
            money,
            amounts,
        })
    }

    // What trucks have of a span of a single class: what they cost, and what is given there because at
    // most so many leave.
    fn truck_with(&self, layout: &Layout, number: usize, span: &LaidSpan) -> u64 {
        let (more, _) = total(&self.amounts, layout.most_over.group(number));
        span.truck.saturating_add(more)
    }

    /// What gifts leave the spans over a single class, whose span has this number, of what trucks have.
    pub fn truck_left(&self, layout: &Layout, number: usize, span: &LaidSpan) -> u64 {
        let (taken, _) = total(&self.amounts, layout.least_over.group(number));
        self.truck_with(layout, number, span).saturating_sub(taken)
    }

    // Cuts the gifts over a span of a single class because at least so many trucks leave, and then the
    // money of the spans that are joined over it, to what trucks have together.
    fn cut_over(&mut self, layout: &Layout, number: usize, span: &LaidSpan, stale: &mut [bool]) {
        let most = self.truck_with(layout, number, span);
        let least = layout.least_over.group(number);
        cut_money(&mut self.amounts, least, most, &mut []);
        let left = self.truck_left(layout, number, span);
        cut_money(&mut self.money, layout.covers.group(number), left, stale);
    }

    // What gifts and the joined spans leave a span of a single class of what trucks have.
    fn rest(&self, layout: &Layout, number: usize, span: &LaidSpan) -> u64 {
        let (joined, _) = total(&self.money, layout.covers.group(number));
        self.truck_left(layout, number, span).saturating_sub(joined)
    }

    /// Cuts the gifts because at least so many trucks leave, and then the money of joined spans, to
    /// what trucks cost together and what is given because at most so many leave, and gives the rest to
    /// the spans of single classes. Notes in `stale` the spans whose money it changes.
    pub fn spread(&mut self, layout: &Layout, stale: &mut [bool]) {
        for (number, span) in layout.singles().iter().enumerate() {
            self.cut_over(layout, number, span, stale);
        }
        for (number, span) in layout.singles().iter().enumerate() {
            let rest = self.rest(layout, number, span);
            if let Some(money) = self.money.get_mut(number)
                && *money != rest
            {
                *money = rest;
                mark(stale, number);
            }
        }
    }

    // What the gifts of one of the two kinds come to together: each counts once for each of its trucks.
    fn given(&self, gifts: &[LaidGift], least: bool) -> u64 {
        let mut sum = 0u64;
        for (laid, amount) in gifts.iter().zip(self.amounts.iter()) {
            if laid.gift.least == least {
                sum = sum.saturating_add(amount.saturating_mul(laid.gift.trucks));
            }
        }
        sum
    }

    /// What the prices are worth where the least walks cost so much and the charges come to so much.
    pub fn value(&self, layout: &Layout, walks: u64, charges: u64) -> u64 {
        walks
            .saturating_add(self.given(&layout.gifts, true))
            .saturating_sub(charges)
            .saturating_sub(self.given(&layout.gifts, false))
    }

    /// What a payer pays.
    pub fn weight(&self, payer: usize) -> u64 {
        self.weights.get(payer).copied().unwrap_or(0)
    }

    /// The money of a span.
    pub fn money_of(&self, span: usize) -> u64 {
        self.money.get(span).copied().unwrap_or(0)
    }

    /// The amount of a gift.
    pub fn amount_of(&self, gift: usize) -> u64 {
        self.amounts.get(gift).copied().unwrap_or(0)
    }
}
