//! The charges of the spans, and the sets of shipments that are charged.
ghost use Rattle.std.specs.Prelude.{◌≡◌, OnErr};

use crate::NoMemory;
use crate::group_charges::{GroupCharges, Weighed};
use crate::layouts::{LaidSpan, Layout, of_span};
use crate::prices::SpanPrices;
use fp_duals_nets::{copy_all, part_mut};
use fp_duals_sets::{Finding, Terms};
use std::alloc::Global;
use std::marker::Model;

// A span isn't charged as long as its money is at least this, and its weights are together at most
// so much above those that were noted.
#[derive(Clone, Copy)]
struct Slack {
    money: u64,
    rise: u64,
}

/// The charges of the spans of a layout, and the sets that are charged. Heuristics alone read them:
/// to contracts they hold nothing, so they're the same after each call, also after `NoMemory`.
#[derive(Drop)]
pub struct Charges {
    groups: GroupCharges,
    // The most loads by which sets are told apart.
    loads: u64,
    // The weights by which each span's charge was found, and its slack, where that is known.
    noted: Vec<u64>,
    slacks: Vec<Option<Slack>>,
    // The trucks for the sets of each span that are charged.
    trucks: Vec<u64>,
    /// The charge of each span.
    pub list: Vec<u64>,
    /// In how many of its span's sets that are charged each payer is: at most one for each group.
    pub charged: Vec<u32>,
    /// Whether each span's prices changed since its charge was found.
    pub stale: Vec<bool>,
}

impl Model for Charges {
    ghost use Rattle.std.specs.Prelude.{⊤};

    ghost Value = { ⊤ };

    ghost view = { λ _. tt };
}

// What numbers rise by together, from others.
fn rise(old: &[u64], new: &[u64]) -> u64 {
    let mut sum = 0u64;
    for (before, after) in old.iter().zip(new.iter()) {
        sum = sum.saturating_add(after.saturating_sub(*before));
    }
    sum
}

impl Charges {
    /// No charges: all are to be found, with at most so many loads, and where `merges`, with groups
    /// made one that are charged no more together.
    pub fn of(
        alloc: Global,
        layout: &Layout,
        loads: u64,
        merges: bool,
    ) -> Result<Charges, NoMemory> {
        let spans = layout.spans.len();
        Ok(Charges {
            groups: GroupCharges::new(alloc, merges),
            loads,
            noted: vec![in alloc; 0u64; layout.payers.len()]?,
            slacks: vec![in alloc; None; spans]?,
            trucks: vec![in alloc; 0u64; spans]?,
            list: vec![in alloc; 0u64; spans]?,
            charged: vec![in alloc; 0u32; layout.payers.len()]?,
            stale: vec![in alloc; true; spans]?,
        })
    }

    /// Says that the prices of all spans changed.
    pub fn forget(&mut self) {
        for stale in self.stale.iter_mut() {
            *stale = true;
        }
    }

    /// Says that the prices of a span changed.
    pub fn forget_span(&mut self, number: usize) {
        if let Some(stale) = self.stale.get_mut(number) {
            *stale = true;
        }
    }

    // A span with its prices.
    fn weighed<'a>(
        &self,
        layout: &'a Layout,
        prices: &'a SpanPrices,
        span: &'a LaidSpan,
        money: u64,
    ) -> Weighed<'a> {
        Weighed {
            layout,
            span,
            prices,
            terms: Terms {
                capacity: span.capacity,
                money,
                grain: span.grain,
                loads: self.loads,
            },
        }
    }

    // Whether a span has so much slack that it still isn't charged.
    fn is_slack(&self, number: usize, span: &LaidSpan, money: u64, weights: &[u64]) -> bool {
        match self.slacks.get(number) {
            Some(Some(slack)) => {
                slack.money <= money && rise(of_span(&self.noted, span), weights) <= slack.rise
            }
            _ => false,
        }
    }

    // Notes what was found of a span at its money.
    fn note(&mut self, number: usize, found: Finding, money: u64) {
        if let Some(charge) = self.list.get_mut(number) {
            *charge = found.charge;
        }
        if let Some(slack) = self.slacks.get_mut(number) {
            *slack = found.slack.map(|rise| Slack { money, rise });
        }
        if let Some(place) = self.trucks.get_mut(number) {
            *place = found.trucks;
        }
    }

    // Finds the charge of a span: those of its groups together.
    fn find(
        &mut self,
        layout: &Layout,
        prices: &SpanPrices,
        number: usize,
        span: &LaidSpan,
    ) -> Result<(), NoMemory> {
        let money = prices.money_of(number);
        let weights = of_span(&prices.weights, span);
        if self.is_slack(number, span, money, weights) {
            return Ok(());
        }
        if let Some(counts) = part_mut(&mut self.charged, span.first, span.end) {
            counts.fill(0);
        }
        if let Some(noted) = part_mut(&mut self.noted, span.first, span.end) {
            copy_all(noted, weights);
        }
        let weighed = self.weighed(layout, prices, span, money);
        let found = self.groups.find(weighed, &mut self.charged)?;
        self.note(number, found, money);
        Ok(())
    }

    /// Finds the charges of the spans whose prices changed. What all charges come to.
    pub fn find_all(&mut self, layout: &Layout, prices: &SpanPrices) -> Result<u64, NoMemory>
        ensures { OnErr result (self.new ≡ self.old) }
    {
        let mut sum = 0u64;
        let mut number = 0usize;
        for span in &layout.spans {
            if self.stale.get(number).copied().unwrap_or(false) {
                self.find(layout, prices, number, span)?;
            }
            sum = sum.saturating_add(self.list.get(number).copied().unwrap_or(0));
            number = number.wrapping_add(1);
        }
        for stale in self.stale.iter_mut() {
            *stale = false;
        }
        Ok(sum)
    }

    /// The trucks for the sets of a span that are charged; 0 where it isn't charged.
    pub fn trucks(&self, number: usize) -> u64 {
        self.trucks.get(number).copied().unwrap_or(0)
    }

    /// The most that a payer may pay by its span beside the others while no group's charge rises.
    /// `NoMemory` only where no memory is found.
    pub fn room(
        &mut self,
        layout: &Layout,
        prices: &SpanPrices,
        payer: usize,
    ) -> Result<u64, NoMemory>
        ensures { OnErr result (self.new ≡ self.old) }
    {
        let Some(paying) = layout.payers.get(payer) else {
            return Ok(0);
        };
        let Some(span) = layout.spans.get(paying.span) else {
            return Ok(0);
        };
        let charge = self.list.get(paying.span).copied().unwrap_or(0);
        let weighed = self.weighed(layout, prices, span, prices.money_of(paying.span));
        self.groups.room(weighed, payer, charge)
    }
}
