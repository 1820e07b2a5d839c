//! The first amount of a gift: it is sought along the line on which what shipments pay in the gift's
//! run follows the money there. By an amount alone shipments would pay too much or too little for
//! many turns.

use crate::NoMemory;
use crate::ascent::subgradients::Climb;
use fp_duals_layouts::{LaidGift, LaidSpan, Layout, SpanPrices};
use fp_duals_nets::{Nets, part_mut};
use std::alloc::Global;

// The amounts that are tried, in parts of 32 of what a truck costs.
const PARTS: [u64; 10] = [1, 2, 3, 4, 6, 8, 12, 16, 24, 32];

// After so many, one that is worth no more is the last that is tried.
const LEAST_TRIES: usize = 2;

// So many parts of 32 of what a truck costs.
fn part_of(laid: &LaidGift, part: u64) -> u64 {
    let amount = u128::from(laid.truck).saturating_mul(u128::from(part)) / 32;
    (amount.min(u128::from(u64::MAX)) as u64).min(laid.most)
}

// A weight that follows money from `old` to `new`.
fn followed(weight: u64, old: u64, new: u64) -> u64 {
    if old == 0 {
        return weight;
    }
    let followed = u128::from(weight).saturating_mul(u128::from(new)) / u128::from(old);
    followed.min(u128::from(u64::MAX)) as u64
}

// Lets the weights of a span follow its money from `old` to `new`.
fn follow(prices: &mut SpanPrices, span: &LaidSpan, old: u64, new: u64) {
    if let Some(weights) = part_mut(&mut prices.weights, span.first, span.end) {
        for weight in weights.iter_mut() {
            *weight = followed(*weight, old, new);
        }
    }
}

impl Climb {
    // Goes back to the prices from which a line leads.
    fn return_to(&mut self, start: &SpanPrices, prices: &mut SpanPrices) {
        for (number, money) in start.money.iter().enumerate() {
            if prices.money_of(number) != *money {
                self.charges.forget_span(number);
            }
        }
        prices.copy(start);
    }

    // Lets the weights of the single classes in the run of a gift follow their money.
    fn follow_run(
        &mut self,
        layout: &Layout,
        start: &SpanPrices,
        prices: &mut SpanPrices,
        laid: &LaidGift,
    ) {
        let run = layout.spans.get(laid.first_single..laid.end_single);
        let mut single = laid.first_single;
        for span in run.unwrap_or(&[]) {
            let new = prices.money_of(single);
            follow(prices, span, start.money_of(single), new);
            self.charges.forget_span(single);
            single = single.wrapping_add(1);
        }
    }

    // Values the prices at which a gift, which has none in `start`, has an amount.
    fn try_amount(
        &mut self,
        layout: &Layout,
        nets: &mut Nets,
        start: &SpanPrices,
        prices: &mut SpanPrices,
        number: usize,
        amount: u64,
    ) -> Result<(), NoMemory> {
        self.return_to(start, prices);
        if let Some(place) = prices.amounts.get_mut(number) {
            *place = amount;
        }
        prices.spread(layout, &mut self.charges.stale);
        if let Some(laid) = layout.gifts.get(number) {
            self.follow_run(layout, start, prices, laid);
        }
        prices.set_costs(layout, nets);
        self.find_value(layout, nets, prices)
    }

    /// Gives a gift that has no amount the one of some by which the prices are worth most, as long as
    /// more is worth more, and none where they are worth most without. The prices are valued after it.
    /// `NoMemory` only where no memory is found.
    pub(crate) fn search_line(
        &mut self,
        alloc: Global,
        layout: &Layout,
        nets: &mut Nets,
        prices: &mut SpanPrices,
        number: usize,
    ) -> Result<(), NoMemory> {
        let Some(laid) = layout.gifts.get(number) else {
            return Ok(());
        };
        let start = prices.copied(alloc)?;
        let (mut best, mut amount) = (self.value, 0u64);
        for (tries, part) in PARTS.iter().enumerate() {
            let tried = part_of(laid, *part);
            self.try_amount(layout, nets, &start, prices, number, tried)?;
            if self.value > best {
                best = self.value;
                amount = tried;
            } else if tries >= LEAST_TRIES {
                break;
            }
        }
        self.try_amount(layout, nets, &start, prices, number, amount)
    }
}
