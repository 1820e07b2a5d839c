//! The subgradient ascent: prices move along an averaged direction towards a level above the best
//! value, and what they come to too much is charged.

use crate::NoMemory;
use crate::efforts::SpanEffort;
use fp_duals_ascent::{Target, Way, rate};
use fp_duals_clashes::{Clashes, Ground};
use fp_duals_directions::Direction;
use fp_duals_layouts::{Charges, Layout, SpanPrices, change_costs};
use fp_duals_nets::Nets;
use fp_duals_runs::Averages;
use fp_ends::{Deadline, Resources};
use std::alloc::Global;

/// Where the ascent stands.
#[derive(Drop)]
pub(crate) struct Climb {
    direction: Direction,
    averages: Averages,
    pub charges: Charges,
    /// The value of the prices.
    pub value: u64,
    // The value at the start, and the target above the best value.
    start: u64,
    target: Target,
    best_prices: SpanPrices,
}

// Where an amount up to `most` goes by `rate`, in parts of 2^20, times a mean.
fn moved(amount: u64, most: u64, mean: i64, rate: u64) -> u64 {
    let step = u128::from(rate).saturating_mul(u128::from(mean.unsigned_abs())) >> 20;
    let step = step.min(u128::from(u64::MAX)) as u64;
    if mean > 0 {
        amount.saturating_add(step).min(most)
    } else {
        amount.saturating_sub(step)
    }
}

impl Climb {
    // At the start, from the prices as they are.
    fn of(
        alloc: Global,
        layout: &Layout,
        nets: &mut Nets,
        prices: &SpanPrices,
        effort: &SpanEffort,
        merges: bool,
    ) -> Result<Climb, NoMemory> {
        let small = layout.payers.len() <= effort.small as usize;
        let least = if small { 1 } else { effort.least_level };
        let mut climb = Climb {
            direction: Direction::of(alloc, layout, nets.list.len(), effort.fresh)?,
            averages: Averages::of(alloc, layout, effort.joins > 0, effort.fresh)?,
            charges: Charges::of(alloc, layout, u64::from(effort.loads), merges)?,
            value: 0,
            start: 0,
            target: Target::of(0, 0, effort.level, least, effort.patience),
            best_prices: prices.copied(alloc)?,
        };
        prices.set_costs(layout, nets);
        climb.find_value(layout, nets, prices)?;
        climb.note_start();
        Ok(climb)
    }

    // The prices as they are are the start and the best.
    fn note_start(&mut self) {
        self.start = self.value;
        self.target.best = self.value;
    }

    /// Finds the value of the prices whose costs are set.
    pub(crate) fn find_value(
        &mut self,
        layout: &Layout,
        nets: &mut Nets,
        prices: &SpanPrices,
    ) -> Result<(), NoMemory> {
        let least = self.direction.find_walks(nets)?;
        let charges = self.charges.find_all(layout, prices)?;
        self.value = prices.value(layout, least, charges);
        Ok(())
    }

    // Moves all weights by `rate` times the direction, and sets the costs.
    fn move_weights(
        &mut self,
        layout: &Layout,
        nets: &mut Nets,
        prices: &mut SpanPrices,
        rate: u64,
    ) {
        for place in 0..self.direction.pulled.len() {
            let number = self.direction.pulled_at(place);
            let mean = self.direction.pull(number);
            if let Some(payer) = layout.payers.get(number)
                && let Some(weight) = prices.weights.get_mut(number)
            {
                let most = layout.most_weight(payer);
                let new = moved(*weight, most, mean, rate);
                if new != *weight {
                    change_costs(&mut nets.edges, layout.edges_of(payer), *weight, new);
                    *weight = new;
                    self.charges.forget_span(payer.span);
                }
            }
        }
    }

    // Moves the amounts of gifts by `rate` times what they gain.
    fn move_gifts(&self, layout: &Layout, prices: &mut SpanPrices, rate: u64) {
        for (laid, amount) in layout.gifts.iter().zip(prices.amounts.iter_mut()) {
            *amount = moved(*amount, laid.most, self.direction.gift_gain(laid), rate);
        }
    }

    // Moves the money of joined spans, and gifts, by `rate` times what it gains.
    fn move_money(&mut self, layout: &Layout, prices: &mut SpanPrices, rate: u64) {
        for number in layout.singles..layout.spans.len() {
            let gain = self.direction.gain(layout, number);
            if let Some(span) = layout.spans.get(number)
                && let Some(money) = prices.money.get_mut(number)
                && let Some(stale) = self.charges.stale.get_mut(number)
            {
                // Under a gift it may have more than a truck costs.
                let new = moved(*money, span.truck.max(*money), gain, rate);
                *stale |= new != *money;
                *money = new;
            }
        }
        self.move_gifts(layout, prices, rate);
        prices.spread(layout, &mut self.charges.stale);
    }

    // Goes back to the best prices.
    fn return_to_best(
        &mut self,
        layout: &Layout,
        nets: &mut Nets,
        prices: &mut SpanPrices,
    ) -> Result<(), NoMemory> {
        prices.copy(&self.best_prices);
        prices.set_costs(layout, nets);
        self.charges.forget();
        self.find_value(layout, nets, prices)
    }

    // Moves the prices once. Whether there is a way to go.
    fn step(
        &mut self,
        layout: &Layout,
        nets: &mut Nets,
        prices: &mut SpanPrices,
        turn: u32,
    ) -> Result<bool, NoMemory> {
        self.direction.turn(layout, nets, &self.charges, turn == 0)?;
        self.averages
            .turn(nets, &self.direction.walks, &self.charges, turn);
        self.direction.gather(prices)?;
        let norm = self.direction.norm(layout, prices);
        if norm == 0 {
            return Ok(false);
        }
        // The step is measured from the best value.
        let step = rate(self.target.gap(self.target.best), norm);
        self.move_weights(layout, nets, prices, step);
        if layout.spans.len() > layout.singles || !layout.gifts.is_empty() {
            self.move_money(layout, prices, step);
        }
        self.find_value(layout, nets, prices)?;
        if self.target.note(self.value) {
            self.best_prices.copy(prices);
        }
        Ok(true)
    }

    // Gives those gifts an amount that have none and by which the prices are worth more.
    fn begin_gifts<D: Deadline>(
        &mut self,
        resources: &Resources<D>,
        layout: &Layout,
        nets: &mut Nets,
        prices: &mut SpanPrices,
    ) -> Result<(), NoMemory> {
        for number in 0..layout.gifts.len() {
            if prices.amount_of(number) == 0 && !resources.is_over() {
                self.search_line(resources.alloc, layout, nets, prices, number)?;
            }
        }
        self.best_prices.copy(prices);
        self.note_start();
        Ok(())
    }

    // Lets the target come nearer where too many turns had little gain. Whether there is more to
    // do.
    fn come_nearer(
        &mut self,
        layout: &Layout,
        nets: &mut Nets,
        prices: &mut SpanPrices,
    ) -> Result<bool, NoMemory> {
        let way = self.target.come_nearer();
        // Before the first gain the way on is better than the start again.
        if way == Way::Nearer && self.target.best > self.start {
            self.return_to_best(layout, nets, prices)?;
        }
        Ok(way != Way::End)
    }
}

// In each turn of so many least walks vote for points.
const VOTING: u32 = 4;

/// Moves the prices by the spans of a layout to better ones, where `merges` with groups merged that
/// are charged no more together, and else with votes for points. The averages over the turns.
pub(crate) fn ascend<D: Deadline>(
    resources: &Resources<D>,
    layout: &Layout,
    nets: &mut Nets,
    prices: &mut SpanPrices,
    effort: &SpanEffort,
    merges: bool,
    ground: &mut Ground,
) -> Result<Averages, NoMemory> {
    let mut clashes = Clashes::of(resources.alloc, layout)?;
    let mut climb = Climb::of(resources.alloc, layout, nets, prices, effort, merges)?;
    if !layout.gifts.is_empty() {
        climb.begin_gifts(resources, layout, nets, prices)?;
    }
    for turn in 0..effort.turns {
        if !merges && turn % VOTING == 0 {
            let walks = &climb.direction.walks;
            clashes.vote(layout, nets, walks, &climb.charges, ground)?;
        }
        if !climb.step(layout, nets, prices, turn)? {
            break;
        }
        if !climb.come_nearer(layout, nets, prices)? || resources.is_over() {
            break;
        }
    }
    prices.copy(&climb.best_prices);
    prices.set_costs(layout, nets);
    Ok(climb.averages)
}
