//! The gifts of some prices, and the spans that have to hold beside them.

use crate::NoMemory;
use fp_duals_layouts::{LaidGift, Layout, SpanPrices};
use fp_duals_nets::{ArcMoney, MoneyUnit};
use fp_prices_gifts::Gift;
use fp_prices_spans::Span;
use std::alloc::Global;

// A laid gift with an amount.
fn gift_with(laid: &LaidGift, amount: u128) -> Gift {
    let run = laid.gift.run;
    Gift {
        arc: run.arc,
        point: run.point,
        until: run.until,
        least: laid.gift.least,
        amount,
    }
}

/// The gifts of a layout that have an amount. `NoMemory` only where no memory is found.
pub fn proposed_gifts(
    alloc: Global,
    layout: &Layout,
    prices: &SpanPrices,
    unit: MoneyUnit,
) -> Result<Vec<Gift>, NoMemory> {
    let mut gifts = Vec::new(alloc);
    for (laid, amount) in layout.gifts.iter().zip(prices.amounts.iter()) {
        if *amount > 0 {
            gifts.push(gift_with(laid, unit.outer(*amount)))?;
        }
    }
    Ok(gifts)
}

// Whether a span holds for the whole run of a gift.
fn holds_for_run(span: &Span, gift: &Gift) -> bool {
    span.arc == gift.arc && span.point <= gift.point && gift.until <= span.until
}

// Whether one of some spans holds for the whole run of a gift.
fn is_held(spans: &[Span], gift: &Gift) -> bool {
    for span in spans {
        if holds_for_run(span, gift) {
            return true;
        }
    }
    false
}

// A span of the run of a gift that nobody pays by.
fn empty_span(alloc: Global, gift: &Gift) -> Span {
    Span {
        arc: gift.arc,
        point: gift.point,
        until: gift.until,
        money: 0,
        charge: 0,
        weights: Vec::new(alloc),
        groups: Vec::new(alloc),
    }
}

/// Adds spans, by which nobody pays, so that spans hold for all classes of the runs of the gifts because
/// at least so many trucks leave: by prices of a table shipments would pay the whole truck there.
/// `NoMemory` only where no memory is found.
pub fn hold_runs(alloc: Global, gifts: &[Gift], spans: &mut Vec<Span>) -> Result<(), NoMemory> {
    for gift in gifts {
        if gift.least && !is_held(spans, gift) {
            spans.push(empty_span(alloc, gift))?;
        }
    }
    Ok(())
}

// Whether a time lies in a run that begins and ends so.
fn has_time(point: u32, until: u32, time: u32) -> bool {
    point <= time && time < until
}

// What spans have of money for a truck of an arc at a time.
fn money_at(spans: &[Span], arc: u32, time: u32) -> u128 {
    let mut sum = 0u128;
    for span in spans {
        if span.arc == arc && has_time(span.point, span.until, time) {
            sum = sum.saturating_add(span.money);
        }
    }
    sum
}

// What the gifts of one of the two kinds give for such a truck.
fn given_at(gifts: &[Gift], least: bool, arc: u32, time: u32) -> u128 {
    let mut sum = 0u128;
    for gift in gifts {
        if gift.arc == arc && gift.least == least && has_time(gift.point, gift.until, time) {
            sum = sum.saturating_add(gift.amount);
        }
    }
    sum
}

// What spans and gifts have for a truck of an arc at a time beyond what it costs and what is given
// because at most so many leave.
fn excess_at(arcs: &[ArcMoney], spans: &[Span], gifts: &[Gift], arc: u32, time: u32) -> u128 {
    let truck = arcs.get(arc as usize).map_or(0, |money| money.truck_parts);
    let most = truck.saturating_add(given_at(gifts, false, arc, time));
    money_at(spans, arc, time)
        .saturating_add(given_at(gifts, true, arc, time))
        .saturating_sub(most)
}

// The greatest excess in the run of a gift: it is as at some of the times at which a run begins or ends.
fn greatest_excess(arcs: &[ArcMoney], spans: &[Span], gifts: &[Gift], gift: &Gift) -> u128 {
    let arc = gift.arc;
    let mut most = excess_at(arcs, spans, gifts, arc, gift.point);
    for span in spans {
        for time in [span.point, span.until] {
            if span.arc == arc && has_time(gift.point, gift.until, time) {
                most = most.max(excess_at(arcs, spans, gifts, arc, time));
            }
        }
    }
    for other in gifts {
        for time in [other.point, other.until] {
            if other.arc == arc && has_time(gift.point, gift.until, time) {
                most = most.max(excess_at(arcs, spans, gifts, arc, time));
            }
        }
    }
    most
}

/// Cuts gifts because at least so many trucks leave until spans and gifts have no more together than
/// what trucks cost and what is given because at most so many leave, also at times at which no class
/// begins that is priced. Those of which nothing is left are left out.
pub fn cut_gifts(arcs: &[ArcMoney], spans: &[Span], gifts: &mut Vec<Gift>) {
    for place in 0..gifts.len() {
        if let Some(gift) = gifts.get(place).copied()
            && gift.least
        {
            let excess = greatest_excess(arcs, spans, gifts, &gift);
            if let Some(gift) = gifts.get_mut(place) {
                gift.amount = gift.amount.saturating_sub(excess);
            }
        }
    }
    gifts.retain(|gift| gift.amount > 0);
}
