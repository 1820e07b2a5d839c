//! The spans of some prices, with the least charges that pay, and the gifts.

use crate::NoMemory;
use crate::keeping::Kept;
use fp_duals_gifts::{cut_gifts, hold_runs, proposed_gifts};
use fp_duals_layouts::{LaidSpan, Layout, MomentGroups, Payer, SpanPrices, of_span};
use fp_duals_nets::{ArcMoney, MoneyUnit};
use fp_prices::Weight;
use fp_prices_gifts::Gift;
use fp_prices_knapsack::{Item, Knapsack};
use fp_prices_spans::Span;
use std::alloc::Global;

/// Spans and gifts that are proposed for a leaf.
#[derive(Drop)]
pub struct Proposed {
    /// In order, each with the least charge that pays.
    pub spans: Vec<Span>,
    /// Each with an amount above 0.
    pub gifts: Vec<Gift>,
}

/// Prices by the spans of a layout, as they are proposed.
#[derive(Clone, Copy)]
pub(crate) struct Proposal<'a> {
    pub layout: &'a Layout,
    pub prices: &'a SpanPrices,
    pub kept: &'a Kept<'a>,
    pub arcs: &'a [ArcMoney],
    pub unit: MoneyUnit,
}

// What charges are found with, kept from span to span.
#[derive(Drop)]
struct Tools {
    knapsack: Knapsack,
    groups: MomentGroups,
    items: Vec<Item>,
    // The payers of the newest groups that are merged, and where groups begin after the first.
    members: Vec<usize>,
    begins: Vec<u32>,
}

impl Tools {
    // Finds the groups of a span, of which none is merged.
    fn begin(&mut self, proposal: &Proposal<'_>, span: &LaidSpan) -> Result<(), NoMemory> {
        self.members.clear();
        self.begins.clear();
        let weights = &proposal.prices.weights;
        self.groups.find(proposal.layout, span, weights, usize::MAX)
    }

    // Merges a group with the newest ones.
    fn merge(&mut self, layout: &Layout, number: usize) -> Result<(), NoMemory> {
        let newcomers = self.groups.newcomers(layout, number);
        self.members.extend_from_slice(newcomers)
    }

    // Parts a group from those before it.
    fn part(&mut self, number: usize) -> Result<(), NoMemory> {
        if number > 0 {
            self.begins.push(self.groups.begin(number))?;
        }
        self.members.clear();
        self.members.extend_from_slice(self.groups.group(number))
    }
}

// The weights of payers, by shipment.
fn weights_of(
    alloc: Global,
    payers: &[Payer],
    weights: &[u64],
    unit: MoneyUnit,
) -> Result<Vec<Weight>, NoMemory> {
    let mut list = Vec::new(alloc);
    for (payer, weight) in payers.iter().zip(weights.iter()) {
        if *weight > 0 {
            list.push(Weight {
                shipment: payer.shipment,
                w: unit.outer(*weight),
            })?;
        }
    }
    Ok(list)
}

impl Proposal<'_> {
    // What the gifts with these numbers come to.
    fn given(&self, gifts: &[usize]) -> u128 {
        let mut sum = 0u128;
        for gift in gifts {
            sum = sum.saturating_add(self.unit.outer(self.prices.amount_of(*gift)));
        }
        sum
    }

    // The money of a span: of a single class what the kept ones that are joined over it, and gifts,
    // leave of the cost of a truck.
    fn money(&self, number: usize, arc: &ArcMoney) -> u128 {
        if number >= self.layout.singles {
            return self.unit.outer(self.prices.money_of(number));
        }
        let more = self.given(self.layout.most_over.group(number));
        let taken = self.given(self.layout.least_over.group(number));
        let mut left = arc.truck_parts.saturating_add(more).saturating_sub(taken);
        for joined in self.layout.covers.group(number) {
            if self.kept.has(*joined) {
                left = left.saturating_sub(self.unit.outer(self.prices.money_of(*joined)));
            }
        }
        left
    }

    // Puts payers in as items of a knapsack.
    fn list_items(&self, payers: &[usize], items: &mut Vec<Item>) -> Result<(), NoMemory> {
        for number in payers {
            if let Some(payer) = self.layout.payers.get(*number) {
                items.push(Item {
                    size: payer.size,
                    weight: self.unit.outer(self.prices.weight(*number)),
                })?;
            }
        }
        Ok(())
    }

    // The least charge that pays for a group, or for the newest groups that are merged and this
    // one; `None` where none does.
    fn group_charge(
        &self,
        tools: &mut Tools,
        span: &LaidSpan,
        money: u128,
        number: usize,
        merged: bool,
    ) -> Result<Option<u128>, NoMemory> {
        tools.items.clear();
        if merged {
            self.list_items(&tools.members, &mut tools.items)?;
            let newcomers = tools.groups.newcomers(self.layout, number);
            self.list_items(newcomers, &mut tools.items)?;
        } else {
            self.list_items(tools.groups.group(number), &mut tools.items)?;
        }
        tools
            .knapsack
            .least_charge(&tools.items, span.capacity.max(1), money)
    }

    // The least charge that pays for all groups of a span, where neighbours are merged that are
    // charged no more together; `None` where none does. Lists where the groups that are left begin.
    fn charge(
        &self,
        tools: &mut Tools,
        span: &LaidSpan,
        money: u128,
    ) -> Result<Option<u128>, NoMemory> {
        tools.begin(self, span)?;
        let (mut sum, mut newest) = (0u128, 0u128);
        for number in 0..tools.groups.count() {
            let Some(next) = self.group_charge(tools, span, money, number, false)? else {
                return Ok(None);
            };
            let both = match number {
                0 => None,
                _ => self.group_charge(tools, span, money, number, true)?,
            };
            match both {
                Some(both) if both <= newest.saturating_add(next) => {
                    newest = both;
                    tools.merge(self.layout, number)?;
                }
                _ => {
                    let Some(more) = sum.checked_add(newest) else {
                        return Ok(None);
                    };
                    sum = more;
                    newest = next;
                    tools.part(number)?;
                }
            }
        }
        Ok(sum.checked_add(newest))
    }

    // The span with so much money and the least charge that pays; `None` where none does.
    fn span(
        &self,
        alloc: Global,
        tools: &mut Tools,
        span: &LaidSpan,
        money: u128,
    ) -> Result<Option<Span>, NoMemory> {
        let Some(charge) = self.charge(tools, span, money)? else {
            return Ok(None);
        };
        let payers: &[Payer] = of_span(&self.layout.payers, span);
        let weights: &[u64] = of_span(&self.prices.weights, span);
        let mut groups = Vec::new(alloc);
        groups.extend_from_slice(&tools.begins)?;
        Ok(Some(Span {
            arc: span.run.arc,
            point: span.run.point,
            until: span.run.until,
            money,
            charge,
            weights: weights_of(alloc, payers, weights, self.unit)?,
            groups,
        }))
    }

    /// The kept spans in order, with the least charges that pay, and the gifts.
    pub(crate) fn proposed(&self, alloc: Global) -> Result<Proposed, NoMemory> {
        let mut spans = self.spans(alloc)?;
        let mut gifts = proposed_gifts(alloc, self.layout, self.prices, self.unit)?;
        hold_runs(alloc, &gifts, &mut spans)?;
        spans.sort_by_key(|span: &Span| (span.arc, span.point, span.until))?;
        cut_gifts(self.arcs, &spans, &mut gifts);
        Ok(Proposed { spans, gifts })
    }

    // The kept spans with the least charges that pay.
    fn spans(&self, alloc: Global) -> Result<Vec<Span>, NoMemory> {
        let mut tools = Tools {
            knapsack: Knapsack::new(alloc),
            groups: MomentGroups::new(alloc),
            items: Vec::new(alloc),
            members: Vec::new(alloc),
            begins: Vec::new(alloc),
        };
        let mut spans = Vec::new(alloc);
        for number in 0..self.layout.spans.len() {
            if self.kept.has(number)
                && let Some(span) = self.layout.spans.get(number)
                && let Some(arc) = self.arcs.get(span.run.arc as usize)
            {
                let money = self.money(number, arc);
                if let Some(found) = self.span(alloc, &mut tools, span, money)? {
                    spans.push(found)?;
                }
            }
        }
        Ok(spans)
    }
}
