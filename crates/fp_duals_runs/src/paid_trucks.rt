//! How many trucks of each arc the averaged walks of an ascent pay for.

use crate::NoMemory;
use crate::averages::{Averages, ONE};
use fp_duals_layouts::{Charges, LaidSpan, Layout, Payer, SpanPrices};
use std::alloc::Global;

/// The parts of a truck.
pub const TRUCK_PARTS: u64 = ONE;

/// An arc, and how many trucks of it the averaged walks of a search pay for, in parts of
/// `TRUCK_PARTS`.
#[derive(Clone, Copy, Debug, PartialEq, Eq)]
pub struct PaidTrucks {
    pub arc: u32,
    pub trucks: u64,
}

// What is paid by spans and what they are charged, in parts of `TRUCK_PARTS` of what a truck costs.
#[derive(Clone, Copy)]
struct Balance {
    paid: u128,
    charged: u128,
}

// What trucks are paid by.
#[derive(Clone, Copy)]
struct Payments<'a> {
    layout: &'a Layout,
    prices: &'a SpanPrices,
    averages: &'a Averages,
    charges: &'a Charges,
}

// A part of a truck, in parts of `TRUCK_PARTS`, where an amount is in parts of `ONE`.
fn trucks_for(amount: u128, truck: u64) -> u128 {
    amount / u128::from(truck.max(1))
}

impl Payments<'_> {
    // How much of the averaged walks of a shipment uses the single classes of a span, in parts of `ONE`.
    fn classes_use(&self, shipment: u32, span: &LaidSpan) -> u64 {
        let classes = span.first_single..span.end_single;
        let mut sum = 0u64;
        for number in self.layout.own.group(shipment as usize) {
            if let Some(payer) = self.layout.payers.get(*number)
                && classes.contains(&payer.span)
            {
                sum = sum.saturating_add(self.averages.use_of(*number));
            }
        }
        sum
    }

    // How much of them uses what a payer of a span pays for. Uses are known by the spans of single
    // classes: by one that is joined a payer pays for several of them.
    fn payer_use(&self, number: usize, payer: &Payer, span: &LaidSpan) -> u64 {
        if payer.span < self.layout.singles {
            self.averages.use_of(number)
        } else {
            self.classes_use(payer.shipment, span)
        }
    }

    // What the payers of a span pay for the averaged walks, in parts of `ONE`.
    fn paid(&self, span: &LaidSpan) -> u128 {
        let mut sum = 0u128;
        for number in span.first..span.end {
            if let Some(payer) = self.layout.payers.get(number) {
                let weight = u128::from(self.prices.weight(number));
                let used = u128::from(self.payer_use(number, payer, span));
                sum = sum.saturating_add(weight.saturating_mul(used));
            }
        }
        sum
    }

    // What a truck costs with the gifts over the first class of a span.
    fn truck(&self, span: &LaidSpan) -> u64 {
        let number = span.first_single;
        match self.layout.spans.get(number) {
            Some(single) => self.prices.truck_left(self.layout, number, single),
            None => span.truck,
        }
    }

    // Adds what is paid by a span, and what it's charged.
    fn add(&self, number: usize, span: &LaidSpan, balance: &mut Balance) {
        let truck = self.truck(span);
        let charges = self.charges;
        let charge = charges.list.get(number).copied().unwrap_or(0);
        let charge = u128::from(charge).saturating_mul(u128::from(ONE));
        balance.paid = balance
            .paid
            .saturating_add(trucks_for(self.paid(span), truck));
        balance.charged = balance.charged.saturating_add(trucks_for(charge, truck));
    }

    // The balances of so many arcs.
    fn balances(&self, alloc: Global, arcs: usize) -> Result<Vec<Balance>, NoMemory> {
        let none = Balance {
            paid: 0,
            charged: 0,
        };
        let mut balances = vec![in alloc; none; arcs]?;
        for (number, span) in self.layout.spans.iter().enumerate() {
            if let Some(balance) = balances.get_mut(span.run.arc as usize) {
                self.add(number, span, balance);
            }
        }
        Ok(balances)
    }
}

/// How many trucks of each arc, of so many in their order, the averaged walks of an ascent to these
/// prices pay for: what its payers pay by their averaged uses, less what its spans are charged at these
/// prices, by what a truck costs with gifts. `NoMemory` only where no memory is found.
pub fn paid_by_arc(
    alloc: Global,
    layout: &Layout,
    prices: &SpanPrices,
    averages: &Averages,
    charges: &Charges,
    arcs: usize,
) -> Result<Vec<PaidTrucks>, NoMemory> {
    let payments = Payments {
        layout,
        prices,
        averages,
        charges,
    };
    let mut list = Vec::with_capacity(alloc, arcs)?;
    let mut arc = 0u32;
    for balance in &payments.balances(alloc, arcs)? {
        let trucks = balance.paid.saturating_sub(balance.charged);
        list.push(PaidTrucks {
            arc,
            trucks: trucks.min(u128::from(u64::MAX)) as u64,
        })?;
        arc = arc.wrapping_add(1);
    }
    Ok(list)
}
