//! Gifts for the trucks of runs of classes.

use crate::NoMemory;
use crate::groups::{Groups, Member};
use crate::layouts::{Layout, Run};
use crate::payers::Payer;
use fp_duals_nets::ArcMoney;
use std::alloc::Global;

// The amount of a gift because at most so many trucks leave comes to what so many trucks cost at most.
const MOST_TRUCKS: u64 = 8;

/// A gift for each truck that leaves in a run, of which the amount is sought.
#[derive(Clone, Copy, Debug, PartialEq, Eq)]
pub struct RunGift {
    pub run: Run,
    /// Whether it's given because at least so many trucks leave, and taken off the money of the
    /// spans of single classes; otherwise because at most so many do, and added to their money.
    pub least: bool,
    /// For how many trucks it's given.
    pub trucks: u64,
}

/// A gift that is laid over the spans of single classes within its run.
#[derive(Clone, Copy)]
pub struct LaidGift {
    pub gift: RunGift,
    /// What a truck costs, and the most that the amount may be.
    pub truck: u64,
    pub most: u64,
    /// The spans of single classes within its run; of a gift because at most so many trucks leave
    /// without one that holds beyond the run.
    pub first_single: usize,
    pub end_single: usize,
}

// The gifts of a layout of one of the two kinds, grouped by the spans of single classes within their runs.
fn over_singles(alloc: Global, layout: &Layout, least: bool) -> Result<Groups, NoMemory> {
    let mut members = Vec::new(alloc);
    let mut number = 0usize;
    for laid in &layout.gifts {
        if laid.gift.least == least {
            for group in laid.first_single..laid.end_single {
                members.push(Member { group, number })?;
            }
        }
        number = number.wrapping_add(1);
    }
    Groups::of(alloc, &members, layout.singles)
}

impl Layout {
    // Where the spans of single classes before `end` end, without the last one if it holds beyond a time:
    // it may not have money there that is given before alone.
    fn end_within(&self, end: usize, time: u32) -> usize {
        let last = end.wrapping_sub(1);
        match self.spans.get(last) {
            Some(span) if span.run.until > time => last,
            _ => end,
        }
    }

    /// The layout with these gifts in the place of those that it has. Those by an arc that isn't there
    /// are left out. `NoMemory` only where no memory is found.
    pub fn give(
        self,
        alloc: Global,
        arcs: &[ArcMoney],
        gifts: &[RunGift],
    ) -> Result<Layout, NoMemory> {
        let mut layout = self;
        layout.gifts.clear();
        for gift in gifts {
            if let Some(arc) = arcs.get(gift.run.arc as usize) {
                let (first_single, end) = layout.singles_of(&gift.run);
                let (trucks, end_single) = if gift.least {
                    (1, end)
                } else {
                    (MOST_TRUCKS, layout.end_within(end, gift.run.until))
                };
                layout.gifts.push(LaidGift {
                    gift: *gift,
                    truck: arc.truck,
                    most: arc.truck.saturating_mul(trucks),
                    first_single,
                    end_single,
                })?;
            }
        }
        layout.least_over = over_singles(alloc, &layout, true)?;
        layout.most_over = over_singles(alloc, &layout, false)?;
        Ok(layout)
    }

    /// The most that a payer may pay: what the trucks cost that hold the shipment alone, and where its
    /// span begins under a gift because at most so many trucks leave what they have with its greatest
    /// amount.
    pub fn most_weight(&self, payer: &Payer) -> u64 {
        let single = self
            .spans
            .get(payer.span)
            .map_or(0, |span| span.first_single);
        if self.most_over.group(single).is_empty() {
            payer.most
        } else {
            payer.most.saturating_mul(1 + MOST_TRUCKS)
        }
    }
}
