//! The charge of a span: that of its groups together.

use crate::NoMemory;
use crate::layouts::{LaidSpan, Layout};
use crate::moment_groups::MomentGroups;
use crate::prices::SpanPrices;
use fp_duals_sets::{Finding, Sets, Terms};
use std::alloc::Global;

/// No payer's number.
pub(crate) const NOBODY: usize = usize::MAX;

/// A span with the prices of its layout, and by what sets of its payers are weighed.
#[derive(Clone, Copy)]
pub(crate) struct Weighed<'a> {
    pub layout: &'a Layout,
    pub span: &'a LaidSpan,
    pub prices: &'a SpanPrices,
    pub terms: Terms,
}

/// The groups of a span and the sets in them. The memory is kept from span to span.
#[derive(Drop)]
pub(crate) struct GroupCharges {
    sets: Sets,
    groups: MomentGroups,
    // The payers of the newest group, or of several that are merged.
    members: Vec<usize>,
    // Whether neighbours are merged that are charged no more together.
    merges: bool,
}

// Takes payers in, but for one.
fn take_in(
    sets: &mut Sets,
    weighed: Weighed<'_>,
    members: &[usize],
    without: usize,
) -> Result<(), NoMemory> {
    for number in members {
        if let Some(payer) = weighed.layout.payers.get(*number)
            && *number != without
        {
            sets.add(payer.size, weighed.prices.weight(*number), *number)?;
        }
    }
    Ok(())
}

impl GroupCharges {
    /// No groups, and whether neighbours are merged that are charged no more together.
    pub(crate) fn new(alloc: Global, merges: bool) -> GroupCharges {
        GroupCharges {
            sets: Sets::new(alloc),
            groups: MomentGroups::new(alloc),
            members: Vec::new(alloc),
            merges,
        }
    }

    // The charge of a group. Counts one set more for those whom it charges.
    fn charge(
        &mut self,
        weighed: Weighed<'_>,
        group: usize,
        counts: &mut [u32],
    ) -> Result<Finding, NoMemory> {
        self.sets.clear();
        take_in(&mut self.sets, weighed, self.groups.group(group), NOBODY)?;
        self.sets.charge(weighed.terms, counts)
    }

    // The charge of the newest groups that are merged and of one more together; of the former alone
    // where there is no such group.
    fn merged_charge(
        &mut self,
        weighed: Weighed<'_>,
        group: usize,
        counts: &mut [u32],
    ) -> Result<Finding, NoMemory> {
        self.sets.clear();
        take_in(&mut self.sets, weighed, &self.members, NOBODY)?;
        let newcomers = self.groups.newcomers(weighed.layout, group);
        take_in(&mut self.sets, weighed, newcomers, NOBODY)?;
        self.sets.charge(weighed.terms, counts)
    }

    /// The charge of a span. Counts one set more for those whom each group charges.
    pub(crate) fn find(
        &mut self,
        weighed: Weighed<'_>,
        counts: &mut [u32],
    ) -> Result<Finding, NoMemory> {
        self.groups.find(
            weighed.layout,
            weighed.span,
            &weighed.prices.weights,
            NOBODY,
        )?;
        if self.merges && self.groups.count() > 1 {
            return self.find_merged(weighed, counts);
        }
        let mut sum = Finding::of_none(weighed.terms.money);
        for group in 0..self.groups.count() {
            sum = sum.with(self.charge(weighed, group, counts)?);
        }
        Ok(sum)
    }

    // The same, where neighbours are merged.
    fn find_merged(
        &mut self,
        weighed: Weighed<'_>,
        counts: &mut [u32],
    ) -> Result<Finding, NoMemory> {
        let mut sum = Finding::of_none(weighed.terms.money);
        let mut newest = sum;
        self.members.clear();
        for group in 0..self.groups.count() {
            let next = self.charge(weighed, group, &mut [])?;
            if newest.charge > 0 && next.charge > 0 {
                let both = self.merged_charge(weighed, group, &mut [])?;
                if both.charge <= newest.charge.saturating_add(next.charge) {
                    let newcomers = self.groups.newcomers(weighed.layout, group);
                    self.members.extend_from_slice(newcomers)?;
                    newest = both;
                    continue;
                }
            }
            sum = sum.with(self.close(weighed, newest, counts)?);
            self.members.clear();
            self.members.extend_from_slice(self.groups.group(group))?;
            newest = next;
        }
        Ok(sum.with(self.close(weighed, newest, counts)?))
    }

    // Counts those whom the newest groups that are merged charge, where they are charged.
    fn close(
        &mut self,
        weighed: Weighed<'_>,
        newest: Finding,
        counts: &mut [u32],
    ) -> Result<Finding, NoMemory> {
        if newest.charge == 0 {
            return Ok(newest);
        }
        self.merged_charge(weighed, usize::MAX, counts)
    }

    /// The most that a payer may pay beside the others while no group's charge rises, where the
    /// charge of the span is known.
    pub(crate) fn room(
        &mut self,
        weighed: Weighed<'_>,
        payer: usize,
        charge: u64,
    ) -> Result<u64, NoMemory> {
        self.groups.find(weighed.layout, weighed.span, &weighed.prices.weights, payer)?;
        let size = weighed
            .layout
            .payers
            .get(payer)
            .map_or(0, |paying| paying.size);
        let mut least = u64::MAX;
        for group in 0..self.groups.count() {
            if self.groups.group(group).contains(&payer) {
                let known = self.known_charge(weighed, group, payer, charge)?;
                self.sets.clear();
                take_in(&mut self.sets, weighed, self.groups.group(group), payer)?;
                least = self.sets.room(weighed.terms, size, known)?.min(least);
            }
        }
        Ok(least)
    }

    // What a group of a payer is charged, where the charge of the span is known: all of it where
    // the span has one group. A group that may be there only for a payer that pays nothing isn't
    // charged.
    fn known_charge(
        &mut self,
        weighed: Weighed<'_>,
        group: usize,
        payer: usize,
        charge: u64,
    ) -> Result<u64, NoMemory> {
        if charge == 0 || self.groups.count() == 1 {
            return Ok(charge);
        }
        if weighed.prices.weight(payer) == 0 {
            return Ok(0);
        }
        Ok(self.charge(weighed, group, &mut [])?.charge)
    }
}
