//! Runs of classes over which joined spans may gain: the shipments that surely use them need more
//! trucks than the classes have one by one.

use crate::NoMemory;
use crate::averages::{Averages, ONE};
use fp_duals_layouts::{LaidSpan, Layout, Run, SpanPrices, of_span};
use std::alloc::Global;

/// Who uses the classes of a run less than this, in parts of `ONE`, isn't counted.
const LEAST_USE: u64 = ONE * 3 / 10;

/// The least number of trucks, in parts of `ONE`, that a run has to lack.
const LEAST_MISSED: u64 = ONE / 10;

/// The most runs that are found for one arc at a time.
const RUNS_PER_ARC: usize = 2;

// How much a shipment uses a run, in parts of `ONE`, and its size.
type User = (u64, u64);

// How little a run lacks, and its first and last single classes.
type Find = (u64, usize, usize);

// How much better a run of one class less is, where it lacks as much.
const NARROWER: u64 = ONE / 10_000;

// The search for runs.
#[derive(Drop)]
struct Separation<'a> {
    layout: &'a Layout,
    prices: &'a SpanPrices,
    averages: &'a Averages,
    // How much each shipment uses the run that is looked at.
    sums: Vec<u64>,
    sizes: Vec<u64>,
    users: Vec<User>,
    // The runs that are taken for an arc.
    taken: Vec<(usize, usize)>,
}

// How many trucks, in parts of `ONE`, users need beyond so many, where those who use the run the
// most do so surely.
fn missed(users: &[User], capacity: u64, trucks: u64) -> u64 {
    let (mut load, mut short, mut most) = (0u64, 0u64, 0u64);
    for (used, size) in users.iter().rev() {
        load = load.saturating_add(*size);
        short = short.saturating_add(ONE.saturating_sub(*used));
        let needed = load.div_ceil(capacity.max(1)).saturating_mul(ONE);
        most = most.max(needed.saturating_sub(short).saturating_sub(trucks));
    }
    most
}

// Whether one of some runs of single classes begins and ends nearly as another.
fn is_near(taken: &[(usize, usize)], first: usize, last: usize) -> bool {
    for (begin, end) in taken {
        if begin.abs_diff(first).saturating_add(end.abs_diff(last)) < 2 {
            return true;
        }
    }
    false
}

impl Separation<'_> {
    // The trucks of a single class, in parts of `ONE`: its own, or what it has of those of spans that
    // are joined over it.
    fn trucks(&self, number: usize) -> u64 {
        let mut most = self.averages.trucks.get(number).copied().unwrap_or(0);
        for joined in self.layout.covers.group(number) {
            if let Some(span) = self.layout.spans.get(*joined) {
                let all = self.averages.trucks.get(*joined).copied().unwrap_or(0);
                let wide = span.end_single.saturating_sub(span.first_single).max(1) as u64;
                let money = u128::from(self.prices.money_of(*joined));
                let part = u128::from(all / wide).saturating_mul(money)
                    / u128::from(span.truck.max(1));
                most = most.max(part.min(u128::from(u64::MAX)) as u64);
            }
        }
        most
    }

    // Counts the use of a single class too.
    fn add_uses(&mut self, span: &LaidSpan) {
        let used = of_span(&self.averages.used, span);
        for (payer, used) in of_span(&self.layout.payers, span).iter().zip(used.iter()) {
            if let Some(sum) = self.sums.get_mut(payer.shipment as usize)
                && let Some(size) = self.sizes.get_mut(payer.shipment as usize)
            {
                *sum = sum.saturating_add(*used);
                *size = payer.size;
            }
        }
    }

    // Lists those who use the run, the most at last.
    fn list_users(&mut self) -> Result<(), NoMemory> {
        self.users.clear();
        for (sum, size) in self.sums.iter().zip(self.sizes.iter()) {
            if *sum > LEAST_USE {
                self.users.push(((*sum).min(ONE), *size))?;
            }
        }
        self.users.sort()
    }

    // Puts in the runs of an arc's classes, from one of them on, that lack trucks.
    fn find_from(
        &mut self,
        first: usize,
        end: usize,
        finds: &mut Vec<Find>,
    ) -> Result<(), NoMemory> {
        for sum in self.sums.iter_mut() {
            *sum = 0;
        }
        let mut trucks = 0u64;
        for last in first..end {
            let Some(span) = self.layout.spans.get(last).copied() else {
                continue;
            };
            trucks = trucks.saturating_add(self.trucks(last));
            self.add_uses(&span);
            if last > first {
                self.list_users()?;
                let lacks = missed(&self.users, span.capacity, trucks);
                if lacks > LEAST_MISSED {
                    let more = last.wrapping_sub(first) as u64;
                    let little = (u64::MAX - lacks).saturating_add(more.saturating_mul(NARROWER));
                    finds.push((little, first, last))?;
                }
            }
        }
        Ok(())
    }

    // The run from one single class to another.
    fn run(&self, first: usize, last: usize) -> Option<Run> {
        let begin = self.layout.spans.get(first)?;
        let end = self.layout.spans.get(last)?;
        Some(Run {
            arc: begin.run.arc,
            point: begin.run.point,
            until: end.run.until,
        })
    }

    // Adds the best of these runs, which are neither there nor nearly the same as another.
    fn take(&mut self, finds: &mut Vec<Find>, runs: &mut Vec<Run>) -> Result<(), NoMemory> {
        finds.sort()?;
        self.taken.clear();
        for (_, first, last) in finds.iter() {
            if self.taken.len() >= RUNS_PER_ARC {
                break;
            }
            if let Some(run) = self.run(*first, *last)
                && !self.is_laid(&run)
                && !is_near(&self.taken, *first, *last)
            {
                self.taken.push((*first, *last))?;
                runs.push(run)?;
            }
        }
        finds.clear();
        Ok(())
    }

    // Whether a joined span is over a run.
    fn is_laid(&self, run: &Run) -> bool {
        for span in self.layout.spans.get(self.layout.singles..).unwrap_or(&[]) {
            if span.run == *run {
                return true;
            }
        }
        false
    }
}

// Where the single classes of an arc end that begin at one of them.
fn end_of_arc(layout: &Layout, first: usize) -> usize {
    let singles = layout.singles();
    let arc = singles.get(first).map_or(0, |span| span.run.arc);
    singles.partition_point(|span| span.run.arc <= arc)
}

/// Runs of classes over which joined spans may gain, by the averages of an ascent to these prices,
/// at most a few for each arc. `NoMemory` only where no memory is found.
pub fn separate(
    alloc: Global,
    layout: &Layout,
    prices: &SpanPrices,
    averages: &Averages,
    shipments: usize,
) -> Result<Vec<Run>, NoMemory> {
    let mut separation = Separation {
        layout,
        prices,
        averages,
        sums: vec![in alloc; 0u64; shipments]?,
        sizes: vec![in alloc; 0u64; shipments]?,
        users: Vec::new(alloc),
        taken: Vec::new(alloc),
    };
    let mut runs = Vec::new(alloc);
    let mut finds = Vec::new(alloc);
    let mut end = 0usize;
    for first in 0..layout.singles {
        if first >= end {
            separation.take(&mut finds, &mut runs)?;
            end = end_of_arc(layout, first);
        }
        separation.find_from(first, end, &mut finds)?;
    }
    separation.take(&mut finds, &mut runs)?;
    Ok(runs)
}
