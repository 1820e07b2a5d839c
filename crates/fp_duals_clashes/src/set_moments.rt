//! When payers can leave together with those with whom they are charged.

use crate::NoMemory;
use fp_duals_layouts::{Charges, Layout, of_span};
use std::alloc::Global;

/// The first and the last moment at which a payer can leave, and where it is charged, at which it can leave
/// together with its set.
#[derive(Clone, Copy)]
pub(crate) struct Moments {
    pub first: u32,
    pub last: u32,
}

// All moments.
const ALWAYS: Moments = Moments {
    first: 0,
    last: u32::MAX,
};

/// The moments of all payers of a layout.
#[derive(Drop)]
pub(crate) struct SetMoments {
    list: Vec<Moments>,
    // The charged payers of a span, by the first moments at which they can leave.
    order: Vec<(u32, usize)>,
}

// The moments of a payer; all of them where there is no such payer.
fn moments_of(list: &[Moments], payer: usize) -> Moments {
    list.get(payer).copied().unwrap_or(ALWAYS)
}

// Puts in the charged payers of a span, of which the first has a number, by the first moments at which they
// can leave.
fn order_charged(
    list: &[Moments],
    charged: &[u32],
    first: usize,
    order: &mut Vec<(u32, usize)>,
) -> Result<(), NoMemory> {
    order.clear();
    let mut payer = first;
    for sets in charged {
        if *sets > 0 {
            order.push((moments_of(list, payer).first, payer))?;
        }
        payer = payer.wrapping_add(1);
    }
    order.sort_unstable();
    Ok(())
}

// What moments of two have in common.
fn meet(one: Moments, other: Moments) -> Moments {
    Moments {
        first: one.first.max(other.first),
        last: one.last.min(other.last),
    }
}

// Puts in the moments of some payers.
fn put(payers: &[(u32, usize)], list: &mut [Moments], moments: Moments) {
    for (_, payer) in payers {
        if let Some(own) = list.get_mut(*payer) {
            *own = moments;
        }
    }
}

// Lets ordered payers leave together, in sets of which each shares a moment.
fn join(order: &[(u32, usize)], list: &mut [Moments]) {
    let mut begin = 0usize;
    let mut set = ALWAYS;
    for place in 0..order.len() {
        let (_, payer) = order.get(place).copied().unwrap_or((0, usize::MAX));
        let own = moments_of(list, payer);
        if own.first > set.last {
            put(order.get(begin..place).unwrap_or(&[]), list, set);
            begin = place;
            set = own;
        } else {
            set = meet(set, own);
        }
    }
    put(order.get(begin..).unwrap_or(&[]), list, set);
}

impl SetMoments {
    /// None yet. `NoMemory` only where no memory is found.
    pub(crate) fn of(alloc: Global, layout: &Layout) -> Result<SetMoments, NoMemory> {
        Ok(SetMoments {
            list: vec![in alloc; ALWAYS; layout.payers.len()]?,
            order: Vec::new(alloc),
        })
    }

    /// The moments of a payer; all of them where there is no such payer.
    pub(crate) fn of_payer(&self, payer: usize) -> Moments {
        moments_of(&self.list, payer)
    }

    // Puts in each payer's own moments.
    fn set_own(&mut self, layout: &Layout) {
        for (moments, payer) in self.list.iter_mut().zip(layout.payers.iter()) {
            let until = match layout.spans.get(payer.span) {
                Some(span) => span.run.until,
                None => u32::MAX,
            };
            *moments = Moments {
                first: payer.lo,
                last: payer.hi.min(until.saturating_sub(1)),
            };
        }
    }

    /// Finds the moments by the sets that are charged. `NoMemory` only where no memory is found.
    pub(crate) fn find(&mut self, layout: &Layout, charges: &Charges) -> Result<(), NoMemory> {
        self.set_own(layout);
        for (span, charge) in layout.spans.iter().zip(charges.list.iter()) {
            if *charge > 0 {
                let charged = of_span(&charges.charged, span);
                order_charged(&self.list, charged, span.first, &mut self.order)?;
                join(&self.order, &mut self.list);
            }
        }
        Ok(())
    }
}
