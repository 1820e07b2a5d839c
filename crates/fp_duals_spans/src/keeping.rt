//! Which spans are worth their lines.

use crate::NoMemory;
use fp_duals_layouts::{LaidSpan, Layout, SpanPrices, of_span};
use fp_duals_nets::{EdgeUse, LeafNets, least_walks};
use std::alloc::Global;

/// How many times each shipment chooses among its least walks.
pub(crate) const PASSES: u32 = 2;

/// Which spans are kept.
#[derive(Drop)]
pub(crate) struct Kept<'a> {
    layout: &'a Layout,
    prices: &'a SpanPrices,
    /// Whether each span is.
    pub list: Vec<bool>,
}

// What a size pays in a span by the price that goes by size alone.
fn linear(span: &LaidSpan, size: u64) -> u64 {
    size.wrapping_mul(span.truck / span.capacity.max(1))
}

impl Kept<'_> {
    /// Whether a span is kept.
    pub(crate) fn has(&self, number: usize) -> bool {
        self.list.get(number).copied().unwrap_or(false)
    }

    // Whether some gift takes money off a span of a single class: then a span holds for all classes of
    // the gift's run.
    fn is_taken_off(&self, number: usize) -> bool {
        for gift in self.layout.least_over.group(number) {
            if self.prices.amount_of(*gift) > 0 {
                return true;
            }
        }
        false
    }

    // Whether a kept span holds for a single class beside its own.
    fn is_covered(&self, number: usize) -> bool {
        for joined in self.layout.covers.group(number) {
            if self.has(*joined) {
                return true;
            }
        }
        self.is_taken_off(number)
    }

    // Whether some payer pays more by a span than it does where the span is left out: nothing where
    // another holds, and by its size elsewhere.
    fn is_dear(&self, span: &LaidSpan, held: bool) -> bool {
        let payers = of_span(&self.layout.payers, span);
        let weights = of_span(&self.prices.weights, span);
        for (payer, weight) in payers.iter().zip(weights.iter()) {
            let without = if held { 0 } else { linear(span, payer.size) };
            if *weight > without {
                return true;
            }
        }
        false
    }

    // Keeps the spans that someone pays more by.
    fn keep_dear(&mut self) {
        for number in (0..self.layout.spans.len()).rev() {
            if let Some(span) = self.layout.spans.get(number) {
                let held = number >= self.layout.singles || self.is_covered(number);
                let dear = self.is_dear(span, held);
                if let Some(keep) = self.list.get_mut(number) {
                    *keep = dear;
                }
            }
        }
    }

    // Keeps the span of an edge that isn't priced by size alone.
    fn keep_used(&mut self, edge: &EdgeUse) {
        let number = edge.pool as usize;
        if !self.is_covered(number)
            && let Some(span) = self.layout.spans.get(number)
            && let Some(payer) = self.layout.payers.get(edge.part)
            && let Some(keep) = self.list.get_mut(number)
        {
            *keep |= self.prices.weight(edge.part) != linear(span, payer.size);
        }
    }
}

/// Which spans are worth their lines: those that someone pays more by than without them, and those
/// of some least walks that share trucks. Sets the costs.
pub(crate) fn kept_spans<'a>(
    alloc: Global,
    layout: &'a Layout,
    model: &mut LeafNets,
    prices: &'a SpanPrices,
) -> Result<Kept<'a>, NoMemory> {
    let mut kept = Kept {
        layout,
        prices,
        list: vec![in alloc; false; layout.spans.len()]?,
    };
    kept.keep_dear();
    prices.set_costs(layout, &mut model.nets);
    let shared = least_walks(alloc, model, PASSES, 0)?;
    for walk in &shared.walks {
        for number in walk {
            if let Some(edge) = model.nets.uses.get(*number) {
                kept.keep_used(edge);
            }
        }
    }
    Ok(kept)
}
