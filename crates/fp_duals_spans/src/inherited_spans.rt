//! Spans from which a search starts.

use crate::NoMemory;
use fp_duals_ascent::weight_of;
use fp_duals_layouts::{LaidSpan, Layout, Payer, Run, SpanPrices, of_span};
use fp_duals_nets::{MoneyUnit, part_mut};
use fp_prices_spans::Span;
use std::alloc::Global;

// The run of classes that a span holds for.
fn run_of(span: &Span) -> Run {
    Run {
        arc: span.arc,
        point: span.point,
        until: span.until,
    }
}

// Whether a span is laid over its classes as one that is joined: where it has several of them and a
// charge, which each of them would have where they had its weights one by one.
fn is_joined(layout: &Layout, span: &Span) -> bool {
    let (first, end) = layout.singles_of(&run_of(span));
    span.charge > 0 && end.saturating_sub(first) > 1
}

/// The runs over which joined spans are laid, so that those from which a search starts can be put
/// into them. `NoMemory` only where no memory is found.
pub(crate) fn joined_runs(
    alloc: Global,
    layout: &Layout,
    spans: &[Span],
) -> Result<Vec<Run>, NoMemory> {
    let mut runs = Vec::new(alloc);
    for span in spans {
        if is_joined(layout, span) {
            runs.push(run_of(span))?;
        }
    }
    Ok(runs)
}

// Raises what the payers of a laid span pay by their weights in a span.
fn add_weights(
    layout: &Layout,
    laid: &LaidSpan,
    span: &Span,
    unit: MoneyUnit,
    prices: &mut SpanPrices,
) {
    let payers: &[Payer] = of_span(&layout.payers, laid);
    let Some(weights) = part_mut(&mut prices.weights, laid.first, laid.end) else {
        return;
    };
    for (weight, payer) in weights.iter_mut().zip(payers.iter()) {
        let more = unit.inner(weight_of(&span.weights, payer.shipment));
        *weight = weight.saturating_add(more).min(layout.most_weight(payer));
    }
}

// Lets nobody pay in the spans of single classes for which some span holds.
fn clear_held(layout: &Layout, spans: &[Span], prices: &mut SpanPrices) {
    for span in spans {
        let (first, end) = layout.singles_of(&run_of(span));
        for laid in layout.spans.get(first..end).unwrap_or(&[]) {
            if let Some(weights) = part_mut(&mut prices.weights, laid.first, laid.end) {
                weights.fill(0);
            }
        }
    }
}

/// Puts spans in the place of the prices of the classes that they hold for: those of several classes
/// into the spans that are joined over these, where they were laid by [`joined_runs`], and others
/// into the spans of single classes.
pub(crate) fn put_spans(layout: &Layout, spans: &[Span], unit: MoneyUnit, prices: &mut SpanPrices) {
    clear_held(layout, spans, prices);
    let mut joined = layout.singles;
    for span in spans {
        let (mut first, mut end) = layout.singles_of(&run_of(span));
        if is_joined(layout, span) {
            if let Some(money) = prices.money.get_mut(joined) {
                *money = unit.inner(span.money);
            }
            first = joined;
            end = joined.wrapping_add(1);
            joined = end;
        }
        for laid in layout.spans.get(first..end).unwrap_or(&[]) {
            add_weights(layout, laid, span, unit, prices);
        }
    }
    prices.spread(layout, &mut []);
}
