//! What a search over whole arcs begins with.

use crate::NoMemory;
use crate::efforts::SpanEffort;
use crate::searches::{Found, Search};
use fp_duals_clashes::ClashVotes;
use fp_duals_layouts::{Layout, Payer, SpanPrices};
use fp_duals_nets::{LeafNets, Nets};
use fp_ends::{Deadline, Resources};
use fp_model::limits::LATEST;
use fp_prices_spans::Span;

// How much work a search over whole arcs may take.
fn arc_effort(effort: &SpanEffort) -> SpanEffort {
    SpanEffort {
        turns: effort.arc_turns,
        patience: effort.arc_patience,
        joins: 0,
        ..*effort
    }
}

// The same for the search after it, in which groups are merged. What a charge leaves to a payer is
// known only by groups that aren't.
fn merged_effort(effort: &SpanEffort) -> SpanEffort {
    SpanEffort {
        turns: effort.merged_turns,
        level: effort.merged_level,
        settle_passes: 0,
        ..arc_effort(effort)
    }
}

/// Whether all spans are over whole arcs.
pub(crate) fn are_over_arcs(spans: &[Span]) -> bool {
    for span in spans {
        if span.point > 0 || span.until <= LATEST {
            return false;
        }
    }
    true
}

// What a payer pays at the costs that are set, in the class where it's least.
fn least_price(layout: &Layout, nets: &Nets, payer: &Payer) -> u64 {
    let mut least = layout.most_weight(payer);
    for number in layout.edges_of(payer) {
        if let Some(edge) = nets.edges.get(*number)
            && let Some(edge_use) = nets.uses.get(*number)
        {
            least = least.min(edge.cost.saturating_sub(edge_use.flow));
        }
    }
    least
}

/// Lets each payer of spans over whole arcs pay what it pays at the costs that are set.
pub(crate) fn put_costs(layout: &Layout, nets: &Nets, prices: &mut SpanPrices) {
    for (weight, payer) in prices.weights.iter_mut().zip(layout.payers.iter()) {
        *weight = least_price(layout, nets, payer);
    }
}

/// The best that is found over whole arcs from these prices, with groups as they are, and then with
/// groups merged. `NoMemory` only where no memory is found.
pub(crate) fn search_arcs<D: Deadline>(
    resources: &Resources<D>,
    model: &mut LeafNets,
    layout: Layout,
    prices: SpanPrices,
    effort: &SpanEffort,
    votes: &mut ClashVotes,
) -> Result<Found, NoMemory> {
    let mut search = Search {
        layout,
        prices,
        effort: &arc_effort(effort),
        merges: false,
    };
    search.ascend(resources, model, votes)?;
    let found = search.settled(resources, model)?;
    if effort.merged_turns == 0 || resources.is_over() {
        return Ok(found);
    }
    let mut merging = Search {
        layout: search.layout,
        prices: search.prices,
        effort: &merged_effort(effort),
        merges: true,
    };
    merging.ascend(resources, model, votes)?;
    let merged = merging.settled(resources, model)?;
    if merged.value > found.value {
        Ok(merged)
    } else {
        Ok(found)
    }
}
