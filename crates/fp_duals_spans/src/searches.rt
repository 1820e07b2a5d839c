//! The search for spans, from prices by single classes: an ascent of these, and then of spans that
//! are joined over them where they may gain.

use crate::NoMemory;
use crate::ascent::exact_ascent::settle;
use crate::ascent::subgradients::ascend;
use crate::efforts::SpanEffort;
use crate::keeping::kept_spans;
use crate::proposals::{Proposal, Proposed};
use fp_duals_clashes::{ClashVotes, Ground};
use fp_duals_layouts::{Layout, Run, SpanPrices};
use fp_duals_nets::{LeafNets, Nets};
use fp_duals_runs::{Averages, separate};
use fp_ends::{Deadline, Resources};
use std::alloc::Global;

/// The search over the nets of a leaf.
#[derive(Drop)]
pub(crate) struct Search<'a> {
    pub layout: Layout,
    pub prices: SpanPrices,
    pub effort: &'a SpanEffort,
    /// Whether neighbouring groups are merged that are charged no more together.
    pub merges: bool,
}

/// What was found, and its value.
#[derive(Drop)]
pub(crate) struct Found {
    pub value: u64,
    pub proposed: Proposed,
}

// Whether a value is above another by no more than a part in 4096.
fn is_little_more(value: u64, before: u64) -> bool {
    value.saturating_sub(before) < before / 4096
}

// The spans and gifts that are worth their lines at prices that are settled.
fn proposed(
    alloc: Global,
    model: &mut LeafNets,
    layout: &Layout,
    prices: &SpanPrices,
) -> Result<Proposed, NoMemory> {
    let kept = kept_spans(alloc, layout, model, prices)?;
    let proposal = Proposal {
        layout,
        prices,
        kept: &kept,
        arcs: &model.arcs,
        unit: model.unit,
    };
    proposal.proposed(alloc)
}

impl<'a> Search<'a> {
    /// Spans by prices near those that the ascent came to, which stay.
    pub(crate) fn settled<D: Deadline>(
        &self,
        resources: &Resources<D>,
        model: &mut LeafNets,
    ) -> Result<Found, NoMemory> {
        let mut prices = self.prices.copied(resources.alloc)?;
        let passes = self.effort.settle_passes;
        let value = settle(
            resources,
            &self.layout,
            &mut model.nets,
            &mut prices,
            passes,
            self.merges,
        )?;
        let proposed = proposed(resources.alloc, model, &self.layout, &prices)?;
        Ok(Found { value, proposed })
    }

    /// The ascent; what it came to over all turns.
    pub(crate) fn ascend<D: Deadline>(
        &mut self,
        resources: &Resources<D>,
        model: &mut LeafNets,
        votes: &mut ClashVotes,
    ) -> Result<Averages, NoMemory> {
        let mut ground = Ground {
            classes: &model.classes,
            arcs: &model.arcs,
            votes,
        };
        ascend(
            resources,
            &self.layout,
            &mut model.nets,
            &mut self.prices,
            self.effort,
            self.merges,
            &mut ground,
        )
    }

    // The search with spans that are joined over these runs.
    fn join(self, alloc: Global, nets: &Nets, runs: &[Run]) -> Result<Search<'a>, NoMemory> {
        let Search {
            layout,
            prices,
            effort,
            merges,
        } = self;
        let layout = layout.join(alloc, nets, runs)?;
        let prices = prices.extend(&layout)?;
        Ok(Search {
            layout,
            prices,
            effort,
            merges,
        })
    }

    // The runs over which joined spans may gain.
    fn runs(&self, alloc: Global, nets: &Nets, averages: &Averages) -> Result<Vec<Run>, NoMemory> {
        let shipments = nets.list.len();
        separate(alloc, &self.layout, &self.prices, averages, shipments)
    }

    /// The best that is found. Spans are joined only as long as it's worth no less than what is
    /// known.
    pub(crate) fn best<D: Deadline>(
        self,
        resources: &Resources<D>,
        model: &mut LeafNets,
        known: u64,
        votes: &mut ClashVotes,
    ) -> Result<Found, NoMemory> {
        let mut search = self;
        let mut averages = search.ascend(resources, model, votes)?;
        let mut best = search.settled(resources, model)?;
        let mut before = best.value;
        for _ in 0..search.effort.joins {
            if best.value < known || resources.is_over() {
                break;
            }
            let runs = search.runs(resources.alloc, &model.nets, &averages)?;
            if runs.is_empty() {
                break;
            }
            search = search.join(resources.alloc, &model.nets, &runs)?;
            averages = search.ascend(resources, model, votes)?;
            let found = search.settled(resources, model)?;
            let last = is_little_more(found.value, before);
            before = found.value;
            if found.value > best.value {
                best = found;
            }
            if last {
                break;
            }
        }
        Ok(best)
    }
}
