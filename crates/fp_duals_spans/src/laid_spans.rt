//! Spans that are laid over a leaf, with the prices from which a search starts.
ghost use Rattle.fp_prices.specs.Tables.{AreTables, HasKind};

use crate::NoMemory;
use crate::inherited_spans::{joined_runs, put_spans};
use crate::moments::tell_apart;
use crate::starts::Start;
use crate::whole_arcs::put_costs;
use fp_duals_gifts::{put_gifts, sought_gifts};
use fp_duals_layouts::{Layout, SpanPrices};
use fp_duals_nets::{LeafNets, loads_where};
use fp_prices::{Kind, Leaf, Table};
use fp_prices_gifts::Gift;
use fp_prices_spans::Span;
use std::alloc::Global;

/// Prices from which a search starts: those of a kind, which may name one of the tables, in the
/// mode `forced`, and spans in order that stand beside its table; any spans may be handed in.
#[derive(Clone, Copy)]
pub struct StartPrices<'a> {
    pub tables: &'a [Table],
    pub kind: Kind,
    pub forced: bool,
    pub spans: &'a [Span],
    pub gifts: &'a [Gift],
}

/// Spans that are laid over the classes or the arcs of a leaf, with their prices.
#[derive(Drop)]
pub(crate) struct Laid {
    pub layout: Layout,
    pub prices: SpanPrices,
}

/// Spans over the classes of a leaf, and gifts, with the prices of a kind, and in their place those of
/// the spans and gifts that stand beside its table. `NoMemory` only where no memory is found.
pub(crate) fn lay(
    alloc: Global,
    leaf: &Leaf,
    model: &mut LeafNets,
    start: StartPrices,
) -> Result<Laid, NoMemory>
    requires tables { AreTables leaf.now.setting.problem start.tables.now }
    requires kind { HasKind start.tables.now start.kind }
{
    let mut singles = Layout::of(alloc, model)?;
    tell_apart(alloc, leaf, &mut singles)?;
    let runs = joined_runs(alloc, &singles, start.spans)?;
    let joined = singles.join(alloc, &model.nets, &runs)?;
    let layout = joined.give(alloc, &model.arcs, &sought_gifts(alloc, leaf, false)?)?;
    let mut prices = SpanPrices::of(alloc, &layout)?;
    put_gifts(&layout, start.gifts, model.unit, &mut prices);
    let pricing = leaf.pricing(alloc, start.tables, start.kind, start.forced)?;
    let by_kind = Start {
        pricing: &pricing,
        freed: loads_where(start.forced, &model.loads),
        unit: model.unit,
    };
    by_kind.put_all(&layout.payers, &model.nets, &mut prices);
    put_spans(&layout, start.spans, model.unit, &mut prices);
    Ok(Laid { layout, prices })
}

/// Spans over the whole arcs of a leaf, and gifts of whole arcs. Where spans are handed in, each shipment
/// pays what it pays by these in the class of an arc where it's least; otherwise nobody pays. `NoMemory`
/// only where no memory is found.
pub(crate) fn lay_over_arcs(
    alloc: Global,
    leaf: &Leaf,
    model: &mut LeafNets,
    start: StartPrices,
) -> Result<Laid, NoMemory>
    requires tables { AreTables leaf.now.setting.problem start.tables.now }
    requires kind { HasKind start.tables.now start.kind }
{
    let goes_on = !start.spans.is_empty();
    if goes_on {
        let laid = lay(alloc, leaf, model, start)?;
        laid.prices.set_costs(&laid.layout, &mut model.nets);
    }
    let mut arcs = Layout::of_arcs(alloc, model)?;
    tell_apart(alloc, leaf, &mut arcs)?;
    let layout = arcs.give(alloc, &model.arcs, &sought_gifts(alloc, leaf, true)?)?;
    let mut prices = SpanPrices::of(alloc, &layout)?;
    if goes_on {
        put_gifts(&layout, start.gifts, model.unit, &mut prices);
        prices.spread(&layout, &mut []);
        put_costs(&layout, &model.nets, &mut prices);
    }
    Ok(Laid { layout, prices })
}
