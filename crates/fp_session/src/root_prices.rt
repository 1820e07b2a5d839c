//! Prices of the root before the first step.
ghost use Rattle.std.specs.Prelude.{◌≡◌, ◌<◌, IfOk, IfSome, None};
ghost use Rattle.fp_prices.specs.Tables.{HasKind};
ghost use Rattle.fp_duals_leaves.specs.Prices.{HaveGrown};
ghost use Rattle.fp_session.specs.Moves.{points_now};
ghost use Rattle.fp_session.specs.Preparations.{ComesOfPreparing, IsWorkable};
ghost use Rattle.fp_session.specs.Searches.{IsCheaper, IsSearch};
ghost use Rattle.fp_session_history.specs.Solutions.{AreWalksUnder};

use crate::NoMemory;
use crate::improving::{improved, noted};
use crate::kept::Kept;
use crate::leaves::kept_at;
use crate::outcomes::Outcome;
use crate::preparations::{NOTHING, Prepared};
use crate::searches::Search;
use crate::timing::{Timing, timed};
use fp_duals::Effort;
use fp_duals_leaves::{PriceEffort, Prices};
use fp_duals_nets::LentNets;
use fp_ends::{Deadline, Resources};
use fp_prices::{Kind, Leaf, LeafPrice, RoundNetwork};
use fp_relaxmodel::{RelaxedPlan, TimedWalk};
use fp_session_clashes::are_cheaper;
use fp_session_looks::{Cheaper, MANY};

// An open leaf with a better price.
#[derive(Clone, Copy, Debug, PartialEq, Eq)]
pub(crate) struct Raised {
    pub number: u32,
    pub kept: Kept,
}

// How the root is priced: from which price, with which effort, whether its walks are timed for a cheaper
// plan, and as of which round its price is then improved with all effort.
#[derive(Clone, Copy)]
struct Pricing {
    inherited: LeafPrice,
    effort: PriceEffort,
    times_walks: bool,
    improved: Option<u32>,
}

// The price from which tables are sought: none that was found before.
const LINEAR: LeafPrice = LeafPrice {
    kind: Kind::Linear,
    round: 0,
    forced: false,
};

// The effort by tables alone.
const TABLES: PriceEffort = PriceEffort {
    tables: Effort::ROOT,
    spans: None,
};

// The number of the root, as long as it is an open leaf that no step has worked on.
fn open_root(search: &Search) -> Option<u32>
    ensures { IfSome result (IsWorkable search.now.tree) }
{
    if search.tree.splits() > 0 || !search.trace.is_empty() {
        return None;
    }
    let Some(number) = search.tree.best_open() else {
        return None;
    };
    let payload = *search.tree.payload(number);
    if payload.empty {
        return None;
    }
    match payload.improved {
        Some(_) => None,
        None => Some(number),
    }
}

// A cheaper plan that walks under the sides of a leaf give, where they are timed.
fn plan_of_walks<D: Deadline>(
    resources: &Resources<D>,
    search: &Search,
    leaf: &Leaf,
    walks: Vec<TimedWalk>,
    are_timed: bool,
    prices: &Prices,
) -> Result<Option<Cheaper>, NoMemory>
    requires search { IsSearch search.now prices.now }
    requires under { AreWalksUnder search.now.instance search.now.windows (points_now search.now)
        leaf.now.sides walks.items }
    ensures { IfOk result (λ found. IfSome found (IsCheaper search.now)) }
{
    let relaxed = RelaxedPlan { walks };
    if !are_timed || !are_cheaper(&search.instance, &relaxed, search.cost) {
        return Ok(None);
    }
    match timed(resources, search, prices, relaxed)? {
        Timing::Better { cheaper } => Ok(Some(cheaper)),
        Timing::Refine { .. } | Timing::Spent { .. } => Ok(None),
    }
}

// What comes of pricing an open leaf that isn't known to be empty.
#[tactic(auto, using(fp_duals_leaves::proofs::GrownPrices::HaveGrown_none, fp_flatnet::proofs::WindowTimes::BelongsTo_fits))]
fn priced_at<D: Deadline>(
    resources: &Resources<D>,
    search: &Search,
    number: u32,
    pricing: &Pricing,
    prices: &mut Prices,
) -> Result<Prepared, NoMemory>
    requires search { IsSearch search.now prices.old }
    requires going { search.now.left ≡ None }
    requires leaf { IsWorkable search.now.tree number }
    requires kind { HasKind prices.old.tables pricing.now.inherited.kind }
    ensures grown { HaveGrown search.now.instance search.now.windows prices.old prices.new }
    ensures comes { IfOk result (ComesOfPreparing search.now prices.new) }
{
    let old = kept_at(search, number);
    let network = search.network.copy(resources.alloc)?;
    let round = RoundNetwork::over(resources.alloc, &search.instance, network)?;
    let sides = search.tree.leaf_sides(resources.alloc, number)?;
    let leaf = Leaf::of(resources.alloc, &round, &search.windows, &sides)?;
    let mut nets = LentNets::new();
    let inherited = pricing.inherited;
    let effort = &pricing.effort;
    match improved(
        resources, search, &leaf, &mut nets, old, inherited, effort, prices,
    )? {
        Outcome::Empty { .. } => Ok(NOTHING),
        Outcome::Open { kept, walks } => {
            let timed = pricing.times_walks;
            let cheaper = plan_of_walks(resources, search, &leaf, walks, timed, prices)?;
            let kept = noted(kept, pricing.improved);
            Ok(Prepared {
                leaf: Some(Raised { number, kept }),
                cheaper,
            })
        }
    }
}

// The root gets its tables. Where spans are sought, a plan is made of its walks, as the first step makes
// one where they aren't; among many shipments tables are left out then: they take as long as spans, and
// what spans find over whole arcs doesn't begin from them.
#[tactic(auto, using(fp_duals_leaves::proofs::GrownPrices::HaveGrown_none))]
pub(crate) fn priced_by_tables<D: Deadline>(
    resources: &Resources<D>,
    search: &Search,
    prices: &mut Prices,
) -> Result<Prepared, NoMemory>
    requires search { IsSearch search.now prices.old }
    requires going { search.now.left ≡ None }
    ensures grown { HaveGrown search.now.instance search.now.windows prices.old prices.new }
    ensures comes { IfOk result (ComesOfPreparing search.now prices.new) }
{
    let Some(number) = open_root(search) else {
        return Ok(NOTHING);
    };
    let has_spans = prices.unit().is_some();
    if has_spans && search.instance.shipments().len() > MANY as usize {
        return Ok(NOTHING);
    }
    let pricing = Pricing {
        inherited: LINEAR,
        effort: TABLES,
        times_walks: has_spans,
        improved: if has_spans { None } else { Some(0) },
    };
    priced_at(resources, search, number, &pricing, prices)
}

// The root gets its spans, where these are sought.
#[tactic(auto, using(fp_duals_leaves::proofs::GrownPrices::HaveGrown_none))]
pub(crate) fn priced_by_spans<D: Deadline>(
    resources: &Resources<D>,
    search: &Search,
    prices: &mut Prices,
) -> Result<Prepared, NoMemory>
    requires search { IsSearch search.now prices.old }
    requires going { search.now.left ≡ None }
    ensures grown { HaveGrown search.now.instance search.now.windows prices.old prices.new }
    ensures comes { IfOk result (ComesOfPreparing search.now prices.new) }
{
    let Some(number) = open_root(search) else {
        return Ok(NOTHING);
    };
    if prices.unit().is_none() {
        return Ok(NOTHING);
    }
    let pricing = Pricing {
        inherited: search.tree.payload(number).valuation.price,
        effort: PriceEffort::first(search.instance.shipments().len()),
        times_walks: false,
        improved: Some(0),
    };
    priced_at(resources, search, number, &pricing, prices)
}
