//! The price of a leaf is improved, by tables and by spans.
ghost use Rattle.std.specs.Prelude.{◌≡◌, ◌≢◌, None, [], IfOk, IsSomeAnd, OnErr, false, ⊤};
ghost use Rattle.fp_flatnet.specs.Belonging.{BelongsTo};
ghost use Rattle.fp_flatnet.specs.Tables.{windows_in};
ghost use Rattle.fp_longestarcs.specs.Networks.{points_in};
ghost use Rattle.fp_prices.specs.declared.leaf_prices.Kind.TheVariants.{Linear};
ghost use Rattle.fp_prices.specs.Tables.{AreTables, HasKind};
ghost use Rattle.fp_prices_gifts.specs.GiftKinds.{gifts_beside};
ghost use Rattle.fp_prices_gifts.specs.GiftLeaves.{IsGiftBound};
ghost use Rattle.fp_prices_gifts.specs.Gifts.{AreGifts};
ghost use Rattle.fp_prices_spans.specs.SpanLists.{AreSpans};
ghost use Rattle.fp_duals_leaves.specs.Prices.{ArePrices, HaveGrown};
ghost use Rattle.fp_duals_leaves.specs.Pricing.{IsImprovedBy, IsNoLess, IsNoLessOr, IsPricedBound};

use crate::NoMemory;
use crate::efforts::PriceEffort;
use crate::leaf_spans::better_spans;
use crate::prices::Prices;
use fp_duals::Improved;
use fp_duals_clashes::ClashVotes;
use fp_duals_nets::LentNets;
use fp_duals_spans::{SpanEffort, StartPrices};
use fp_ends::{Deadline, Resources};
use fp_longestarcs::TimedWalk;
use fp_prices::{Kind, Leaf, LeafBound, LeafPrice, Table};
use fp_prices_gifts::{Gift, gift_bound};
use fp_prices_spans::{Span, span_bound};
use std::alloc::Global;

// At least, and at most, so many places are kept at which least walks clash: what a series of rounds adds.
const FEW_CLASHES: usize = 64;

const MANY_CLASHES: usize = 256;

// At most so many places are kept at a leaf: two for each shipment, as prices of more shipments take
// longer.
fn most_clashes(leaf: &Leaf) -> usize {
    let shipments = leaf.round().instance().shipments().len();
    shipments
        .saturating_mul(2)
        .max(FEW_CLASHES)
        .min(MANY_CLASHES)
}

/// A price of a leaf, and what the leaf is worth by it.
#[derive(Clone, Copy, Debug, PartialEq, Eq)]
pub struct Worth {
    pub price: LeafPrice,
    pub value: u128,
}

/// What comes of improving the price of a leaf.
#[derive(Drop)]
pub enum Improvement {
    /// The leaf is empty: some shipment has no allowed walk by the heads and the ways that walks go by
    /// under this price.
    Empty {
        price: LeafPrice,
    },
    /// A price, what the leaf is worth by it in parts of a unit of money, and an allowed walk of each
    /// shipment.
    Priced {
        price: LeafPrice,
        value: u128,
        walks: Vec<TimedWalk>,
    },
}

// The bound of a leaf with gifts, which is that by spans where there are none.
fn bound_beside(
    alloc: Global,
    leaf: &Leaf,
    tables: &[Table],
    spans: &[Span],
    gifts: &[Gift],
    kind: Kind,
    forced: bool,
) -> Result<Option<LeafBound>, NoMemory>
    requires tables { AreTables leaf.now.setting.problem tables.now }
    requires kind { HasKind tables.now kind }
    requires spans { AreSpans leaf.now.setting.problem spans.now }
    requires gifts { AreGifts leaf.now.setting.problem gifts.now }
    ensures exact { IfOk result
        (IsGiftBound leaf.now.setting.problem (windows_in leaf.now.setting.windows)
        (points_in leaf.now.setting.network) leaf.now.sides tables.now spans.now gifts.now kind forced) }
    ensures priced { gifts.now ≡ [] → IfOk result (λ found. IsSomeAnd found (λ bound. ⊤)) }
{
    if gifts.is_empty() {
        let bound = span_bound(alloc, leaf, tables, spans, kind, forced)?;
        return Ok(Some(bound));
    }
    gift_bound(alloc, leaf, tables, spans, gifts, kind, forced)
}

/// The bound of a leaf by a price of a search, whatever its round: that the leaf is empty by the heads of
/// that price, or what it is worth with the spans and the gifts beside the table that the price names;
/// `None` exactly where it isn't empty by these heads and isn't priced by these gifts.
///
/// It is what [`gift_bound`] finds, and where there are no gifts there what [`span_bound`] does, so it is
/// there then. `NoMemory` only where no memory is found.
pub fn bound_by(
    alloc: Global,
    leaf: &Leaf,
    price: LeafPrice,
    prices: &Prices,
) -> Result<Option<LeafBound>, NoMemory>
    requires prices { ArePrices leaf.now.setting.problem leaf.now.setting.windows prices.now }
    requires kind { HasKind prices.now.tables price.kind }
    ensures exact { IfOk result
        (IsPricedBound leaf.now.setting.problem (windows_in leaf.now.setting.windows)
        (points_in leaf.now.setting.network) leaf.now.sides prices.now price.round price) }
    ensures priced { gifts_beside prices.now.gifts price.kind ≡ []
        → IfOk result (λ found. IsSomeAnd found (λ bound. ⊤)) }
{
    let LeafPrice { kind, forced, .. } = price;
    let spans = prices.spans_beside(kind);
    let gifts = prices.gifts_beside(kind);
    bound_beside(alloc, leaf, prices.tables(), spans, gifts, kind, forced)
}

// What a leaf is worth, as of the same round, by the prices that it inherits, with the spans and the
// gifts beside their table, where it has spans and that is more. Nothing where the leaf is empty by the
// heads and the ways of these prices; where it isn't priced by these gifts it keeps its first price.
fn by_inherited(
    alloc: Global,
    leaf: &Leaf,
    inherited: LeafPrice,
    first: Worth,
    prices: &Prices,
) -> Result<Option<Worth>, NoMemory>
    requires prices { ArePrices leaf.now.setting.problem leaf.now.setting.windows prices.now }
    requires kind { HasKind prices.now.tables inherited.kind }
    ensures { IfOk result
        (IsNoLessOr leaf.now.setting.problem (windows_in leaf.now.setting.windows)
        (points_in leaf.now.setting.network) leaf.now.sides prices.now first.price.round inherited.kind first) }
{
    let kind = inherited.kind;
    let forced = inherited.forced;
    let spans = prices.spans_beside(kind);
    if spans.is_empty() {
        return Ok(Some(first));
    }
    let gifts = prices.gifts_beside(kind);
    match gift_bound(alloc, leaf, prices.tables(), spans, gifts, kind, forced)? {
        Some(LeafBound::Empty { .. }) => Ok(None),
        Some(LeafBound::Value { value }) if value > first.value => Ok(Some(Worth {
            price: LeafPrice {
                kind,
                round: first.price.round,
                forced,
            },
            value,
        })),
        _ => Ok(Some(first)),
    }
}

// What a leaf is worth, as of the same round, by spans and gifts that are sought from a price, where
// such are found and there is room for them.
#[tactic(auto, using(crate::proofs::GrownPrices::HaveGrown_none))]
fn by_spans<D: Deadline>(
    resources: &Resources<D>,
    leaf: &Leaf,
    nets: &mut LentNets,
    effort: &SpanEffort,
    first: Worth,
    prices: &mut Prices,
) -> Result<Worth, NoMemory>
    requires belongs { BelongsTo leaf.now.setting.problem leaf.now.setting.windows }
    requires prices { ArePrices leaf.now.setting.problem leaf.now.setting.windows prices.old }
    requires unit { prices.old.unit ≢ None }
    requires kind { HasKind prices.old.tables first.price.kind }
    ensures grown { HaveGrown leaf.now.setting.problem leaf.now.setting.windows
        prices.old prices.new }
    ensures worth { IfOk result
        (IsNoLess leaf.now.setting.problem (windows_in leaf.now.setting.windows)
        (points_in leaf.now.setting.network) leaf.now.sides prices.new first.price.round first) }
{
    let LeafPrice { kind, forced, .. } = first.price;
    let start = StartPrices {
        tables: prices.tables(),
        kind,
        forced,
        spans: prices.spans_beside(kind),
        gifts: prices.gifts_beside(kind),
    };
    let mut votes = ClashVotes::of(resources.alloc, leaf.round().instance())?;
    let value = first.value;
    let found = better_spans(resources, leaf, nets, start, value, effort, &mut votes)?;
    let Some(found) = found else {
        return Ok(first);
    };
    let id = prices.count() + 1;
    let clashes = votes.places(resources.alloc, leaf.round(), most_clashes(leaf))?;
    if !prices.push_spans(resources.alloc, found.spans, found.gifts, clashes)? {
        return Ok(first);
    }
    Ok(Worth {
        price: LeafPrice {
            kind: Kind::Table { id },
            round: first.price.round,
            forced: false,
        },
        value: found.value,
    })
}

// What a leaf is worth, as of the same round, by spans, where that is more: by those that it
// inherits, or by others that are sought. Nothing where the leaf is empty by those that it inherits.
#[tactic(auto, using(crate::proofs::GrownPrices::HaveGrown_none))]
fn spanned<D: Deadline>(
    resources: &Resources<D>,
    leaf: &Leaf,
    nets: &mut LentNets,
    inherited: LeafPrice,
    effort: &PriceEffort,
    first: Worth,
    prices: &mut Prices,
) -> Result<Option<Worth>, NoMemory>
    requires belongs { BelongsTo leaf.now.setting.problem leaf.now.setting.windows }
    requires prices { ArePrices leaf.now.setting.problem leaf.now.setting.windows prices.old }
    requires inherited { HasKind prices.old.tables inherited.kind }
    requires kind { HasKind prices.old.tables first.price.kind }
    ensures grown { HaveGrown leaf.now.setting.problem leaf.now.setting.windows
        prices.old prices.new }
    ensures worth { IfOk result
        (IsNoLessOr leaf.now.setting.problem (windows_in leaf.now.setting.windows)
        (points_in leaf.now.setting.network) leaf.now.sides prices.new first.price.round inherited.kind first) }
{
    if prices.unit().is_none() {
        return Ok(Some(first));
    }
    let Some(worth) = by_inherited(resources.alloc, leaf, inherited, first, prices)? else {
        return Ok(None);
    };
    match &effort.spans {
        Some(effort) => {
            let better = by_spans(resources, leaf, nets, effort, worth, prices)?;
            Ok(Some(better))
        }
        None => Ok(Some(worth)),
    }
}

// Linear prices as of a round.
fn linear(round: u32) -> LeafPrice
    ensures { result ≡ record { kind = Linear; round = round; forced = false } }
{
    LeafPrice {
        kind: Kind::Linear,
        round,
        forced: false,
    }
}

// A price of a leaf as of a round, as `improve` has it; without memory the prices may have grown.
fn improve_further<D: Deadline>(
    resources: &Resources<D>,
    leaf: &Leaf,
    nets: &mut LentNets,
    round: u32,
    inherited: LeafPrice,
    effort: &PriceEffort,
    prices: &mut Prices,
) -> Result<Improvement, NoMemory>
    requires belongs { BelongsTo leaf.now.setting.problem leaf.now.setting.windows }
    requires prices { ArePrices leaf.now.setting.problem leaf.now.setting.windows prices.old }
    requires kind { HasKind prices.old.tables inherited.kind }
    ensures grown { HaveGrown leaf.now.setting.problem leaf.now.setting.windows
        prices.old prices.new }
    ensures improved { IfOk result
        (IsImprovedBy leaf.now.setting.problem (windows_in leaf.now.setting.windows)
        (points_in leaf.now.setting.network) leaf.now.sides prices.new round) }
{
    match prices.improve(resources, leaf, nets, round, inherited, &effort.tables)? {
        Improved::Empty { .. } => Ok(Improvement::Empty {
            price: linear(round),
        }),
        Improved::Priced {
            price,
            value,
            walks,
        } => {
            let first = Worth { price, value };
            match spanned(resources, leaf, nets, inherited, effort, first, prices)? {
                Some(worth) => Ok(Improvement::Priced {
                    price: worth.price,
                    value: worth.value,
                    walks,
                }),
                None => Ok(Improvement::Empty {
                    price: LeafPrice { round, ..inherited },
                }),
            }
        }
    }
}

/// Improves the price of a leaf as of a round, from a price that it inherits: by tables, and where
/// the prices have a unit by spans too.
///
/// The leaf lies over the network of the round, its windows belong to the instance, and the nets are
/// those of the leaf. The spans and the gifts among the prices are sound by the leaf's windows, and so
/// are those that come. What is found is that the leaf is empty, by linear prices where it has no allowed
/// timed walk for some shipment, and else by the prices that it inherits; or a price as of the round, what
/// the leaf is worth by it in parts of a unit of money, and an allowed walk of each shipment. The prices
/// grow by at most two tables. `NoMemory` only where no memory is found; then they are as before.
#[tactic(auto, using(crate::proofs::GrownPrices::HaveGrown_none))]
pub fn improve<D: Deadline>(
    resources: &Resources<D>,
    leaf: &Leaf,
    nets: &mut LentNets,
    round: u32,
    inherited: LeafPrice,
    effort: &PriceEffort,
    prices: &mut Prices,
) -> Result<Improvement, NoMemory>
    requires belongs { BelongsTo leaf.now.setting.problem leaf.now.setting.windows }
    requires prices { ArePrices leaf.now.setting.problem leaf.now.setting.windows prices.old }
    requires kind { HasKind prices.old.tables inherited.kind }
    ensures grown { HaveGrown leaf.now.setting.problem leaf.now.setting.windows
        prices.old prices.new }
    ensures improved { IfOk result
        (IsImprovedBy leaf.now.setting.problem (windows_in leaf.now.setting.windows)
        (points_in leaf.now.setting.network) leaf.now.sides prices.new round) }
    ensures err { OnErr result (prices.new ≡ prices.old) }
{
    let count = prices.count();
    match improve_further(resources, leaf, nets, round, inherited, effort, prices) {
        Ok(improved) => Ok(improved),
        Err(error) => {
            prices.cut(count);
            Err(error)
        }
    }
}
