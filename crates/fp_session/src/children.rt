//! What is kept of the two leaves below a leaf that is split.
ghost use Rattle.std.specs.Prelude.{[], ◌∷◌, ◌++◌, ◌≡◌, ◌⊎◌, ℕ, ◌<◌, ◌≤◌, ⊤, None, IfOk, IsSomeAnd, IsTrue, ◌↔◌, false, true, length};
ghost use Rattle.fp_prices.specs.Tables.{HasKind};
ghost use Rattle.fp_tree.specs.declared.layout.TheConstants.{MOST_SPLITS};
ghost use Rattle.fp_session.specs.Nodes.{IsKept, IsNoLess, IsPriceOf, IsRaisedTo, IsSteady};
ghost use Rattle.fp_session.specs.Outcomes.{IsBestBy, IsNoLessBy, taken_kept};
ghost use Rattle.fp_duals_leaves.specs.Prices.{ArePrices, HaveGrown};
ghost use Rattle.fp_session.specs.Searches.{IsSearch, history, setting_of};

use crate::NoMemory;
use crate::improving::{emptied, greater, improved, noted, priced};
use crate::kept::Kept;
use crate::outcomes::Outcome;
use crate::payloads::Payload;
use crate::searches::Search;
use fp_certificate_lines::Valuation;
use fp_duals_leaves::{Improvement, PriceEffort, Prices, bound_by, improve, steady_price};
use fp_duals_nets::LentNets;
use fp_ends::{Deadline, Resources};
use fp_longestarcs::Network;
use fp_prices::{Kind, Leaf, LeafBound, LeafPrice, RoundNetwork};
use fp_tree::{Side, Split};
use std::alloc::Global;

// The sides of the leaf on one side of a split of a leaf.
pub(crate) fn sides_below(alloc: Global, leaf: &Leaf, side: Side) -> Result<Vec<Side>, NoMemory>
    ensures { IfOk result (λ sides. sides.items ≡ leaf.now.sides ++ (side ∷ [])) }
{
    let mut sides = leaf.sides().to_vec(alloc)?;
    sides.push(side)?;
    Ok(sides)
}

// Whether the sides of a split are priced by spans and gifts at once: those by trucks, of which tables read
// nothing, and those by ways.
pub(crate) fn is_by_spans(split: Split) -> bool {
    matches!(split, Split::ByTrucks { .. } | Split::ByWay { .. })
}

// The effort at a leaf below a split, once the leaf above is split.
fn child_effort(search: &Search, split: Split) -> PriceEffort {
    if is_by_spans(split) {
        PriceEffort::by_spans(search.instance.shipments().len())
    } else {
        PriceEffort::CHILD
    }
}

// What is kept of the leaf on one side of a split of a leaf, improved with an effort from a price of the
// leaf above.
#[tactic(auto, using(fp_duals_leaves::proofs::GrownPrices::HaveGrown_none))]
pub(crate) fn new_child<D: Deadline>(
    resources: &Resources<D>,
    search: &Search,
    leaf: &Leaf,
    side: Side,
    inherited: LeafPrice,
    effort: &PriceEffort,
    prices: &mut Prices,
) -> Result<Kept, NoMemory>
    requires setting { leaf.now.setting ≡ setting_of search.now }
    requires search { IsSearch search.now prices.old }
    requires kind { HasKind prices.old.tables inherited.kind }
    ensures grown { HaveGrown search.now.instance search.now.windows prices.old prices.new }
    ensures kept { IfOk result (λ kept.
        IsKept (history search.now prices.new) (leaf.now.sides ++ (side ∷ [])) kept.payload kept.value) }
{
    let sides = sides_below(resources.alloc, leaf, side)?;
    let below = Leaf::of(resources.alloc, leaf.round(), leaf.windows(), &sides)?;
    let number = search.trace.len() as u32;
    let mut nets = LentNets::new();
    match improve(
        resources, &below, &mut nets, number, inherited, effort, prices,
    )? {
        Improvement::Empty { price } => Ok(emptied(price)),
        Improvement::Priced { price, value, .. } => Ok(priced(price, value)),
    }
}

// What is kept of such a leaf of which this was kept, improved with more effort.
#[tactic(auto, using(fp_duals_leaves::proofs::GrownPrices::HaveGrown_none))]
fn better_child<D: Deadline>(
    resources: &Resources<D>,
    search: &Search,
    leaf: &Leaf,
    side: Side,
    old: Kept,
    prices: &mut Prices,
) -> Result<Kept, NoMemory>
    requires setting { leaf.now.setting ≡ setting_of search.now }
    requires search { IsSearch search.now prices.old }
    requires kept { IsKept (history search.now prices.old) (leaf.now.sides ++ (side ∷ [])) old.payload old.value }
    requires some { old.payload.empty ≡ false }
    ensures grown { HaveGrown search.now.instance search.now.windows prices.old prices.new }
    ensures kept { IfOk result (λ kept.
        IsKept (history search.now prices.new) (leaf.now.sides ++ (side ∷ [])) kept.payload kept.value) }
{
    let sides = sides_below(resources.alloc, leaf, side)?;
    let below = Leaf::of(resources.alloc, leaf.round(), leaf.windows(), &sides)?;
    let mut nets = LentNets::new();
    let effort = &PriceEffort::CHOSEN;
    match improved(
        resources,
        search,
        &below,
        &mut nets,
        old,
        old.payload.valuation.price,
        effort,
        prices,
    )? {
        Outcome::Empty { kept } => Ok(kept),
        Outcome::Open { kept, .. } => Ok(kept),
    }
}

// How many sides a leaf has.
fn depth_of(leaf: &Leaf) -> u32
    requires { length leaf.now.sides ≤ MOST_SPLITS }
    ensures { result ≡ length leaf.now.sides }
{
    leaf.sides().len() as u32
}

// What is kept of a leaf below one of which that is kept and that has so many sides: how the leaf above is
// valued, under the sides that it is valued under, and its value.
fn taken(above: Kept, sides: u32) -> Kept
    ensures { result ≡ taken_kept above sides }
{
    let valuation = above.payload.valuation;
    let count = match valuation.sides {
        Some(count) => count,
        None => sides,
    };
    Kept {
        payload: Payload {
            valuation: Valuation {
                price: valuation.price,
                sides: Some(count),
            },
            empty: false,
            incumbent: 0,
            improved: None,
        },
        value: above.value,
    }
}

// What is kept of a leaf of which this was found by other prices, and of which a price is as of the same
// round: the price where the leaf is worth more by it, and else what was found, also where no walk goes by
// the heads of that price, or where the leaf isn't priced by the gifts beside its table.
fn or_by(
    alloc: Global,
    leaf: &Leaf,
    found: Kept,
    price: LeafPrice,
    prices: &Prices,
) -> Result<Kept, NoMemory>
    requires prices { ArePrices leaf.now.setting.problem leaf.now.setting.windows prices.now }
    requires kind { HasKind prices.now.tables price.kind }
    ensures { IfOk result (IsBestBy leaf.now prices.now found price) }
{
    let Some(bound) = bound_by(alloc, leaf, price, prices)? else {
        return Ok(found);
    };
    match bound {
        LeafBound::Empty { .. } => Ok(found),
        LeafBound::Value { value } => Ok(greater(found, price, value)),
    }
}

// What is kept of such a leaf as of the round that a price of the leaf above is of: that it is empty, or
// the best of those that each leaf has and of that price, where walks go by its heads. Points that were
// added since can make a table worth less.
#[tactic(auto, using(fp_duals_leaves::proofs::GrownPrices::HaveGrown_none, fp_flatnet::proofs::WindowTimes::BelongsTo_fits))]
fn as_of_price<D: Deadline>(
    resources: &Resources<D>,
    search: &Search,
    leaf: &Leaf,
    side: Side,
    price: LeafPrice,
    prices: &mut Prices,
) -> Result<Kept, NoMemory>
    requires search { IsSearch search.now prices.old }
    requires price { IsPriceOf (history search.now prices.old) price }
    ensures grown { HaveGrown search.now.instance search.now.windows prices.old prices.new }
    ensures kept { IfOk result (λ kept.
        IsKept (history search.now prices.new) (leaf.now.sides ++ (side ∷ [])) kept.payload kept.value) }
    ensures round { IfOk result (λ kept. kept.payload.valuation.price.round ≡ price.round) }
    ensures inherited { prices.old.unit ≡ None → IfOk result
        (IsNoLessBy (history search.now prices.new) (leaf.now.sides ++ (side ∷ [])) price) }
{
    let network = Network::of(
        resources.alloc,
        &search.instance,
        &search.points,
        price.round,
    )?;
    let round = RoundNetwork::over(resources.alloc, &search.instance, network)?;
    let sides = sides_below(resources.alloc, leaf, side)?;
    let below = Leaf::of(resources.alloc, &round, &search.windows, &sides)?;
    let mut nets = LentNets::new();
    let effort = &PriceEffort::VALUE;
    match improve(
        resources,
        &below,
        &mut nets,
        price.round,
        price,
        effort,
        prices,
    )? {
        Improvement::Empty { price: own } => Ok(emptied(own)),
        Improvement::Priced {
            price: own,
            value,
            ..
        } => or_by(resources.alloc, &below, priced(own, value), price, prices),
    }
}

// Whether a leaf of which this is kept is empty, or worth no less than so much.
fn is_no_less(kept: Kept, least: u128) -> bool
    ensures yes { result ≡ true → IsNoLess least kept }
    ensures no { result ≡ false → (kept.payload.empty ≡ false) × (kept.value < least) }
{
    kept.payload.empty || kept.value >= least
}

// What is kept of such a leaf, of which this is kept and which isn't empty but worth less than the leaf
// above, of which that is kept, where spans are sought: no leaf is then worth less than the one above,
// since under fewer sides its value bounds the same plans and more.
#[tactic(auto, using(fp_duals_leaves::proofs::GrownPrices::HaveGrown_none))]
fn no_less<D: Deadline>(
    resources: &Resources<D>,
    search: &Search,
    leaf: &Leaf,
    side: Side,
    kept: Kept,
    above: Kept,
    prices: &mut Prices,
) -> Result<Kept, NoMemory>
    requires search { IsSearch search.now prices.old }
    requires spans { IsSomeAnd prices.old.unit (λ unit. ⊤) }
    requires deep { length leaf.now.sides ≤ MOST_SPLITS }
    requires above { IsKept (history search.now prices.old) leaf.now.sides above.payload above.value }
    requires some { above.payload.empty ≡ false }
    requires kept { IsKept (history search.now prices.old) (leaf.now.sides ++ (side ∷ [])) kept.payload kept.value }
    requires open_still { kept.payload.empty ≡ false }
    requires less { kept.value < above.value }
    ensures grown { HaveGrown search.now.instance search.now.windows prices.old prices.new }
    ensures kept { IfOk result (λ kept.
        IsKept (history search.now prices.new) (leaf.now.sides ++ (side ∷ [])) kept.payload kept.value) }
    ensures no_less { IfOk result (IsNoLess above.value) }
{
    let price = above.payload.valuation.price;
    // As of the same round its value is at least those by linear and by even prices, and so is that of
    // the leaf above.
    if kept.payload.valuation.price.round == price.round {
        return Ok(taken(above, depth_of(leaf)));
    }
    let then = as_of_price(resources, search, leaf, side, price, prices)?;
    if is_no_less(then, above.value) {
        return Ok(then);
    }
    Ok(taken(above, depth_of(leaf)))
}

// The better of what is kept of a leaf in two ways.
fn better_of(one: Kept, other: Kept) -> Kept
    ensures either { (result ≡ one) ⊎ (result ≡ other) }
    ensures no_less { (least : ℕ) → IsNoLess least other → IsNoLess least result }
{
    if other.payload.empty || other.value > one.value {
        other
    } else {
        one
    }
}

// Whether no leaf is worth less by a price, as of its round, where sides are added.
fn is_steady(price: LeafPrice) -> bool
    ensures { IsTrue result ↔ IsSteady price }
{
    !price.forced && price.kind != Kind::Even
}

// The price of a leaf of which this is kept, where it is steady or no other is found; or one that is, by
// which the leaf is worth no less.
#[tactic(auto, using(fp_duals_leaves::proofs::GrownPrices::HaveGrown_none, fp_flatnet::proofs::WindowTimes::BelongsTo_fits))]
fn price_below(
    alloc: Global,
    search: &Search,
    leaf: &Leaf,
    above: Kept,
    prices: &mut Prices,
) -> Result<LeafPrice, NoMemory>
    requires search { IsSearch search.now prices.old }
    requires without { prices.old.unit ≡ None }
    requires price { IsPriceOf (history search.now prices.old) above.payload.valuation.price }
    ensures grown { HaveGrown search.now.instance search.now.windows prices.old prices.new }
    ensures price { IfOk result (IsPriceOf (history search.now prices.new)) }
    ensures same { IsSteady above.payload.valuation.price
        → IfOk result (λ price. price ≡ above.payload.valuation.price) }
{
    let price = above.payload.valuation.price;
    if is_steady(price) {
        return Ok(price);
    }
    let network = Network::of(alloc, &search.instance, &search.points, price.round)?;
    let round = RoundNetwork::over(alloc, &search.instance, network)?;
    let there = Leaf::of(alloc, &round, &search.windows, leaf.sides())?;
    match steady_price(alloc, &there, price, above.value, prices)? {
        Some(steady) => Ok(steady),
        None => Ok(price),
    }
}

// What is kept of such a leaf where spans aren't sought: what is kept, or what it is worth as of the round
// of the price of the leaf above, where that is more. A steady price is then worth no less than there.
#[tactic(auto, using(fp_duals_leaves::proofs::GrownPrices::HaveGrown_none))]
fn as_inherited<D: Deadline>(
    resources: &Resources<D>,
    search: &Search,
    leaf: &Leaf,
    side: Side,
    kept: Kept,
    above: Kept,
    prices: &mut Prices,
) -> Result<Kept, NoMemory>
    requires search { IsSearch search.now prices.old }
    requires going { search.now.left ≡ None }
    requires without { prices.old.unit ≡ None }
    requires above { IsKept (history search.now prices.old) leaf.now.sides above.payload above.value }
    requires some { above.payload.empty ≡ false }
    requires kept { IsKept (history search.now prices.old) (leaf.now.sides ++ (side ∷ [])) kept.payload kept.value }
    ensures grown { HaveGrown search.now.instance search.now.windows prices.old prices.new }
    ensures kept { IfOk result (λ kept.
        IsKept (history search.now prices.new) (leaf.now.sides ++ (side ∷ [])) kept.payload kept.value) }
    ensures steady { IsSteady above.payload.valuation.price → IfOk result (IsNoLess above.value) }
{
    let price = price_below(resources.alloc, search, leaf, above, prices)?;
    let then = as_of_price(resources, search, leaf, side, price, prices)?;
    Ok(better_of(kept, then))
}

// What is kept of such a leaf of which this is kept after little effort, below a leaf of which that is
// kept: improved with more effort where it is worth less than the leaf above, and at last as of the
// round of the price of that one; where spans are sought, with no less value than that.
#[tactic(auto, using(fp_duals_leaves::proofs::GrownPrices::HaveGrown_none))]
pub(crate) fn raised<D: Deadline>(
    resources: &Resources<D>,
    search: &Search,
    leaf: &Leaf,
    side: Side,
    kept: Kept,
    above: Kept,
    prices: &mut Prices,
) -> Result<Kept, NoMemory>
    requires setting { leaf.now.setting ≡ setting_of search.now }
    requires search { IsSearch search.now prices.old }
    requires going { search.now.left ≡ None }
    requires deep { length leaf.now.sides ≤ MOST_SPLITS }
    requires kept { IsKept (history search.now prices.old) (leaf.now.sides ++ (side ∷ [])) kept.payload kept.value }
    requires above { IsKept (history search.now prices.old) leaf.now.sides above.payload above.value }
    requires some { above.payload.empty ≡ false }
    ensures grown { HaveGrown search.now.instance search.now.windows prices.old prices.new }
    ensures kept { IfOk result (λ kept.
        IsKept (history search.now prices.new) (leaf.now.sides ++ (side ∷ [])) kept.payload kept.value) }
    ensures no_less { IfOk result (IsRaisedTo prices.old.unit above) }
{
    if is_no_less(kept, above.value) {
        return Ok(kept);
    }
    let kept = better_child(resources, search, leaf, side, kept, prices)?;
    if is_no_less(kept, above.value) {
        return Ok(kept);
    }
    match prices.unit() {
        None => as_inherited(resources, search, leaf, side, kept, above, prices),
        Some(_) => no_less(resources, search, leaf, side, kept, above, prices),
    }
}

// As of which round a leaf below a split counts as improved: where it was priced by spans, with as much
// effort as a chosen leaf gets.
fn improved_below(kept: Kept, split: Split) -> Option<u32> {
    if is_by_spans(split) {
        Some(kept.payload.valuation.price.round)
    } else {
        None
    }
}

// What is kept of the leaf on one side of a split, below a leaf of which this is kept.
pub(crate) fn child<D: Deadline>(
    resources: &Resources<D>,
    search: &Search,
    leaf: &Leaf,
    split: Split,
    side: Side,
    above: Kept,
    prices: &mut Prices,
) -> Result<Kept, NoMemory>
    requires setting { leaf.now.setting ≡ setting_of search.now }
    requires search { IsSearch search.now prices.old }
    requires going { search.now.left ≡ None }
    requires deep { length leaf.now.sides ≤ MOST_SPLITS }
    requires above { IsKept (history search.now prices.old) leaf.now.sides above.payload above.value }
    requires some { above.payload.empty ≡ false }
    ensures grown { HaveGrown search.now.instance search.now.windows prices.old prices.new }
    ensures kept { IfOk result (λ kept.
        IsKept (history search.now prices.new) (leaf.now.sides ++ (side ∷ [])) kept.payload kept.value) }
    ensures no_less { IfOk result (IsRaisedTo prices.old.unit above) }
{
    let price = above.payload.valuation.price;
    let effort = &child_effort(search, split);
    let kept = new_child(resources, search, leaf, side, price, effort, prices)?;
    let kept = noted(kept, improved_below(kept, split));
    raised(resources, search, leaf, side, kept, above, prices)
}
