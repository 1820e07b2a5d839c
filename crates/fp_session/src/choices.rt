//! By which branching a leaf is split: of the first ones the one whose sides promise most.
ghost use Rattle.std.specs.Prelude.{[], ◌∷◌, ◌++◌, ◌≡◌, ◌≤◌, All, IfOk, IfSome, None, length, true};
ghost use Rattle.fp_prices.specs.Tables.{HasKind};
ghost use Rattle.fp_session.specs.Choices.{AreKeptBelow, IsBranching, IsChosen, fork_by};
ghost use Rattle.fp_session.specs.Dividing.{IsSeveral};
ghost use Rattle.fp_session.specs.Nodes.{IsKept};
ghost use Rattle.fp_duals_leaves.specs.Prices.{HaveGrown};
ghost use Rattle.fp_session.specs.Searches.{IsSearch, history, setting_of};

use crate::NoMemory;
use crate::branchings::{Branching, branchings};
use crate::children::{is_by_spans, new_child, sides_below};
use crate::dividing::Several;
use crate::kept::{Below, Kept};
use crate::searches::Search;
use fp_duals_leaves::{PriceEffort, Prices, promised_value};
use fp_duals_nets::LentNets;
use fp_ends::{Deadline, Resources};
use fp_prices::{Leaf, LeafPrice};
use fp_relaxmodel::TimedWalk;
use fp_tree::{Side, Split};

// A branching by which a leaf is split, and what is kept of the two leaves below where a trial told
// it without a further table.
#[derive(Clone, Copy)]
pub(crate) struct Chosen {
    pub branching: Branching,
    pub below: Option<Below>,
}

// What the two sides of a split promise: what the worse one is worth, and what the better one.
#[derive(Clone, Copy, Debug, PartialEq, Eq)]
struct Promise {
    worse: u128,
    better: u128,
}

// A branching that was tried, and what its sides promise.
#[derive(Clone, Copy)]
struct Trial {
    chosen: Chosen,
    promise: Promise,
}

// What the sides of a split promise together: the worse one counts five times.
fn sum_of(promise: Promise) -> u128 {
    promise
        .worse
        .saturating_mul(5)
        .saturating_add(promise.better)
}

// Whether a promise is more than another: by both sides where splits by trucks or by ways are among those
// that are tried, and else by the worse side first.
fn is_more(promise: Promise, other: Promise, by_both: bool) -> bool {
    if by_both {
        return sum_of(promise) > sum_of(other);
    }
    promise.worse > other.worse || (promise.worse == other.worse && promise.better > other.better)
}

// The most that a side is worth to a search: what the incumbent costs.
fn most_worth(search: &Search) -> u128 {
    u128::from(search.instance.scale()).saturating_mul(search.cost)
}

// What a side is worth to a search: at most what the incumbent costs, and as much where it is empty.
fn worth(search: &Search, kept: Kept) -> u128 {
    let most = most_worth(search);
    if kept.payload.empty {
        most
    } else {
        kept.value.min(most)
    }
}

// What two sides promise of which one is worth so much, and the other so much.
fn promise_of(one: u128, other: u128) -> Promise {
    Promise {
        worse: one.min(other),
        better: one.max(other),
    }
}

// What a side of a split by trucks or by a way promises after few turns: at most what the incumbent costs.
fn side_promise<D: Deadline>(
    resources: &Resources<D>,
    search: &Search,
    leaf: &Leaf,
    side: Side,
    inherited: LeafPrice,
    prices: &Prices,
) -> Result<u128, NoMemory>
    requires setting { leaf.now.setting ≡ setting_of search.now }
    requires search { IsSearch search.now prices.now }
    requires kind { HasKind prices.now.tables inherited.kind }
{
    let sides = sides_below(resources.alloc, leaf, side)?;
    let below = Leaf::of(resources.alloc, leaf.round(), leaf.windows(), &sides)?;
    let mut nets = LentNets::new();
    let value = promised_value(resources, &below, &mut nets, inherited, prices)?;
    Ok(value.min(most_worth(search)))
}

// What the sides of a split by trucks or by a way promise.
fn span_promise<D: Deadline>(
    resources: &Resources<D>,
    search: &Search,
    leaf: &Leaf,
    branching: Branching,
    inherited: LeafPrice,
    prices: &Prices,
) -> Result<Promise, NoMemory>
    requires setting { leaf.now.setting ≡ setting_of search.now }
    requires search { IsSearch search.now prices.now }
    requires kind { HasKind prices.now.tables inherited.kind }
{
    let Branching { split, tail } = branching;
    let one = side_promise(resources, search, leaf, split.first(), inherited, prices)?;
    let other = side_promise(
        resources,
        search,
        leaf,
        split.second(tail),
        inherited,
        prices,
    )?;
    Ok(promise_of(one, other))
}

// What is kept of the leaf on one side of a split by a shipment that is tried, after little effort.
fn trial_child<D: Deadline>(
    resources: &Resources<D>,
    search: &Search,
    leaf: &Leaf,
    side: Side,
    inherited: LeafPrice,
    prices: &mut Prices,
) -> Result<Kept, NoMemory>
    requires setting { leaf.now.setting ≡ setting_of search.now }
    requires search { IsSearch search.now prices.old }
    requires kind { HasKind prices.old.tables inherited.kind }
    ensures grown { HaveGrown search.now.instance search.now.windows prices.old prices.new }
    ensures kept { IfOk result (λ kept.
        IsKept (history search.now prices.new) (leaf.now.sides ++ (side ∷ [])) kept.payload kept.value) }
{
    let effort = &PriceEffort::CHILD;
    new_child(resources, search, leaf, side, inherited, effort, prices)
}

// What is kept of the sides of a branching after little effort.
fn both_sides<D: Deadline>(
    resources: &Resources<D>,
    search: &Search,
    leaf: &Leaf,
    branching: Branching,
    inherited: LeafPrice,
    prices: &mut Prices,
) -> Result<Below, NoMemory>
    requires setting { leaf.now.setting ≡ setting_of search.now }
    requires search { IsSearch search.now prices.old }
    requires going { search.now.left ≡ None }
    requires kind { HasKind prices.old.tables inherited.kind }
    ensures grown { HaveGrown search.now.instance search.now.windows prices.old prices.new }
    ensures kept { IfOk result (AreKeptBelow (history search.now prices.new) leaf.now.sides (fork_by branching)) }
{
    let Branching { split, tail } = branching;
    let one = split.first();
    let other = split.second(tail);
    let first = trial_child(resources, search, leaf, one, inherited, prices)?;
    let second = trial_child(resources, search, leaf, other, inherited, prices)?;
    Ok(Below { first, second })
}

// What came of the trial of a branching, with so many tables before it and after it: what is kept of
// its sides only where that takes no further table.
fn trial_of(search: &Search, branching: Branching, below: Below, before: u32, after: u32) -> Trial
    ensures branching { result.chosen.branching ≡ branching }
    ensures below { IfSome result.chosen.below (λ told. (after ≤ before) × (told ≡ below)) }
{
    let promise = promise_of(worth(search, below.first), worth(search, below.second));
    let below = if after <= before { Some(below) } else { None };
    let chosen = Chosen { branching, below };
    Trial { chosen, promise }
}

// A trial of a branching by a shipment. The prices are as before: further tables serve the trial alone.
fn tried_by_sides<D: Deadline>(
    resources: &Resources<D>,
    search: &Search,
    leaf: &Leaf,
    branching: Branching,
    inherited: LeafPrice,
    prices: &mut Prices,
) -> Result<Trial, NoMemory>
    requires setting { leaf.now.setting ≡ setting_of search.now }
    requires search { IsSearch search.now prices.old }
    requires going { search.now.left ≡ None }
    requires branching { IsBranching (history search.now prices.old) leaf.now.sides branching }
    requires kind { HasKind prices.old.tables inherited.kind }
    ensures same { prices.new ≡ prices.old }
    ensures chosen { IfOk result (λ trial. IsChosen (history search.now prices.old) leaf.now.sides trial.chosen) }
{
    let count = prices.count();
    match both_sides(resources, search, leaf, branching, inherited, prices) {
        Ok(below) => {
            let after = prices.count();
            prices.cut(count);
            Ok(trial_of(search, branching, below, count, after))
        }
        Err(error) => {
            prices.cut(count);
            Err(error)
        }
    }
}

// A trial of a branching. Of the sides of one by trucks or by a way nothing is kept: they are priced again with
// more effort than their trial has.
fn tried<D: Deadline>(
    resources: &Resources<D>,
    search: &Search,
    leaf: &Leaf,
    branching: Branching,
    inherited: LeafPrice,
    prices: &mut Prices,
) -> Result<Trial, NoMemory>
    requires setting { leaf.now.setting ≡ setting_of search.now }
    requires search { IsSearch search.now prices.old }
    requires going { search.now.left ≡ None }
    requires branching { IsBranching (history search.now prices.old) leaf.now.sides branching }
    requires kind { HasKind prices.old.tables inherited.kind }
    ensures same { prices.new ≡ prices.old }
    ensures chosen { IfOk result (λ trial. IsChosen (history search.now prices.old) leaf.now.sides trial.chosen) }
{
    if !is_by_spans(branching.split) {
        return tried_by_sides(resources, search, leaf, branching, inherited, prices);
    }
    let promise = span_promise(resources, search, leaf, branching, inherited, prices)?;
    let chosen = Chosen {
        branching,
        below: None,
    };
    Ok(Trial { chosen, promise })
}

// The branching whose sides promise most, the first of these, of those that are tried in time. The
// prices are as before.
fn best<D: Deadline>(
    resources: &Resources<D>,
    search: &Search,
    leaf: &Leaf,
    list: &[Branching],
    inherited: LeafPrice,
    prices: &mut Prices,
) -> Result<Chosen, NoMemory>
    requires setting { leaf.now.setting ≡ setting_of search.now }
    requires search { IsSearch search.now prices.old }
    requires going { search.now.left ≡ None }
    requires each { All (IsBranching (history search.now prices.old) leaf.now.sides) list.now }
    requires some { 1 ≤ length list.now }
    requires kind { HasKind prices.old.tables inherited.kind }
    ensures same { prices.new ≡ prices.old }
    ensures chosen { IfOk result (IsChosen (history search.now prices.old) leaf.now.sides) }
{
    let by_both = is_by_spans(list[0].split);
    let mut best = tried(resources, search, leaf, list[0], inherited, prices)?;
    for place in 1..list.len() {
        if resources.is_over() {
            break;
        }
        let next = tried(resources, search, leaf, list[place], inherited, prices)?;
        if is_more(next.promise, best.promise, by_both) {
            best = next;
        }
    }
    Ok(best.chosen)
}

// By which branching a leaf is split in which a shipment has several ways to go: of the first few by the
// trucks of arcs, by ways and by shipments, the one whose sides promise most. One alone isn't tried, and none
// where the time is over. The prices are as before.
pub(crate) fn choice<D: Deadline>(
    resources: &Resources<D>,
    search: &Search,
    leaf: &Leaf,
    nets: &mut LentNets,
    price: LeafPrice,
    walks: &[TimedWalk],
    prices: &mut Prices,
) -> Result<Chosen, NoMemory>
    requires setting { leaf.now.setting ≡ setting_of search.now }
    requires search { IsSearch search.now prices.old }
    requires going { search.now.left ≡ None }
    requires several { (several : Several) × IsSeveral leaf.now several }
    requires kind { HasKind prices.old.tables price.kind }
    ensures same { prices.new ≡ prices.old }
    ensures chosen { IfOk result (IsChosen (history search.now prices.old) leaf.now.sides) }
{
    let list = branchings(resources, search, leaf, nets, price, walks, prices)?;
    if list.len() == 1 || resources.is_over() {
        return Ok(Chosen {
            branching: list[0],
            below: None,
        });
    }
    best(resources, search, leaf, &list, price, prices)
}
