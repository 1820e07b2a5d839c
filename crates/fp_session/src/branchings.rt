//! By which splits a leaf may be divided: by the trucks of an arc, by the way of a shipment, or by a shipment.
ghost use Rattle.std.specs.Prelude.{◌≡◌, ◌+◌, ◌≤◌, ⊤, All, IfOk, IsSomeAnd, IsTrue, length};
ghost use Rattle.fp_prices.specs.Tables.{HasKind};
ghost use Rattle.fp_timenodes.specs.declared.places.TheConstants.{LATEST};
ghost use Rattle.fp_tree.specs.declared.sides.Split.TheVariants.{ByTrucks, ByWay};
ghost use Rattle.fp_certificate_lines.specs.Ranges.{largest_count};
ghost use Rattle.fp_session.specs.Choices.{IsBranching};
ghost use Rattle.fp_session.specs.Dividing.{IsSeveral};
ghost use Rattle.fp_session.specs.Searches.{IsSearch, history, setting_of};

use crate::NoMemory;
use crate::dividing::Several;
use crate::searches::Search;
use fp_duals_leaves::{LeafUses, Prices, leaf_uses};
use fp_duals_nets::LentNets;
use fp_ends::{Deadline, Resources};
use fp_prices::{Leaf, LeafPrice};
use fp_relaxmodel::TimedWalk;
use fp_session_branching::{
    Candidate, TruckCandidate, WayCandidate, candidates, truck_candidates, way_candidates,
};
use fp_tree::Split;
use std::alloc::Global;

// So many shipments are tried. More of them cost time and were measured to gain nothing on lines
// and hubs.
const MOST_TRIED: usize = 4;

// And so many arcs, by how many trucks of them leave, and so many ways of shipments.
const MOST_TRUCKS_TRIED: usize = 4;

const MOST_WAYS_TRIED: usize = 4;

// A split by which a leaf may be divided, with the terminal that its arc leaves: 0 for one by trucks or by a
// way.
#[derive(Clone, Copy, Debug, PartialEq, Eq)]
pub(crate) struct Branching {
    pub split: Split,
    pub tail: u32,
}

// By a shipment, at the terminal where its chain ends.
fn by_shipment(candidate: Candidate) -> Branching
    ensures { result ≡ record { split = candidate.split; tail = candidate.terminal } }
{
    Branching {
        split: candidate.split,
        tail: candidate.terminal,
    }
}

// By the trucks of an arc over its whole time.
fn by_trucks(candidate: TruckCandidate) -> Branching
    ensures is { result ≡ record { split = ByTrucks candidate.arc 0 (LATEST + 1) candidate.trucks; tail = 0 } }
    ensures count { candidate.trucks ≤ largest_count }
{
    Branching {
        split: candidate.split(),
        tail: 0,
    }
}

// By the way of a shipment.
fn by_way(candidate: WayCandidate) -> Branching
    ensures { result ≡ record { split = ByWay candidate.shipment candidate.arc; tail = 0 } }
{
    Branching {
        split: candidate.split(),
        tail: 0,
    }
}

// Whether splits by trucks and by ways are tried: where spans are sought and the time isn't over.
fn are_spans_tried<D: Deadline>(resources: &Resources<D>, prices: &Prices) -> bool
    ensures { IsTrue result → IsSomeAnd prices.now.unit (λ unit. ⊤) }
{
    prices.unit().is_some() && !resources.is_over()
}

// The splits by the trucks of the arcs by which it promises most to divide a leaf, the best first, where so
// many trucks of each are paid for.
fn truck_branchings(
    alloc: Global,
    search: &Search,
    leaf: &Leaf,
    paid: &[u64],
    prices: &Prices,
) -> Result<Vec<Branching>, NoMemory>
    requires setting { leaf.now.setting ≡ setting_of search.now }
    requires spans { IsSomeAnd prices.now.unit (λ unit. ⊤) }
    ensures { IfOk result (λ list. All (IsBranching (history search.now prices.now) leaf.now.sides) list.items) }
{
    let by_arcs = truck_candidates(alloc, leaf, paid, MOST_TRUCKS_TRIED)?;
    let mut list = Vec::new(alloc);
    for place in 0..by_arcs.len() {
        list.push(by_trucks(by_arcs[place]))?;
    }
    Ok(list)
}

// These splits, and those by the ways of the shipments by which it promises most to divide a leaf, the best
// first, where so much of their walks uses each arc.
fn with_ways(
    alloc: Global,
    search: &Search,
    leaf: &Leaf,
    used: &[u64],
    prices: &Prices,
    before: Vec<Branching>,
) -> Result<Vec<Branching>, NoMemory>
    requires setting { leaf.now.setting ≡ setting_of search.now }
    requires spans { IsSomeAnd prices.now.unit (λ unit. ⊤) }
    requires before { All (IsBranching (history search.now prices.now) leaf.now.sides) before.items }
    ensures { IfOk result (λ list. All (IsBranching (history search.now prices.now) leaf.now.sides) list.items) }
{
    let by_ways = way_candidates(alloc, leaf, used, MOST_WAYS_TRIED)?;
    let mut list = before;
    for place in 0..by_ways.len() {
        list.push(by_way(by_ways[place]))?;
    }
    Ok(list)
}

// The arcs by whose trucks it promises most to divide a leaf, and the shipments by whose ways it does, the
// best of both first, where these are tried: by what averaged walks use under the leaf's price.
fn span_branchings<D: Deadline>(
    resources: &Resources<D>,
    search: &Search,
    leaf: &Leaf,
    nets: &mut LentNets,
    price: LeafPrice,
    prices: &Prices,
) -> Result<Vec<Branching>, NoMemory>
    requires setting { leaf.now.setting ≡ setting_of search.now }
    requires search { IsSearch search.now prices.now }
    requires kind { HasKind prices.now.tables price.kind }
    ensures { IfOk result (λ list. All (IsBranching (history search.now prices.now) leaf.now.sides) list.items) }
{
    if !are_spans_tried(resources, prices) {
        return Ok(Vec::new(resources.alloc));
    }
    let LeafUses { trucks, ways } = leaf_uses(resources, leaf, nets, price, prices)?;
    let list = truck_branchings(resources.alloc, search, leaf, &trucks, prices)?;
    with_ways(resources.alloc, search, leaf, &ways, prices, list)
}

// The splits by which a leaf may be divided in which a shipment has several ways to go: those by the trucks of
// arcs and by ways, and where there are none those by shipments, by the leaf's price and by walks of least cost
// under it: beside the others they were measured to gain nothing.
pub(crate) fn branchings<D: Deadline>(
    resources: &Resources<D>,
    search: &Search,
    leaf: &Leaf,
    nets: &mut LentNets,
    price: LeafPrice,
    walks: &[TimedWalk],
    prices: &Prices,
) -> Result<Vec<Branching>, NoMemory>
    requires setting { leaf.now.setting ≡ setting_of search.now }
    requires search { IsSearch search.now prices.now }
    requires several { (several : Several) × IsSeveral leaf.now several }
    requires kind { HasKind prices.now.tables price.kind }
    ensures each { IfOk result (λ list. All (IsBranching (history search.now prices.now) leaf.now.sides) list.items) }
    ensures some { IfOk result (λ list. 1 ≤ length list.items) }
{
    let mut list = span_branchings(resources, search, leaf, nets, price, prices)?;
    if !list.is_empty() {
        return Ok(list);
    }
    let by_shipments = candidates(
        resources.alloc,
        leaf,
        prices.tables(),
        price.kind,
        price.forced,
        walks,
        MOST_TRIED,
    )?;
    for place in 0..by_shipments.len() {
        list.push(by_shipment(by_shipments[place]))?;
    }
    Ok(list)
}
