//! By the ways of which shipments a leaf is split.
ghost use Rattle.std.specs.Prelude.{◌≡◌, ◌≤◌, All, IfOk, IfSome, length};
ghost use Rattle.fp_tree.specs.declared.sides.Split.TheVariants.{ByWay};
ghost use Rattle.fp_session_branching.specs.Ways.{IsWayCandidate};

use crate::NoMemory;
use fp_model::Instance;
use fp_prices::Leaf;
use fp_prices_spans::{MOST_WAYS, leaf_ways};
use fp_tree::Split;
use std::alloc::Global;
use std::cmp::Reverse;

/// A split of a leaf by whether a shipment goes by an arc.
#[derive(Clone, Copy, PartialEq, Eq, Debug)]
pub struct WayCandidate {
    pub shipment: u32,
    pub arc: u32,
}

impl WayCandidate {
    /// The split.
    pub fn split(self) -> Split
        ensures { result ≡ ByWay self.shipment self.arc }
    {
        Split::ByWay {
            shipment: self.shipment,
            arc: self.arc,
        }
    }
}

// A candidate with its score. The greater one comes first.
#[derive(Clone, Copy)]
struct RankedWay {
    score: u128,
    candidate: WayCandidate,
}

// A whole use, in the parts in which uses are told.
const WHOLE: u64 = 1 << 20;

// The least distance of a use from none and from a whole one at which it's divided: 5 %, rounded up.
const LEAST_DISTANCE: u64 = 52_429;

// So many times as many are ranked as are proposed: of those that are ranked not each divides.
const RANKED_TIMES: usize = 4;

// How far a use is from none and from a whole one.
fn distance(used: u64) -> u64 {
    used.min(WHOLE.saturating_sub(used))
}

// What is at stake at an arc for a shipment of which so much uses it: its part of what a truck costs, times
// how far the use is from none and from a whole one.
fn score_of(instance: &Instance, candidate: WayCandidate, used: u64) -> u128 {
    let WayCandidate { shipment, arc } = candidate;
    match (
        instance.shipments().get(shipment as usize),
        instance.arcs().get(arc as usize),
    ) {
        (Some(shipment), Some(arc)) => u128::from(distance(used))
            .saturating_mul(u128::from(shipment.size))
            .saturating_mul(u128::from(arc.truck))
            .checked_div(u128::from(arc.capacity))
            .unwrap_or(0),
        _ => 0,
    }
}

// The ways of a shipment of whose walks some use an arc and some don't, at the end of a list. The uses of its
// arcs come first.
fn add_ways(
    instance: &Instance,
    shipment: u32,
    used: &[u64],
    list: &mut Vec<RankedWay>,
) -> Result<(), NoMemory> {
    for (arc, used) in used.iter().take(instance.arcs().len()).enumerate() {
        if distance(*used) >= LEAST_DISTANCE {
            let candidate = WayCandidate {
                shipment,
                arc: arc as u32,
            };
            let score = score_of(instance, candidate, *used);
            list.push(RankedWay { score, candidate })?;
        }
    }
    Ok(())
}

// The ways of all shipments, those with the greatest scores first.
fn ranked_ways(
    alloc: Global,
    instance: &Instance,
    used: &[u64],
) -> Result<Vec<RankedWay>, NoMemory> {
    let mut list = Vec::new(alloc);
    let arcs = instance.arcs().len();
    for shipment in 0..instance.shipments().len() {
        let first = shipment.saturating_mul(arcs);
        let own = used.get(first..).unwrap_or(&[]);
        add_ways(instance, shipment as u32, own, &mut list)?;
    }
    list.sort_by_key(|way| Reverse(way.score))?;
    Ok(list)
}

// A way of a leaf's shipment, where the split by it divides.
fn candidate_at(leaf: &Leaf, way: WayCandidate) -> Option<WayCandidate>
    ensures { IfSome result (IsWayCandidate leaf.now) }
{
    let instance = leaf.round().instance();
    let WayCandidate { shipment, arc } = way;
    if shipment as usize >= instance.shipments().len() || arc as usize >= instance.arcs().len() {
        return None;
    }
    leaf.way(shipment, arc)?;
    Some(way)
}

// The same, where walks of the shipment would go by the arc: as many others as can don't count for it at the
// leaf already.
fn counting(alloc: Global, leaf: &Leaf, way: WayCandidate) -> Result<Option<WayCandidate>, NoMemory>
    ensures { IfOk result (λ found. IfSome found (IsWayCandidate leaf.now)) }
{
    let ways = leaf_ways(alloc, leaf, way.shipment)?;
    if ways.len() >= MOST_WAYS {
        return Ok(None);
    }
    Ok(candidate_at(leaf, way))
}

/// The shipments and arcs by whose ways it promises most to split a leaf, the best first and at most so many:
/// by whether the shipment goes by the arc, each side of the split leaving fewer departures at the arc's
/// tail than the sides of the leaf do.
///
/// `used` has for each shipment and arc, at the place of the shipment's number times the number of arcs, and
/// the arc's number, how much of the shipment's walks goes by the arc, in parts of 2^20. A way's score is how
/// far that is from none and from all of them, at least 5 %, times the shipment's part of what a truck costs;
/// at equal scores the shipment and the arc with the lower numbers come first. A way is left out that doesn't
/// divide, or is of a shipment for which the most ways count already, and so are those after the first few.
/// Any numbers may be handed in: they decide the order alone, and a way without one isn't used. `NoMemory`
/// only where no memory is found.
pub fn way_candidates(
    alloc: Global,
    leaf: &Leaf,
    used: &[u64],
    most: usize,
) -> Result<Vec<WayCandidate>, NoMemory>
    ensures each { IfOk result (λ list. All (IsWayCandidate leaf.now) list.items) }
    ensures few { IfOk result (λ list. length list.items ≤ most) }
{
    let ranked = ranked_ways(alloc, leaf.round().instance(), used)?;
    let mut list = Vec::new(alloc);
    for way in ranked.iter().take(most.saturating_mul(RANKED_TIMES)) {
        if list.len() == most {
            break;
        }
        if let Some(candidate) = counting(alloc, leaf, way.candidate)? {
            list.push(candidate)?;
        }
    }
    Ok(list)
}
