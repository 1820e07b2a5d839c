//! By the trucks of which arcs a leaf is split.
ghost use Rattle.std.specs.Prelude.{ℕ, ◌≡◌, ◌+◌, ◌<◌, ◌≤◌, All, IfOk, IfSome, OnOk, insert, length, take};
ghost use Rattle.fp_timenodes.specs.declared.places.TheConstants.{LATEST};
ghost use Rattle.fp_tree.specs.declared.sides.Split.TheVariants.{ByTrucks};
ghost use Rattle.fp_session_branching.specs.Trucks.{AreBestTrucks, DividesBy};

use crate::NoMemory;
use crate::truck_numbers::{fewest_trucks, most_trucks};
use fp_prices::Leaf;
use fp_timenodes::LATEST;
use fp_tree::Split;
use std::alloc::Global;

/// A split of a leaf by how many trucks of an arc leave over its whole time: at most so many, or
/// more.
#[derive(Clone, Copy, PartialEq, Eq, Debug)]
pub struct TruckCandidate {
    pub arc: u32,
    pub trucks: u32,
}

impl TruckCandidate {
    /// The split.
    pub fn split(self) -> Split
        ensures { result ≡ ByTrucks self.arc 0 (LATEST + 1) self.trucks }
    {
        Split::ByTrucks {
            arc: self.arc,
            point: 0,
            until: LATEST + 1,
            most: self.trucks,
        }
    }
}

/// A candidate with its score. The greater one comes first.
#[derive(Clone, Copy)]
pub(crate) struct RankedTrucks {
    pub(crate) score: u128,
    pub(crate) candidate: TruckCandidate,
}

// A whole truck, in the parts in which it is paid for.
const TRUCK: u64 = 1 << 20;

// The least distance from a whole number of trucks at which they are divided: 3 % of a truck, rounded
// up.
const LEAST_DISTANCE: u64 = 31_458;

// How far what is paid for is from the nearest whole number of trucks.
fn distance(paid: u64) -> u64 {
    let part = paid % TRUCK;
    part.min(TRUCK - part)
}

// The split of a leaf by the trucks of an arc of which so many are paid for, where it divides.
fn candidate_on(leaf: &Leaf, arc: u32, paid: u64) -> Option<TruckCandidate>
    requires { arc < length leaf.now.setting.problem.arcs }
    ensures { IfSome result (DividesBy leaf.now) }
{
    let whole = paid / TRUCK;
    if whole > u64::from(u32::MAX) || whole < fewest_trucks(leaf.sides(), arc) {
        return None;
    }
    if u128::from(whole) >= most_trucks(leaf.round().instance(), leaf.sides(), arc) {
        return None;
    }
    Some(TruckCandidate {
        arc,
        trucks: whole as u32,
    })
}

// The place of a score: after all that aren't less.
fn place_of(ranked: &[RankedTrucks], score: u128) -> usize
    ensures { result ≤ length ranked.now }
{
    for place in 0..ranked.len() {
        if score > ranked[place].score {
            return place;
        }
    }
    ranked.len()
}

// Puts a candidate in at its place, of which at most so many stay.
fn put_in(ranked: &mut Vec<RankedTrucks>, next: RankedTrucks, most: usize) -> Result<(), NoMemory>
    ensures { OnOk result ((place : ℕ) × (place ≤ length ranked.old.items) × (ranked.new.items ≡ take most (insert ranked.old.items place next))) }
{
    let place = place_of(ranked, next.score);
    ranked.insert(place, next)?;
    ranked.truncate(most);
    Ok(())
}

// The candidates of the leaf that rank best, at most so many.
fn best_trucks(
    alloc: Global,
    leaf: &Leaf,
    paid: &[u64],
    most: usize,
) -> Result<Vec<RankedTrucks>, NoMemory>
    ensures { IfOk result (λ ranked. AreBestTrucks leaf.now most ranked.items) }
{
    let instance = leaf.round().instance();
    let mut ranked = Vec::new(alloc);
    for arc in 0..instance.arcs().len() as u32 {
        let paid = paid.get(arc as usize).copied().unwrap_or(0);
        let distance = distance(paid);
        if distance < LEAST_DISTANCE {
            continue;
        }
        let candidate = match candidate_on(leaf, arc, paid) {
            Some(candidate) => candidate,
            None => continue,
        };
        let score = u128::from(distance).saturating_mul(u128::from(instance.arc(arc).truck));
        put_in(&mut ranked, RankedTrucks { score, candidate }, most)?;
    }
    Ok(ranked)
}

/// The arcs by whose trucks it promises most to split a leaf, the best first and at most so many: by
/// how many trucks of the arc leave over its whole time, each side of the split leaving fewer numbers
/// of them than the sides of the leaf do.
///
/// `paid` has for each arc, by its number, how many trucks of it are paid for, in parts of 2^20. A
/// split is at the whole trucks that are paid for. Its score is how far what is paid for is from the
/// nearest whole number, at least 3 % of a truck, times what a truck costs; at equal scores the arc
/// with the lower number comes first. An arc is left out whose split doesn't divide. Any numbers may
/// be handed in: they decide the order and the numbers of trucks alone, and an arc without one counts
/// as not paid for. `NoMemory` only where no memory is found.
pub fn truck_candidates(
    alloc: Global,
    leaf: &Leaf,
    paid: &[u64],
    most: usize,
) -> Result<Vec<TruckCandidate>, NoMemory>
    ensures each { IfOk result (λ list. All (DividesBy leaf.now) list.items) }
    ensures few { IfOk result (λ list. length list.items ≤ most) }
{
    let ranked = best_trucks(alloc, leaf, paid, most)?;
    let mut list = Vec::with_capacity(alloc, ranked.len())?;
    for one in &ranked {
        list.push(one.candidate)?;
    }
    Ok(list)
}
