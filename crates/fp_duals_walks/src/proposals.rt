//! Cheap allowed walks of a leaf, tested.
ghost use Rattle.std.specs.Prelude.{◌≡◌, IfOk, IfSome, OnErr};
ghost use Rattle.fp_duals_walks.specs.AllowedWalks.{AreAllowedWalks};

use crate::NoMemory;
use crate::allowed_walks::are_allowed_walks;
use crate::exchanges::{Found, improved};
use crate::starts::start;
use fp_duals_nets::{LeafNets, LentNets, LoadCosts, timed_walks};
use fp_ends::{Deadline, Resources};
use fp_longestarcs::TimedWalk;
use fp_prices::Leaf;

// The cheaper one of what was found before and now.
fn cheaper(before: Option<Found>, now: Found) -> Found {
    match before {
        Some(before) => { if before.cost <= now.cost { before } else { now } }
        None => now,
    }
}

// The best walks that a search from each of the starts finds, in so many turns each.
fn best_walks<D: Deadline>(
    resources: &Resources<D>,
    leaf: &Leaf,
    model: &LeafNets,
    starts: &[&[TimedWalk]],
    turns: u32,
) -> Result<Option<Vec<TimedWalk>>, NoMemory> {
    let costs = LoadCosts::of(model);
    let mut best: Option<Found> = None;
    for given in starts {
        let (shared, cost) = start(resources.alloc, leaf, model, *given)?;
        let found = improved(resources, costs, shared, cost, turns)?;
        best = Some(cheaper(best, found));
    }
    match best {
        Some(found) => Ok(Some(timed_walks(resources.alloc, &costs, &found.walks)?)),
        None => Ok(None),
    }
}

/// Allowed timed walks of all shipments at a leaf that cost little together in trucks and freight:
/// the cheapest that a local search finds in so many turns from each of the starts.
///
/// A start gives walks by the numbers of the shipments. Any lists may be handed in: where a shipment
/// has no walk there that is an allowed timed walk of it, one is chosen that adds least to the loads
/// of the shipments before. The nets are those of the leaf. `None` where there's no start, or some shipment has no allowed timed
/// walk. Equal starts and turns give equal walks. `NoMemory` only where no memory is found; then the
/// nets are as before, as far as contracts see them. Takes for each turn a few passes over the edges
/// of at most five nets.
pub fn cheap_walks<D: Deadline>(
    resources: &Resources<D>,
    leaf: &Leaf,
    nets: &mut LentNets,
    starts: &[&[TimedWalk]],
    turns: u32,
) -> Result<Option<Vec<TimedWalk>>, NoMemory>
    ensures walks { IfOk result (λ found. IfSome found (λ walks. AreAllowedWalks leaf.now walks.items)) }
    ensures err { OnErr result (nets.new ≡ nets.old) }
{
    let model = nets.within(resources.alloc, leaf)?;
    match best_walks(resources, leaf, model, starts, turns)? {
        Some(walks) => {
            if are_allowed_walks(leaf, &walks) {
                Ok(Some(walks))
            } else {
                Ok(None)
            }
        }
        None => Ok(None),
    }
}
