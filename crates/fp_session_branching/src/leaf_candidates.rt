//! The candidates of a leaf, the best ones first.
ghost use Rattle.std.specs.Prelude.{ℕ, ◌≡◌, ◌<◌, ◌≤◌, All, IfNone, IfOk, IfSome, length, map};
ghost use Rattle.fp_base_lists.specs.Distinct.{AreDistinct};
ghost use Rattle.fp_session_branching.specs.Candidates.{EndsInSeveral, IsCandidate, IsCandidateFor, shipment_of};
ghost use Rattle.fp_session_branching.specs.Best.{AreBest};
ghost use Rattle.fp_prices.specs.Tables.{AreTables, HasKind};

use crate::NoMemory;
use crate::class_uses::{ClassUse, class_uses};
use crate::losses::loss_on;
use crate::ranks::{Loss, Rank, Ranked, is_left_out, put_in};
use crate::rises::rise;
use fp_allowed::ChainEnd;
use fp_longestarcs::TimedWalk;
use fp_prices::{Kind, Leaf, LeafPricing, Table};
use fp_tree::Split;
use std::alloc::Global;

/// A shipment that a leaf may be split by, the terminal where its forced chain ends, and the split.
#[derive(Clone, Copy, PartialEq, Eq, Debug)]
pub struct Candidate {
    pub shipment: u32,
    pub terminal: u32,
    pub split: Split,
}

// The candidate of a shipment, where its forced chain ends at a terminal that several classes
// leave.
fn candidate_of(alloc: Global, leaf: &Leaf, shipment: u32) -> Result<Option<Candidate>, NoMemory>
    requires { shipment < length leaf.now.setting.problem.shipments }
    ensures is { IfOk result (λ found. IfSome found (IsCandidateFor leaf.now shipment)) }
    ensures none { IfOk result (λ found. IfNone found ((terminal : ℕ) → EndsInSeveral leaf.now shipment terminal → ⊥)) }
{
    let chain = leaf.chain(alloc, shipment)?;
    match chain.end {
        ChainEnd::Several { terminal } => match leaf.choice(shipment, terminal) {
            Some(split) => Ok(Some(Candidate {
                shipment,
                terminal,
                split,
            })),
            None => Ok(None),
        },
        ChainEnd::Reached => Ok(None),
        ChainEnd::Stuck { .. } => Ok(None),
    }
}

// The loss on the walk of each shipment that has one.
fn losses_of(
    alloc: Global,
    pricing: &LeafPricing,
    walks: &[TimedWalk],
) -> Result<Vec<Loss>, NoMemory> {
    let leaf = pricing.leaf();
    let count = leaf.round().instance().shipments().len() as u32;
    let mut chains = Vec::new(alloc);
    for shipment in 0..count {
        chains.push(leaf.chain(alloc, shipment)?.classes.len())?;
    }
    let uses: Vec<ClassUse> = class_uses(alloc, pricing, &chains, walks)?;
    let mut losses = Vec::new(alloc);
    for (walk, chain) in walks.iter().zip(&chains) {
        losses.push(loss_on(pricing, &uses, *chain, walk))?;
    }
    Ok(losses)
}

// No loss.
const NO_LOSS: Loss = Loss {
    returns: false,
    gap: 0,
};

// The candidates of the leaf that rank best, at most so many, where these are the losses on the
// walks of the shipments. How much a split raises is looked for only where the loss isn't too small
// already.
fn best_ranked(
    alloc: Global,
    pricing: &LeafPricing,
    losses: &[Loss],
    most: usize,
) -> Result<Vec<Ranked>, NoMemory>
    ensures { IfOk result (λ ranked. AreBest pricing.now.leaf (length pricing.now.leaf.setting.problem.shipments) most ranked.items) }
{
    let leaf = pricing.leaf();
    let mut ranked = Vec::new(alloc);
    for shipment in 0..leaf.round().instance().shipments().len() as u32 {
        let candidate = match candidate_of(alloc, leaf, shipment)? {
            Some(candidate) => candidate,
            None => continue,
        };
        let loss = losses.get(shipment as usize).copied().unwrap_or(NO_LOSS);
        if is_left_out(&ranked, loss, most) {
            continue;
        }
        let rise = rise(alloc, pricing, candidate)?;
        let rank = Rank { loss, rise };
        put_in(&mut ranked, Ranked { rank, candidate }, most)?;
    }
    Ok(ranked)
}

/// The shipments by which it promises most to split a leaf, the best ones first and at most so
/// many: of those whose forced chains end at a terminal that several allowed classes leave, each
/// with the split there that [`Leaf::choice`] gives. Where there are some, the list isn't empty, if
/// one may be in it.
///
/// The walks, numbered by their shipments, tell where the leaf loses bound under its prices: first
/// come shipments whose walks return to a terminal, and then a shipment on whose walk the trucks of a
/// class cost most more than is paid for them, for each leg that isn't forced yet; at equal losses
/// the one that the dearer side of its split raises most, and then the one with the least number.
/// Any walks may be handed in; they decide the order alone. Prices, tables and kind are taken as by
/// [`Leaf::bound`]. `NoMemory` only where no memory is found. Three searches over the points for each
/// shipment that may stand in the list.
pub fn candidates(
    alloc: Global,
    leaf: &Leaf,
    tables: &[Table],
    kind: Kind,
    forced: bool,
    walks: &[TimedWalk],
    most: usize,
) -> Result<Vec<Candidate>, NoMemory>
    requires tables { AreTables leaf.now.setting.problem tables.now }
    requires kind { HasKind tables.now kind }
    ensures each { IfOk result (λ list. All (IsCandidate leaf.now) list.items) }
    ensures apart { IfOk result (λ list. AreDistinct (map shipment_of list.items)) }
    ensures few { IfOk result (λ list. length list.items ≤ most) }
    ensures some { IfOk result (λ list. 1 ≤ most → (k terminal : ℕ) → EndsInSeveral leaf.now k terminal → 1 ≤ length list.items) }
{
    let pricing = leaf.pricing(alloc, tables, kind, forced)?;
    let losses = losses_of(alloc, &pricing, walks)?;
    let ranked = best_ranked(alloc, &pricing, &losses, most)?;
    let mut list = Vec::with_capacity(alloc, ranked.len())?;
    for one in &ranked {
        list.push(one.candidate)?;
    }
    Ok(list)
}
