//! How much a split raises what a shipment costs under a leaf's prices.
ghost use Rattle.std.specs.Prelude.{◌≡◌, ◌<◌, ◌≤◌, All, IfOk, IfSome, length};
ghost use Rattle.fp_longestarcs.specs.Networks.{class_count};

use crate::NoMemory;
use crate::leaf_candidates::Candidate;
use fp_allowed::Allowed;
use fp_labels::distances;
use fp_prices::LeafPricing;
use fp_rows::Row;
use fp_timenodes::MOST_POINTS;
use fp_tree::Side;
use std::alloc::Global;

// A cost of a class at which a walk over all points can be summed up.
const GREATEST: u128 = ((1 << 127) - 1) / MOST_POINTS as u128;

// A cost, or the greatest one where it is above.
fn capped_cost(cost: Option<u128>) -> Option<u128>
    ensures { IfSome result (λ cost. cost ≤ GREATEST) }
{
    match cost {
        Some(cost) => Some(cost.min(GREATEST)),
        None => None,
    }
}

// The costs of the edges of a network's points, where only the classes of a row are capped, each at
// most the greatest cost. The row has so many bits, and the classes come first.
fn costs_over(
    alloc: Global,
    costs: &[Option<u128>],
    row: &Row,
    bits: u32,
) -> Result<Vec<Option<u128>>, NoMemory>
    requires { length row.now ≡ bits }
    ensures count { IfOk result (λ capped. length capped.items ≡ length costs.now) }
    ensures small { IfOk result (λ capped. All (λ o. IfSome o (λ cost. cost ≤ GREATEST)) capped.items) }
{
    let mut capped = Vec::with_capacity(alloc, costs.len())?;
    for place in 0..costs.len() {
        if place >= bits as usize || row.get(place as u32) {
            capped.push(capped_cost(costs[place]))?;
        } else {
            capped.push(None)?;
        }
    }
    Ok(capped)
}

// What a shipment costs under the prices over the classes of a row, `None` where they have no walk
// of it.
fn cost_over(
    alloc: Global,
    pricing: &LeafPricing,
    shipment: u32,
    row: &Row,
) -> Result<Option<u128>, NoMemory>
    requires shipment { shipment < length pricing.now.leaf.setting.problem.shipments }
    requires row { length row.now ≡ class_count pricing.now.leaf.setting.network }
{
    let round = pricing.leaf().round();
    let mut costs = round.free_costs(alloc)?;
    pricing.fill_costs(shipment, &mut costs);
    let capped = costs_over(alloc, &costs, row, round.network().classes())?;
    let labels = distances(alloc, round.graph(), &capped, round.start(shipment))?;
    Ok(labels.to(round.end(shipment)))
}

// What a shipment costs where it has to obey one more side, without limit where it then has no
// walk.
fn cost_beside(
    alloc: Global,
    pricing: &LeafPricing,
    shipment: u32,
    side: Side,
) -> Result<u128, NoMemory>
    requires { shipment < length pricing.now.leaf.setting.problem.shipments }
{
    let leaf = pricing.leaf();
    let round = leaf.round();
    let mut sides = Vec::from_slice(alloc, leaf.sides())?;
    sides.push(side)?;
    let allowed = Allowed::within(round.instance(), leaf.windows(), round.network());
    let row = allowed.row(alloc, shipment, &sides)?;
    let cost = cost_over(alloc, pricing, shipment, &row)?;
    Ok(cost.unwrap_or(u128::MAX))
}

/// How much the dearer side of a candidate's split raises what the shipment costs. `NoMemory` only
/// where no memory is found. Three searches over the points.
pub(crate) fn rise(
    alloc: Global,
    pricing: &LeafPricing,
    candidate: Candidate,
) -> Result<u128, NoMemory>
    requires { candidate.shipment < length pricing.now.leaf.setting.problem.shipments }
{
    let Candidate {
        shipment,
        terminal,
        split,
    } = candidate;
    let here = cost_over(alloc, pricing, shipment, pricing.leaf().row(shipment))?;
    let first = cost_beside(alloc, pricing, shipment, split.first())?;
    let second = cost_beside(alloc, pricing, shipment, split.second(terminal))?;
    Ok(first.max(second).saturating_sub(here.unwrap_or(0)))
}
