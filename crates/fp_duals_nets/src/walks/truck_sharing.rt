//! Least walks that share trucks: shipments choose one after the other, and then a few at a time
//! choose anew.

ghost use Rattle.std.specs.Prelude.{◌≡◌, OnErr};

use crate::NoMemory;
use crate::leaf_nets::LeafNets;
use crate::nets::shipment_nets::Nets;
use crate::walks::draws::Draws;
use crate::walks::load_costs::{ALL_PARTS, LoadCosts};
use crate::walks::shared_walks::SharedWalks;
use std::alloc::Global;

// The numbers of the shipments, the greatest first.
fn by_size(alloc: Global, nets: &Nets) -> Result<Vec<usize>, NoMemory> {
    let mut order = Vec::new(alloc);
    let mut number = 0usize;
    for net in &nets.list {
        order.push((u64::MAX.wrapping_sub(net.size), number))?;
        number = number.wrapping_add(1);
    }
    order.sort()?;
    let mut numbers = Vec::new(alloc);
    for (_, number) in &order {
        numbers.push(*number)?;
    }
    Ok(numbers)
}

// Draws two to four shipments of so many.
fn draw_some(draws: &mut Draws, shipments: usize, drawn: &mut Vec<usize>) -> Result<(), NoMemory> {
    drawn.clear();
    for _ in 0..draws.below(3).wrapping_add(2) {
        let shipment = draws.below(shipments as u64) as usize;
        if !drawn.contains(&shipment) {
            drawn.push(shipment)?;
        }
    }
    Ok(())
}

// Lets shipments choose one after the other.
fn choose_each(shared: &mut SharedWalks, costs: &LoadCosts, shipments: &[usize]) {
    for shipment in shipments {
        shared.leave(costs, *shipment);
        shared.choose(costs, *shipment, ALL_PARTS);
        shared.join(costs, *shipment);
    }
}

// Lets a few shipments choose anew together, and goes back where that makes the walks dearer.
fn exchange(shared: &mut SharedWalks, costs: &LoadCosts, shipments: &[usize]) {
    let saved = shared.leave_all(costs, shipments);
    let added = shared.choose_all(costs, shipments, ALL_PARTS);
    if added > saved {
        shared.go_back(costs, shipments);
    }
}

/// A least walk of each shipment at the costs that are set, chosen so that the walks share trucks: in
/// passes over all shipments, the greatest first, and then in exchanges of a few. Without passes each
/// takes the first walk that is found.
pub fn least_walks(
    alloc: Global,
    model: &mut LeafNets,
    passes: u32,
    exchanges: u32,
) -> Result<SharedWalks, NoMemory>
    ensures { OnErr result (model.new ≡ model.old) }
{
    let mut shared = SharedWalks::over_least(alloc, model)?;
    let costs = LoadCosts::of(model);
    let order = by_size(alloc, costs.nets)?;
    for _ in 0..passes.max(1) {
        choose_each(&mut shared, &costs, &order);
    }
    let mut draws = Draws::new();
    let mut drawn = Vec::new(alloc);
    for _ in 0..exchanges {
        draw_some(&mut draws, order.len(), &mut drawn)?;
        exchange(&mut shared, &costs, &drawn);
    }
    Ok(shared)
}
