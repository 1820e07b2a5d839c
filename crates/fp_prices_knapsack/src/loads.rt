//! The greatest weights of sets by their loads, which are counted in grains.

ghost use Rattle.std.specs.Prelude.{◌≡◌, ℕ, ◌+◌, ◌*◌, ◌/◌, ◌^◌, ◌<◌, ◌≤◌, false, length, slice_index, slice_index_or, sum, vec_len, IfOk, OnOk};
ghost use Rattle.fp_prices_knapsack.specs.Sets.{sizes_of};
ghost use Rattle.fp_prices_knapsack.specs.Charges.{total_weight, trucks_for};
ghost use Rattle.fp_prices_knapsack.specs.Loads.{best_with, takes, best_places, AreBest, AreTaken, IsExcess};

use crate::NoMemory;
use crate::grains::MOST_GRAINS;
use crate::items::{Item, total_size};
use std::alloc::Global;

// Lets an item into the sets, at most once into each: the loads go down, so what a load takes over
// from a smaller one has no such item yet. `taken` tells which loads take it.
fn add_item(best: &mut [u128], taken: &mut [bool], grains: usize, weight: u128)
    requires len { length taken.old ≡ length best.old }
    requires fresh { (load : ℕ) → load < length best.old → slice_index_or taken.old load false ≡ false }
    requires room { (load : ℕ) → load < length best.old → slice_index best.old load + weight < 2 ^ 128 }
    ensures best { (load : ℕ) → load < length best.old →
        slice_index best.new load ≡ best_with (λ l. slice_index best.old l) grains weight load }
    ensures taken { (load : ℕ) → load < length best.old →
        slice_index_or taken.new load false ≡ takes (λ l. slice_index best.old l) grains weight load }
{
    for load in (grains..best.len()).rev() {
        let with = best[load - grains] + weight;
        if best[load] < with {
            best[load] = with;
            taken[load] = true;
        }
    }
}

// The greatest weight of a set for each load, from 0 to all grains of the items, and for each item
// by which loads it is taken.
pub(crate) fn fill(
    best: &mut Vec<u128>,
    taken: &mut Vec<bool>,
    items: &[Item],
    grain: u128,
) -> Result<(), NoMemory>
    requires some { 0 < grain }
    requires few { sum (sizes_of items.now) / grain ≤ MOST_GRAINS }
    requires small { total_weight items.now < 2 ^ 128 }
    ensures best { OnOk result (AreBest items.now grain (length items.now) best.new.items) }
    ensures taken { OnOk result
        (AreTaken items.now grain (length items.now) (vec_len best.new) taken.new.items) }
    ensures fits { OnOk result ((load : ℕ) → load < vec_len best.new → grain * load < 2 ^ 128) }
{
    let loads = (total_size(items) / grain) as usize + 1;
    best.clear();
    best.resize(loads, 0)?;
    taken.clear();
    for item in items {
        let grains = (u128::from(item.size) / grain) as usize;
        let start = taken.len();
        taken.resize(start + loads, false)?;
        add_item(best, &mut taken[start..], grains, item.weight);
    }
    Ok(())
}

// By how much a weight is above the money for the trucks of its load, and a load where it is so.
#[derive(Clone, Copy)]
pub(crate) struct Excess {
    pub(crate) amount: u128,
    pub(crate) load: usize,
}

// The greatest excess of the weights; 0 where none is above its money.
pub(crate) fn greatest_excess(best: &[u128], grain: u128, capacity: u64, money: u128) -> Excess
    requires positive { 0 < capacity }
    requires fits { (load : ℕ) → load < length best.now → grain * load < 2 ^ 128 }
    ensures { IsExcess best.now (λ load. money * trucks_for capacity (grain * load))
        result.amount result.load }
{
    let mut most = Excess { amount: 0, load: 0 };
    for (load, weight) in best.iter().enumerate() {
        let trucks = fewest_trucks(grain * load as u128, capacity);
        let amount = weight.saturating_sub(money.saturating_mul(trucks));
        if most.amount < amount {
            most = Excess { amount, load };
        }
    }
    most
}

// The fewest trucks that carry a size, and at least one.
fn fewest_trucks(size: u128, capacity: u64) -> u128
    requires { 0 < capacity }
    ensures { result ≡ trucks_for capacity size }
{
    size.div_ceil(u128::from(capacity)).max(1)
}

// The places of the best set for a load, as the rows of `taken` tell it.
pub(crate) fn trace(
    alloc: Global,
    taken: &[bool],
    loads: usize,
    items: &[Item],
    grain: u128,
    load: usize,
) -> Result<Vec<usize>, NoMemory>
    requires some { 0 < grain }
    requires inside { load < loads }
    requires are { AreTaken items.now grain (length items.now) loads taken.now }
    ensures { IfOk result (λ places. places.items ≡ best_places items.now grain (length items.now) load) }
{
    let mut places = Vec::new(alloc);
    let mut left = load;
    for place in (0..items.len()).rev() {
        if taken[place * loads + left] {
            places.push(place)?;
            left -= (u128::from(items[place].size) / grain) as usize;
        }
    }
    places.reverse();
    Ok(places)
}
