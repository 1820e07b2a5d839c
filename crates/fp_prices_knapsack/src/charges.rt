//! The least charge that pays for some items, and a set that needs it.

ghost use Rattle.std.specs.Prelude.{ℕ, ◌≡◌, ◌<◌, ◌↔◌, IsTrue, IfOk, IfSome, MatchOption, OnErr, vec_len};
ghost use Rattle.fp_prices_knapsack.specs.Charges.{Pays, IsLeastCharge, NoChargePays, IsLeastWithSet};
ghost use Rattle.fp_prices_knapsack.specs.Loads.{TellsDearest};

use crate::NoMemory;
use crate::grains::grain;
use crate::items::{Item, small_weight};
use crate::loads::{Excess, fill, greatest_excess, trace};
use std::alloc::Global;
use std::marker::Model;

/// The memory of a knapsack's tables, kept from call to call. What stands in it means nothing between
/// calls, so to contracts it's the same after each, also after `NoMemory`.
#[derive(Drop)]
pub struct Knapsack {
    tables: Tables,
}

impl Model for Knapsack {
    ghost use Rattle.std.specs.Prelude.{⊤};

    ghost Value = { ⊤ };

    ghost view = { λ _. tt };
}

// The greatest weights by loads, and for each item by which loads it is taken.
#[derive(Drop)]
struct Tables {
    best: Vec<u128>,
    taken: Vec<bool>,
}

/// The least charge that pays for some items, and a set that needs it.
#[derive(Debug, Drop)]
pub struct DearestSet {
    /// The least charge.
    pub charge: u128,
    /// The places of the set's items, ascending; none where the charge is 0.
    pub places: Vec<usize>,
}

impl Knapsack {
    /// A knapsack without memory.
    pub fn new(alloc: Global) -> Knapsack {
        let tables = Tables {
            best: Vec::new(alloc),
            taken: Vec::new(alloc),
        };
        Knapsack { tables }
    }

    /// Whether the charge pays for the items: all items together weigh less than 2^128, and each set
    /// that has some of them weighs at most `money` for each of its trucks, and the charge once. The
    /// trucks of a set, of this capacity from 1, are at least one; its sizes are counted in grains
    /// ([`crate::grain`]), each rounded down. `NoMemory` only where no memory is found.
    pub fn pays(
        &mut self,
        items: &[Item],
        capacity: u64,
        money: u128,
        charge: u128,
    ) -> Result<bool, NoMemory>
        requires { 0 < capacity }
        ensures pays { IfOk result (λ pays. IsTrue pays ↔ Pays items.now capacity money charge) }
        ensures err { OnErr result (self.new ≡ self.old) }
    {
        match self.least_charge(items, capacity, money)? {
            None => Ok(false),
            Some(least) => Ok(least <= charge),
        }
    }

    /// The least charge that pays for the items ([`Knapsack::pays`]). `None` exactly where no charge
    /// does: where all items together weigh 2^128 or more. `NoMemory` only where no memory is found.
    pub fn least_charge(
        &mut self,
        items: &[Item],
        capacity: u64,
        money: u128,
    ) -> Result<Option<u128>, NoMemory>
        requires { 0 < capacity }
        ensures least { IfOk result (λ charge.
            MatchOption charge (NoChargePays items.now capacity money)
            (λ least. IsLeastCharge items.now capacity money least)) }
        ensures err { OnErr result (self.new ≡ self.old) }
    {
        match self.tables.weigh(items, capacity, money)? {
            None => Ok(None),
            Some(excess) => Ok(Some(excess.amount)),
        }
    }

    /// The least charge as in [`Knapsack::least_charge`], and where it isn't 0 a set that weighs
    /// exactly the money for each of its trucks and this charge. `NoMemory` only where no memory is
    /// found.
    pub fn dearest_set(
        &mut self,
        alloc: Global,
        items: &[Item],
        capacity: u64,
        money: u128,
    ) -> Result<Option<DearestSet>, NoMemory>
        requires { 0 < capacity }
        ensures set { IfOk result (λ dearest.
            MatchOption dearest (NoChargePays items.now capacity money)
            (λ set. IsLeastWithSet items.now capacity money set.charge set.places.items)) }
        ensures err { OnErr result (self.new ≡ self.old) }
    {
        let Some(excess) = self.tables.weigh(items, capacity, money)? else {
            return Ok(None);
        };
        let charge = excess.amount;
        if charge == 0 {
            let places = Vec::new(alloc);
            return Ok(Some(DearestSet { charge, places }));
        }
        let grain = grain(capacity, items);
        let loads = self.tables.best.len();
        let places = trace(alloc, &self.tables.taken, loads, items, grain, excess.load)?;
        Ok(Some(DearestSet { charge, places }))
    }
}

impl Tables {
    // The least charge, and where it isn't 0 a load whose best set needs it.
    fn weigh(
        &mut self,
        items: &[Item],
        capacity: u64,
        money: u128,
    ) -> Result<Option<Excess>, NoMemory>
        requires { 0 < capacity }
        ensures least { IfOk result (λ excess.
            MatchOption excess (NoChargePays items.now capacity money)
            (λ most. IsLeastCharge items.now capacity money most.amount)) }
        ensures dearest { IfOk result (λ excess.
            IfSome excess (λ most. 0 < most.amount →
            TellsDearest items.now capacity money (vec_len self.new.best) self.new.taken.items
            most.amount most.load)) }
    {
        let Some(weight) = small_weight(items) else {
            return Ok(None);
        };
        if weight <= money {
            return Ok(Some(Excess { amount: 0, load: 0 }));
        }
        let grain = grain(capacity, items);
        fill(&mut self.best, &mut self.taken, items, grain)?;
        Ok(Some(greatest_excess(&self.best, grain, capacity, money)))
    }
}
