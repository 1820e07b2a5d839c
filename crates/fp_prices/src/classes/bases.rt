//! The classes of the forced chains, their loads, and what the trucks cost that they need.
ghost use Rattle.std.specs.Prelude.{ℕ, ◌≡◌, ◌+◌, ◌*◌, ◌<◌, ◌≤◌, ◌^◌, ◌||◌, All, IfOk, List, false, if◌then◌else◌, length, replicate, slice_index, true};
ghost use Rattle.fp_base_lists.specs.Distinct.{AreDistinct};
ghost use Rattle.fp_base_lists.specs.Membership.{list_has};
ghost use Rattle.fp_longestarcs.specs.Networks.{class_count};
ghost use Rattle.fp_longestarcs.specs.Whole.{IsWholeNetwork};
ghost use Rattle.fp_tree.specs.declared.sides.Side.{Side};
ghost use Rattle.fp_allowed.specs.Bits.{bit_of};
ghost use Rattle.fp_prices.specs.Forced.{AreForcedOf, AreRowsUnder, row_cost, truck_cost_at};

use crate::NoMemory;
use fp_allowed::Allowed;
use fp_longestarcs::Network;
use fp_model::Instance;
use fp_rows::Row;
use std::alloc::Global;

/// The classes of the forced chains: for each class, by its number, the sizes in all of the
/// shipments whose chains have it, and a bit that is set where some chain has it.
#[derive(Drop)]
pub(crate) struct ForcedClasses {
    pub(crate) loads: Vec<u128>,
    pub(crate) row: Row,
}

// No chain, at so many classes.
fn no_chains(alloc: Global, classes: u32) -> Result<ForcedClasses, NoMemory>
    ensures loads { IfOk result (λ forced. forced.loads.items ≡ replicate classes 0) }
    ensures row { IfOk result (λ forced. forced.row ≡ replicate classes false) }
{
    Ok(ForcedClasses {
        loads: vec![in alloc; 0; classes as usize]?,
        row: Row::new(alloc, classes)?,
    })
}

// Adds the chain, by the numbers of its classes, of a shipment of a size.
fn add_chain(forced: &mut ForcedClasses, classes: &[u32], size: u64)
    requires apart { AreDistinct classes.now }
    requires loads { All (λ class. class < length forced.old.loads.items) classes.now }
    requires row { All (λ class. class < length forced.old.row) classes.now }
    requires room { All (λ load. load + size < 2 ^ 128) forced.old.loads.items }
    ensures loads { (n : ℕ) → slice_index forced.new.loads.items n ≡ slice_index forced.old.loads.items n + (if list_has classes.now n then size else 0) }
    ensures row { (n : ℕ) → bit_of forced.new.row n ≡ (bit_of forced.old.row n || list_has classes.now n) }
    ensures loads_long { length forced.new.loads.items ≡ length forced.old.loads.items }
    ensures row_long { length forced.new.row ≡ length forced.old.row }
{
    for class in classes {
        forced.loads[*class as usize] += u128::from(size);
        forced.row.set(*class, true);
    }
}

/// The forced classes of a leaf, of which there are none where it is plain. The rows are those of
/// the shipments. `NoMemory` only where no memory is found.
pub(crate) fn forced_classes(
    alloc: Global,
    instance: &Instance,
    allowed: &Allowed,
    classes: u32,
    rows: &[Row],
    forced: bool,
) -> Result<ForcedClasses, NoMemory>
    requires same { instance.now ≡ allowed.now.problem }
    requires whole { IsWholeNetwork allowed.now.problem allowed.now.network }
    requires classes { classes ≡ class_count allowed.now.network }
    requires rows { length rows.now ≡ length instance.now.shipments }
    requires under { (sides : List Side) × AreRowsUnder allowed.now sides rows.now }
    ensures { IfOk result (AreForcedOf allowed.now rows.now forced) }
{
    if !forced {
        return no_chains(alloc, classes);
    }
    let mut found = no_chains(alloc, classes)?;
    for shipment in 0..instance.shipments().len() as u32 {
        let chain = allowed.forced(alloc, shipment, &rows[shipment as usize])?;
        let size = instance.shipment(shipment).size;
        add_chain(&mut found, &chain.classes, size);
    }
    Ok(found)
}

// What the trucks cost that the load of a class needs.
fn class_base(instance: &Instance, network: &Network, forced: &ForcedClasses, class: u32) -> u128
    requires whole { IsWholeNetwork instance.now network.now }
    requires class { class < class_count network.now }
    requires loads { length forced.now.loads.items ≡ class_count network.now }
    requires fits { truck_cost_at instance.now network.now forced.now.loads.items class < 2 ^ 127 }
    ensures { result ≡ truck_cost_at instance.now network.now forced.now.loads.items class }
{
    let arc = instance.arc(network.of_class(class).0);
    let trucks = forced.loads[class as usize].div_ceil(u128::from(arc.capacity));
    u128::from(arc.truck) * trucks
}

/// What the trucks of the forced chains cost, as few in each class as hold its load, in parts of a
/// unit of money. Takes no memory.
pub(crate) fn bases(instance: &Instance, network: &Network, forced: &ForcedClasses) -> u128
    requires whole { IsWholeNetwork instance.now network.now }
    requires loads { length forced.now.loads.items ≡ class_count network.now }
    requires row { length forced.now.row ≡ class_count network.now }
    requires fits { instance.now.scale * row_cost instance.now network.now forced.now.loads.items forced.now.row < 2 ^ 127 }
    ensures { result ≡ instance.now.scale * row_cost instance.now network.now forced.now.loads.items forced.now.row }
{
    let scale = u128::from(instance.scale());
    let mut total = 0;
    let mut next = 0;
    while let Some(class) = forced.row.first_from(next) {
        total += scale * class_base(instance, network, forced, class);
        next = class + 1;
    }
    total
}
