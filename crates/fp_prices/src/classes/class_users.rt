//! For how many shipments each class is allowed, and their sizes in all.
ghost use Rattle.std.specs.Prelude.{ℕ, ◌≡◌, ◌+◌, ◌<◌, ◌≤◌, ◌^◌, All, Bool, IfOk, List, if◌then◌else◌, length, slice_index};
ghost use Rattle.fp_model.specs.declared.parts.Leg.{Leg};
ghost use Rattle.fp_longestarcs.specs.Networks.{TimedNetwork};
ghost use Rattle.fp_allowed.specs.Bits.{bit_of};
ghost use Rattle.fp_prices.specs.Rows.{AreRowsOf, AreUsers};

use crate::NoMemory;
use fp_model::Instance;
use fp_rows::Row;
use std::alloc::Global;

/// For each class, by its number, for how many shipments it is allowed, and their sizes in all.
#[derive(Drop)]
pub(crate) struct Users {
    pub(crate) counts: Vec<u32>,
    pub(crate) sizes: Vec<u128>,
}

// Adds a size to those sums whose bits are set.
fn add_size(sizes: &mut [u128], row: &Row, size: u64)
    requires few { length row.now < 2 ^ 32 }
    requires lengths { length row.now ≤ length sizes.old }
    requires room { All (λ sum. sum + size < 2 ^ 128) sizes.old }
    ensures { (n : ℕ) → slice_index sizes.new n ≡ slice_index sizes.old n + (if bit_of row.now n then size else 0) }
{
    let mut next = 0;
    while let Some(class) = row.first_from(next) {
        sizes[class as usize] += u128::from(size);
        next = class + 1;
    }
}

/// The users of each of so many classes, where the rows, one per shipment, have a bit per class.
/// `NoMemory` where memory is wanting.
pub(crate) fn class_users(
    alloc: Global,
    instance: &Instance,
    classes: u32,
    rows: &[Row],
) -> Result<Users, NoMemory>
    requires rows { length rows.now ≡ length instance.now.shipments }
    requires long { All (λ (row : List Bool). length row ≡ classes) rows.now }
    ensures { (net : TimedNetwork) (allowed : ℕ → Leg → Bool) → AreRowsOf net allowed rows.now → IfOk result (AreUsers instance.now net allowed classes) }
{
    let mut counts = vec![in alloc; 0; classes as usize]?;
    let mut sizes = vec![in alloc; 0; classes as usize]?;
    for shipment in 0..instance.shipments().len() as u32 {
        let row = &rows[shipment as usize];
        row.add_to(&mut counts);
        add_size(&mut sizes, row, instance.shipment(shipment).size);
    }
    Ok(Users { counts, sizes })
}
