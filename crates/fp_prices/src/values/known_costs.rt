//! Least costs of shipments that are known from an earlier leaf, each with the row it was found
//! with.
ghost use Rattle.std.specs.Prelude.{ℕ, ◌≡◌, ◌+◌, ◌≤◌, ◌⊎◌, IfOk, IfSome, IsTrue, Some, length, slice_get};
ghost use Rattle.fp_prices.specs.KnownCosts.{IsKnown};

use crate::NoMemory;
use fp_rows::Row;
use std::alloc::Global;

/// The least cost of a shipment that was found at an earlier leaf, and the shipment's row there.
#[derive(Drop)]
pub(crate) struct KnownCost {
    pub(crate) row: Row,
    pub(crate) cost: u128,
}

/// The known cost of a shipment, where it was found with the same row. The rows have this number of
/// bits.
pub(crate) fn known_cost(known: &[KnownCost], shipment: u32, row: &Row, bits: u32) -> Option<u128>
    requires row { length row.now ≡ bits }
    requires known { (entry : _) → slice_get known.now shipment ≡ Some entry → length entry.row ≡ bits }
    ensures { IfSome result (IsKnown known.now shipment row.now) }
{
    let entry = known.get(shipment as usize)?;
    if are_same(&entry.row, row, bits) {
        Some(entry.cost)
    } else {
        None
    }
}

// Whether two rows with this number of bits are the same.
fn are_same(left: &Row, right: &Row, bits: u32) -> bool
    requires left { length left.now ≡ bits }
    requires right { length right.now ≡ bits }
    ensures { IsTrue result → left.now ≡ right.now }
{
    for place in 0..bits {
        if left.get(place) != right.get(place) {
            return false;
        }
    }
    true
}

// A row with the same bits, so many.
fn copied(alloc: Global, row: &Row, bits: u32) -> Result<Row, NoMemory>
    requires { length row.now ≡ bits }
    ensures { IfOk result (λ copy. copy ≡ row.now) }
{
    let mut copy = Row::new(alloc, bits)?;
    copy.fill_range(0, bits);
    copy.and_with(row);
    Ok(copy)
}

/// Makes the cost known that was found for a shipment with a row of this number of bits. The costs
/// of all shipments before are known. `NoMemory` only where no memory is found.
pub(crate) fn keep_cost(
    alloc: Global,
    known: &mut Vec<KnownCost>,
    shipment: u32,
    row: &Row,
    bits: u32,
    cost: u128,
) -> Result<(), NoMemory>
    requires row { length row.now ≡ bits }
    requires before { shipment ≤ length known.old.items }
    ensures more { IfOk result (λ _. shipment + 1 ≤ length known.new.items) }
    ensures known { IfOk result (λ _. (k : ℕ) (entry : _) → slice_get known.new.items k ≡ Some entry →
        (slice_get known.old.items k ≡ Some entry) ⊎ ((k ≡ shipment) × (entry ≡ record { row = row.now; cost = cost }))) }
{
    let row = copied(alloc, row, bits)?;
    let entry = KnownCost { row, cost };
    if (shipment as usize) < known.len() {
        known[shipment as usize] = entry;
    } else {
        known.push(entry)?;
    }
    Ok(())
}
