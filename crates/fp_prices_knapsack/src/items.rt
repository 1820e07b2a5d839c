//! Items, and all of them together.

ghost use Rattle.std.specs.Prelude.{◌≡◌, ◌^◌, ◌≤◌, MatchOption, sum};
ghost use Rattle.fp_prices_knapsack.specs.Sets.{sizes_of};
ghost use Rattle.fp_prices_knapsack.specs.Charges.{total_weight};

/// What may be put into a truck.
#[derive(Clone, Copy, Debug, PartialEq, Eq)]
pub struct Item {
    /// How much of a truck it fills, in the unit of the truck's capacity.
    pub size: u64,
    /// What it weighs against the money for trucks.
    pub weight: u128,
}

// The size of all items.
pub(crate) fn total_size(items: &[Item]) -> u128
    ensures { result ≡ sum (sizes_of items.now) }
{
    let mut total = 0;
    for item in items {
        total += u128::from(item.size);
    }
    total
}

// The weight of all items, or `None` exactly where it is 2^128 or more.
pub(crate) fn small_weight(items: &[Item]) -> Option<u128>
    ensures { MatchOption result (2 ^ 128 ≤ total_weight items.now)
        (λ total. total ≡ total_weight items.now) }
{
    let mut total: u128 = 0;
    for item in items {
        total = total.checked_add(item.weight)?;
    }
    Some(total)
}
