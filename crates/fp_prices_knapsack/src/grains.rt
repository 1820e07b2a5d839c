//! The grain in which the sizes of items are counted.

ghost use Rattle.std.specs.Prelude.{◌≡◌, ◌/◌, ◌<◌, ◌≤◌, sum};
ghost use Rattle.fp_prices_knapsack.specs.Sets.{sizes_of};
ghost use Rattle.fp_prices_knapsack.specs.Grains.{common_divisor, grain_of};

use crate::common_divisors::greatest_common_divisor;
use crate::items::{Item, total_size};

/// The most grains that all items together may have.
pub const MOST_GRAINS: u128 = 4_096;

// The greatest common divisor of a number from 1 and the sizes of the items.
fn divisor_of_all(number: u64, items: &[Item]) -> u128
    requires { 0 < number }
    ensures same { result ≡ common_divisor number (sizes_of items.now) }
    ensures some { 0 < result }
{
    let mut divisor = u128::from(number);
    for item in items {
        divisor = greatest_common_divisor(divisor, u128::from(item.size));
    }
    divisor
}

/// The grain of a truck's capacity, from 1, and these items: the greatest common divisor of the
/// capacity and the sizes where all items together have at most [`MOST_GRAINS`] of it, and otherwise
/// the size of all items over [`MOST_GRAINS`], rounded up. It is at least 1, and all items together
/// have at most [`MOST_GRAINS`] of it.
pub fn grain(capacity: u64, items: &[Item]) -> u128
    requires { 0 < capacity }
    ensures same { result ≡ grain_of capacity (sizes_of items.now) }
    ensures some { 0 < result }
    ensures few { sum (sizes_of items.now) / result ≤ MOST_GRAINS }
{
    let total = total_size(items);
    let divisor = divisor_of_all(capacity, items);
    if total / divisor <= MOST_GRAINS {
        divisor
    } else {
        total.div_ceil(MOST_GRAINS)
    }
}
