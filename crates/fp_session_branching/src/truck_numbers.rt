//! How many trucks the sides of a leaf leave an arc over its whole time.
ghost use Rattle.std.specs.Prelude.{◌≡◌, ◌<◌, ◌≤◌, length};
ghost use Rattle.std.specs.Int.{div_ceil};
ghost use Rattle.fp_model.specs.declared.limits.TheConstants.{GREATEST_AMOUNT};
ghost use Rattle.fp_session_history.specs.Divisions.{fewest_trucks as fewest_trucks_of, most_trucks as most_trucks_of, trucks_alone as trucks_alone_on, whole_gift as whole_gift_of};

use fp_model::Instance;
use fp_prices_gifts::{Gift, gift_number};
use fp_timenodes::LATEST;
use fp_tree::Side;

// A gift, without an amount, for the trucks of an arc over its whole time.
fn whole_gift(arc: u32, least: bool) -> Gift
    ensures { result ≡ whole_gift_of arc least }
{
    Gift {
        arc,
        point: 0,
        until: LATEST + 1,
        least,
        amount: 0,
    }
}

/// The fewest trucks that the sides leave an arc over its whole time.
pub(crate) fn fewest_trucks(sides: &[Side], arc: u32) -> u64
    ensures { result ≡ fewest_trucks_of sides.now arc }
{
    match gift_number(sides, whole_gift(arc, true)) {
        Some(number) => number,
        None => 0,
    }
}

// The trucks of that capacity that a shipment of that size needs alone.
fn trucks_of(size: u64, capacity: u64) -> u128
    requires size { size ≤ GREATEST_AMOUNT }
    requires capacity { 1 ≤ capacity }
    ensures exact { result ≡ div_ceil size capacity }
    ensures small { result ≤ GREATEST_AMOUNT }
{
    u128::from(size).div_ceil(u128::from(capacity))
}

// The trucks of an arc that each shipment goes by alone: no plan has more.
fn trucks_alone(instance: &Instance, arc: u32) -> u128
    requires { arc < length instance.now.arcs }
    ensures { result ≡ trucks_alone_on instance.now arc }
{
    let capacity = instance.arc(arc).capacity;
    let mut total = 0;
    for shipment in instance.shipments() {
        total += trucks_of(shipment.size, capacity);
    }
    total
}

/// The most trucks that the sides leave an arc over its whole time.
pub(crate) fn most_trucks(instance: &Instance, sides: &[Side], arc: u32) -> u128
    requires { arc < length instance.now.arcs }
    ensures { result ≡ most_trucks_of instance.now sides.now arc }
{
    let alone = trucks_alone(instance, arc);
    match gift_number(sides, whole_gift(arc, false)) {
        Some(number) => alone.min(u128::from(number)),
        None => alone,
    }
}
