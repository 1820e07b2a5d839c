//! Units, which divide what plans cost: the test, the greatest, and amounts rounded up by them.
ghost use Rattle.std.specs.Prelude.{ℕ, ◌≡◌, ◌*◌, ◌%◌, ◌<◌, ◌≤◌, ◌↔◌, All, IfSome, IsTrue, MatchOption};
ghost use Rattle.fp_model.specs.declared.parts.Shipment.{Shipment as ShipmentParts};
ghost use Rattle.fp_model.specs.Problem.{IsValid};
ghost use Rattle.fp_certificate_lines.specs.Ranges.{IsUnitInRange};
ghost use Rattle.fp_certificate_rules.specs.Units.{IsGreatestUnit, IsLeastAmount, IsUnit, rounded_up};

use fp_model::{Arc, Instance, Shipment};
use fp_prices_knapsack::greatest_common_divisor;

// Whether a unit divides what the freight of each shipment costs, where a unit of size costs so much.
fn divides_freight(unit: u128, freight: u64, shipments: &[Shipment]) -> bool
    requires { 1 ≤ unit }
    ensures { IsTrue result ↔ All (λ (s : ShipmentParts). freight * s.size % unit ≡ 0) shipments.now }
{
    shipments.iter().all(|shipment| u128::from(freight) * u128::from(shipment.size) % unit == 0)
}

/// Whether a unit, at least 1, divides what a truck of each arc costs, and what the freight of each
/// shipment costs over each arc. Takes no memory.
pub fn is_unit(instance: &Instance, unit: u128) -> bool
    requires { 1 ≤ unit }
    ensures { IsTrue result ↔ IsUnit instance.now unit }
{
    let shipments = instance.shipments();
    for arc in instance.arcs() {
        if u128::from(arc.truck) % unit != 0 || !divides_freight(unit, arc.freight, shipments) {
            return false;
        }
    }
    true
}

// The greatest common divisor of a number and of what the freight of each shipment costs over an
// arc: a unit divides it exactly where it divides these.
fn freight_divisor(number: u128, arc: &Arc, shipments: &[Shipment]) -> u128
    ensures { (unit : ℕ) → (result % unit ≡ 0) ↔ ((number % unit ≡ 0)
        × All (λ (s : ShipmentParts). arc.now.freight * s.size % unit ≡ 0) shipments.now) }
{
    let mut divisor = number;
    for shipment in shipments {
        let cost = u128::from(arc.freight) * u128::from(shipment.size);
        divisor = greatest_common_divisor(divisor, cost);
    }
    divisor
}

// The greatest common divisor of what a truck of each arc costs, and of what the freight of each
// shipment costs over each arc, 0 where nothing costs anything: its divisors are the units.
fn costs_divisor(instance: &Instance) -> u128
    ensures units { (unit : ℕ) → (result % unit ≡ 0) ↔ IsUnit instance.now unit }
    ensures valid { IsValid instance.now }
{
    let shipments = instance.shipments();
    let mut divisor = 0;
    for arc in instance.arcs() {
        let with_truck = greatest_common_divisor(divisor, u128::from(arc.truck));
        divisor = freight_divisor(with_truck, arc, shipments);
    }
    divisor
}

/// The greatest unit of an instance: the greatest number that divides what a truck of each arc
/// costs, and what the freight of each shipment costs over each arc, and 1 where nothing costs
/// anything. Each unit divides it where something costs something. It is at least 1, and no larger
/// than a certificate may name. Takes no memory.
pub fn unit_of(instance: &Instance) -> u128
    ensures greatest { IsGreatestUnit instance.now result }
    ensures unit { IsUnit instance.now result }
    ensures range { IsUnitInRange result }
{
    match costs_divisor(instance) {
        0 => 1,
        divisor => divisor,
    }
}

/// Whether an amount, rounded up to a multiple of the unit where there is one, is at least a claim.
/// Units are at least 1. Takes no memory.
pub fn reaches(amount: u128, unit: Option<u128>, claim: u128) -> bool
    requires { IfSome unit (λ u. 1 ≤ u) }
    ensures { IsTrue result ↔ (claim ≤ rounded_up unit amount) }
{
    // No multiple is made, which might pass 128 bits.
    match unit {
        Some(unit) => claim.div_ceil(unit) <= amount.div_ceil(unit),
        None => claim <= amount,
    }
}

/// An amount, rounded up to a multiple of the unit where there is one, if that is below a ceiling.
/// Units are at least 1. Takes no memory.
pub fn rounded_below(amount: u128, unit: Option<u128>, ceiling: u128) -> Option<u128>
    requires { IfSome unit (λ u. 1 ≤ u) }
    ensures { MatchOption result (ceiling ≤ rounded_up unit amount)
        (λ n. (n ≡ rounded_up unit amount) × (n < ceiling)) }
{
    if reaches(amount, unit, ceiling) {
        return None;
    }
    match unit {
        Some(unit) => Some(amount.div_ceil(unit) * unit),
        None => Some(amount),
    }
}

/// The least amount that is at least a claim, where amounts are rounded up to a multiple of the
/// unit, if there is one: then it is 1 more than the greatest multiple of the unit below the claim,
/// or 0 where the claim is. Units are at least 1. Takes no memory.
pub fn least_amount(unit: Option<u128>, claim: u128) -> u128
    requires { IfSome unit (λ u. 1 ≤ u) }
    ensures { IsLeastAmount unit claim result }
{
    match unit {
        Some(unit) if claim > 0 => (claim - 1) / unit * unit + 1,
        _ => claim,
    }
}
