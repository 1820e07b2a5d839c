//! Prices of a class for one shipment: even prices, and prices by a share.
ghost use Rattle.std.specs.Prelude.{ℕ, ◌≡◌, ◌<◌, ◌^◌, AllPairs, length};
ghost use Rattle.fp_model.specs.Problem.{arc_at};
ghost use Rattle.fp_prices.specs.declared.tables.Weight.{Weight};
ghost use Rattle.fp_prices.specs.Prices.{even_price as even_price_of, share_price as share_price_of, linear_price};

use crate::classes::share_searches::weight_of;
use crate::tables::Share;
use fp_model::Instance;

/// The even price for a shipment of a class of an arc that exists, where so many shipments of so
/// much size in all are allowed, one at least: an equal part of one truck where it holds them all,
/// and the linear price elsewhere.
pub(crate) fn even_price(instance: &Instance, arc: u32, count: u32, all: u128, linear: u128) -> u128
    requires arc { arc < length instance.now.arcs }
    requires some { 0 < count }
    ensures { (size : ℕ) → linear ≡ linear_price instance.now.scale (arc_at instance.now arc) size →
        result ≡ even_price_of instance.now.scale (arc_at instance.now arc) count all size }
{
    let arc = instance.arc(arc);
    if all <= u128::from(arc.capacity) {
        u128::from(instance.scale()) * u128::from(arc.truck) / u128::from(count)
    } else {
        linear
    }
}

/// The price by a share for the shipment with a number and a size, in parts of a unit of money.
pub(crate) fn share_price(share: &Share, shipment: u32, size: u64) -> u128
    requires weights { AllPairs (λ (v w : Weight). v.shipment < w.shipment) share.now.weights }
    requires fits { share_price_of share.now shipment size < 2 ^ 128 }
    ensures { result ≡ share_price_of share.now shipment size }
{
    weight_of(&share.weights, shipment) + u128::from(size) * share.v
}
