//! Weights of shipments, looked up.

use fp_prices::Weight;

/// The weight of a shipment among weights in order, and 0 where it has none.
pub fn weight_of(weights: &[Weight], shipment: u32) -> u128 {
    let place = weights.partition_point(|weight| weight.shipment < shipment);
    match weights.get(place) {
        Some(weight) if weight.shipment == shipment => weight.w,
        _ => 0,
    }
}
