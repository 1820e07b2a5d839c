//! What comes of improving a leaf.
use fp_longestarcs::TimedWalk;
use fp_prices::LeafPrice;

/// The price of a leaf after an improvement.
#[derive(Drop)]
pub enum Improved {
    /// Some shipment has no allowed timed walk, so no plan obeys the leaf's sides; the first such
    /// shipment.
    Empty {
        shipment: u32,
    },
    /// The leaf's price, its value by this price, in parts of a unit of money of which the
    /// instance's scale makes one, and for each shipment a walk of least cost under the price.
    Priced {
        price: LeafPrice,
        value: u128,
        walks: Vec<TimedWalk>,
    },
}
