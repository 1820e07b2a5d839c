//! Gifts to leaves with sides by trucks.

/// The amounts of all gifts of a list come together to less than this, in parts of a unit of money, so
/// that no value passes 128 bits: a gift counts at most 2^32 times.
pub const MOST_GIFTS: u128 = 1 << 90;

/// A part of what each truck costs that leaves by an arc at `point` or later and before `until`.
///
/// With `least`, that at least so many trucks leave so is worth the amount for each of them, and no
/// shipment pays for this part. Otherwise, that at most so many leave costs the amount for each of
/// them, and shipments may pay so much more for a truck than it costs. How many they are is told by
/// the leaf's sides of the same arc and the same times. The amount counts parts of a unit of money.
#[derive(Clone, Copy, PartialEq, Eq, Debug)]
pub struct Gift {
    pub arc: u32,
    pub point: u32,
    pub until: u32,
    pub least: bool,
    pub amount: u128,
}
