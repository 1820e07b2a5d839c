//! Kept legs: legs that shipments go by in any case.

/// The most kept legs.
pub const MOST_KEPT: usize = 30_000;

/// A leg that a shipment goes by in any case: the numbers of the shipment and of the arc, and the
/// time at which it is left, in the input's unit.
///
/// The kept legs of one shipment, in their order, begin its route.
#[derive(Clone, Copy, Debug, PartialEq, Eq)]
pub struct Kept {
    pub shipment: u32,
    pub arc: u32,
    pub depart: u32,
}
