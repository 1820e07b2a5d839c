//! Those who pay by a span.

/// A shipment that may use classes of a span.
#[derive(Clone, Copy)]
pub struct Payer {
    pub shipment: u32,
    pub span: usize,
    pub size: u64,
    /// What the trucks cost that hold the shipment alone.
    pub most: u64,
    /// The first and the last moment at which it can leave, as far as the payers of the span are
    /// told apart by moments.
    pub lo: u32,
    pub hi: u32,
    /// The edges of its net that stand for classes of the span, among the edges of all payers.
    pub first_edge: usize,
    pub end_edge: usize,
}

/// The first and the last of all moments.
pub(crate) const ALWAYS: (u32, u32) = (0, u32::MAX);

/// What the trucks cost that hold a size alone.
pub(crate) fn most_of(size: u64, truck: u64, capacity: u64) -> u64 {
    truck.saturating_mul(size.div_ceil(capacity.max(1)).max(1))
}

/// The greatest common divisor of two numbers.
pub(crate) fn divisor_of(first: u64, second: u64) -> u64 {
    let (mut first, mut second) = (first, second);
    for _ in 0..128 {
        if second == 0 {
            break;
        }
        let rest = first % second;
        first = second;
        second = rest;
    }
    first
}
