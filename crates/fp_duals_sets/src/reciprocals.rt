//! Reciprocals of numbers of grains: what is paid for a grain is found by a product, which takes a fraction
//! of the time of a quotient.

use crate::NoMemory;
use std::alloc::Global;

/// The reciprocals of numbers of grains, from 0 up to the greatest that was asked for, in parts of 2^63. The
/// memory is kept.
#[derive(Drop)]
pub(crate) struct Reciprocals {
    list: Vec<u64>,
}

impl Reciprocals {
    /// None yet.
    pub(crate) fn new(alloc: Global) -> Reciprocals {
        Reciprocals {
            list: Vec::new(alloc),
        }
    }

    /// What is paid for a grain where a weight is paid for so many, in parts of 2^63; the most where
    /// it's paid for none.
    pub(crate) fn density(&mut self, weight: u64, grains: usize) -> Result<u128, NoMemory> {
        if grains == 0 {
            return Ok(u128::MAX);
        }
        for number in self.list.len()..=grains {
            self.list.push((1u64 << 63) / (number as u64).max(1))?;
        }
        let reciprocal = self.list.get(grains).copied().unwrap_or(0);
        Ok(u128::from(weight).saturating_mul(u128::from(reciprocal)))
    }
}
