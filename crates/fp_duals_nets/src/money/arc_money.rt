//! What the trucks and the freight of each arc cost.

use crate::NoMemory;
use crate::money::units::MoneyUnit;
use fp_model::Instance;
use std::alloc::Global;

/// What an arc costs, in the unit of the search.
#[derive(Clone, Copy)]
pub struct ArcMoney {
    /// One truck.
    pub truck: u64,
    /// The same in parts of a unit of money.
    pub truck_parts: u128,
    /// One unit of size, in parts of a unit of money.
    pub freight_parts: u128,
    /// What a truck holds, at least 1.
    pub capacity: u64,
}

impl ArcMoney {
    /// What the freight of a size costs.
    pub(crate) fn flow(self, unit: MoneyUnit, size: u64) -> u64 {
        unit.inner(self.freight_parts.saturating_mul(u128::from(size)))
    }

    /// How many trucks a load takes.
    pub fn trucks(self, load: u64) -> u64 {
        load.div_ceil(self.capacity.max(1))
    }

    /// What a size costs by the price that goes by size alone.
    pub fn linear(self, size: u64) -> u64 {
        size.wrapping_mul(self.truck / self.capacity.max(1))
    }
}

/// What each arc of an instance costs.
pub(crate) fn arc_money(
    alloc: Global,
    instance: &Instance,
    unit: MoneyUnit,
) -> Result<Vec<ArcMoney>, NoMemory> {
    let scale = u128::from(instance.scale());
    let mut arcs = Vec::with_capacity(alloc, instance.arcs().len())?;
    for arc in instance.arcs() {
        let truck_parts = scale.saturating_mul(u128::from(arc.truck));
        arcs.push(ArcMoney {
            truck: unit.inner(truck_parts),
            truck_parts,
            freight_parts: scale.saturating_mul(u128::from(arc.freight)),
            capacity: arc.capacity,
        })?;
    }
    Ok(arcs)
}
