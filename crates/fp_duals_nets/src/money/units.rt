//! Money in fewer bits.

ghost use Rattle.std.specs.Prelude.{◌≤◌};

use fp_model::Instance;

/// The unit in which a search counts money: a power of two of the parts of a unit of money, so
/// great that no sum of a search passes 64 bits. For most instances it's one part, and then nothing
/// is rounded.
#[derive(Clone, Copy)]
pub struct MoneyUnit {
    shift: u32,
}

// How many bits a number has.
fn bits(number: u128) -> u32
    ensures { result ≤ 128 }
{
    128 - number.leading_zeros()
}

// The most that any shipment pays for a class at the most, in parts of a unit of money.
fn greatest_cost(instance: &Instance) -> u128 {
    let scale = u128::from(instance.scale());
    let mut size = 0;
    for shipment in instance.shipments() {
        size = shipment.size.max(size);
    }
    let mut greatest = 0u128;
    for arc in instance.arcs() {
        let trucks = u128::from(size.div_ceil(arc.capacity.max(1)));
        let all = trucks
            .saturating_mul(u128::from(arc.truck))
            .saturating_add(u128::from(size).saturating_mul(u128::from(arc.freight)));
        greatest = all.saturating_mul(scale).max(greatest);
    }
    greatest
}

impl MoneyUnit {
    /// The unit for the walks of an instance over so many nodes.
    pub(crate) fn of(instance: &Instance, nodes: usize) -> MoneyUnit {
        let most = bits(greatest_cost(instance))
            .saturating_add(bits(nodes as u128))
            .saturating_add(bits(instance.shipments().len() as u128));
        MoneyUnit {
            shift: most.saturating_sub(62),
        }
    }

    /// The money in whole units, rounded down.
    pub fn inner(self, parts: u128) -> u64 {
        let units = parts >> self.shift.min(127);
        units.min(u128::from(u64::MAX)) as u64
    }

    /// So many units in parts of a unit of money.
    pub fn outer(self, units: u64) -> u128 {
        u128::from(units) << self.shift.min(127)
    }
}
