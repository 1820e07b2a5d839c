//! Which classes a limit bars for a shipment, by the least costs of its walks that have them.
ghost use Rattle.std.specs.Prelude.{◌≡◌, ◌+◌, ◌<◌, ◌^◌, IfSome};
ghost use Rattle.fp_prices_bars.specs.BarTests.{bars_by};

use crate::limits::BarLimit;

/// What decides for one shipment which classes are barred: what all else comes to at the leaf, the
/// bases and the least costs of the other shipments, what comes off, and the limit. `charges` may be
/// cut off where it passes 128 bits.
#[derive(Clone, Copy)]
pub(crate) struct BarTest {
    pub(crate) rest: u128,
    pub(crate) charges: u128,
    pub(crate) scale: u32,
    pub(crate) limit: BarLimit,
}

/// Whether a class is barred, where this is the least cost of the shipment's walks that have it;
/// it is where there are none. Takes no memory.
pub(crate) fn is_barred(test: &BarTest, through: Option<u128>) -> bool
    requires scale { 0 < test.now.scale }
    requires small { IfSome through (λ cost. test.now.rest + cost + test.now.limit.more < 2 ^ 128) }
    ensures { result ≡ bars_by test.now through }
{
    let cost = match through {
        Some(cost) => cost,
        None => return true,
    };
    let value = (test.rest + cost).saturating_sub(test.charges);
    let worth = (value + test.limit.more).saturating_sub(test.limit.less);
    test.limit.money <= worth.div_ceil(u128::from(test.scale))
}
