//! The lines of a timetable, and the number that puts them in order.
ghost use Rattle.std.specs.Prelude.{◌≡◌};
ghost use Rattle.fp_timetable.specs.Order.{rank_of};

/// A leg of a plan: the shipment and the arc by their numbers, and when the shipment leaves the
/// arc's tail and arrives at its head, in the input's unit of time.
#[derive(Clone, Copy, PartialEq, Eq)]
pub struct LegLine {
    pub shipment: u32,
    pub arc: u32,
    pub depart: u32,
    pub arrive: u32,
}

/// A departure of a plan: the arc by its number, when it is left, the trucks that leave, and the
/// load that they carry, in the unit of sizes.
#[derive(Clone, Copy, PartialEq, Eq)]
pub struct TruckLine {
    pub arc: u32,
    pub depart: u32,
    pub trucks: u128,
    pub load: u128,
}

// One number that puts lines in order by the first number and then by the second.
pub(crate) fn rank(first: u32, second: u32) -> u64
    ensures { result ≡ rank_of first second }
{
    u64::from(first) * (1 << 32) + u64::from(second)
}
