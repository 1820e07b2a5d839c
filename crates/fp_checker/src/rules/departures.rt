//! Whether departures are as told.
ghost use Rattle.std.specs.Prelude.{◌≡◌, ◌↔◌, IsTrue};

use fp_timetable::TruckLine;

// Whether truck lines are the same lines in the same order.
pub(crate) fn are_same(first: &[TruckLine], second: &[TruckLine]) -> bool
    ensures { IsTrue result ↔ (first.now ≡ second.now) }
{
    first == second
}
