//! Whether the parts of a fleet stand in order.
ghost use Rattle.std.specs.Prelude.{◌↔◌, IsTrue};
ghost use Rattle.fp_fleet.specs.Fleets.{BeginsAscend, NeedsAscend, TurnsAscend};

use crate::fleets::{Begin, Need, Turn};

// Whether begins stand by their lines, each line at most once.
pub(crate) fn begins_ascend(begins: &[Begin]) -> bool
    ensures { IsTrue result ↔ BeginsAscend begins.now }
{
    for place in 1..begins.len() {
        if begins[place - 1].line >= begins[place].line {
            return false;
        }
    }
    true
}

// Whether needs stand by their terminals, each terminal at most once.
pub(crate) fn needs_ascend(needs: &[Need]) -> bool
    ensures { IsTrue result ↔ NeedsAscend needs.now }
{
    for place in 1..needs.len() {
        if needs[place - 1].terminal >= needs[place].terminal {
            return false;
        }
    }
    true
}

// Whether turns stand by the lines before and then by those after, each pair at most once.
pub(crate) fn turns_ascend(turns: &[Turn]) -> bool
    ensures { IsTrue result ↔ TurnsAscend turns.now }
{
    for place in 1..turns.len() {
        let (first, second) = (&turns[place - 1], &turns[place]);
        if first.before > second.before
            || (first.before == second.before && first.after >= second.after)
        {
            return false;
        }
    }
    true
}
