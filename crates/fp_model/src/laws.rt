//! What the limits are, as contracts without a body.
ghost use Rattle.std.specs.Prelude.{◌≡◌, ◌^◌};

use crate::limits::{
    GREATEST_AMOUNT, GREATEST_HOLD, GREATEST_SCALE, LAST_ROUND, LATEST, LONGEST_NAME, MOST_ARCS,
    MOST_SHIPMENTS, MOST_TERMINALS, MOST_TIMED_NODES, SCALE,
};

/// Each limit of the problem is this number.
pub fn limits_are_numbers()
    ensures terminals { MOST_TERMINALS ≡ 100 }
    ensures arcs { MOST_ARCS ≡ 1000 }
    ensures shipments { MOST_SHIPMENTS ≡ 500 }
    ensures name { LONGEST_NAME ≡ 32 }
    ensures latest { LATEST ≡ 100000 }
    ensures hold { GREATEST_HOLD ≡ 1000 }
    ensures amount { GREATEST_AMOUNT ≡ 10 ^ 18 }
    ensures scale { SCALE ≡ 1000000 }
    ensures greatest_scale { GREATEST_SCALE ≡ 1000000000 }
    ensures nodes { MOST_TIMED_NODES ≡ 65536 }
    ensures round { LAST_ROUND ≡ 4000 }
{}
