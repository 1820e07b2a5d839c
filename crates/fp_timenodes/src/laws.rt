//! What the limits of points are, as a contract without a body.
ghost use Rattle.std.specs.Prelude.{◌≡◌};

use crate::places::{LATEST, MOST_POINTS};

/// Each limit of points is this number.
pub fn point_limits_are_numbers()
    ensures latest { LATEST ≡ 100000 }
    ensures points { MOST_POINTS ≡ 65000 }
{}
