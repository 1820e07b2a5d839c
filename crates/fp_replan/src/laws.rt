//! What the limit of kept legs is, as a contract without a body.
ghost use Rattle.std.specs.Prelude.{◌≡◌};

use crate::kept::MOST_KEPT;

/// The most kept legs are this number.
pub fn kept_limit_is_a_number()
    ensures { MOST_KEPT ≡ 30000 }
{}
