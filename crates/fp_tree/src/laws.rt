//! What the limit of splits is, as a contract without a body.
ghost use Rattle.std.specs.Prelude.{◌≡◌};

use crate::layout::MOST_SPLITS;

/// The most splits of a tree are this number.
pub fn split_limit_is_a_number()
    ensures { MOST_SPLITS ≡ 100000 }
{}
