//! What the limit of runs is, as a contract without a body.
ghost use Rattle.std.specs.Prelude.{◌≡◌};

use crate::days::MOST_RUNS;

/// The most runs that are told are this number.
pub fn run_limit_is_a_number()
    ensures { MOST_RUNS ≡ 1000000 }
{}
