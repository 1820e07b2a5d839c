//! What the numbers of options and words are, as a contract without a body.
ghost use Rattle.std.specs.Prelude.{◌≡◌};
ghost use Rattle.fp_app_words.specs.TimeLimits.{TimeLimitsHold};

use crate::orders::{FEWEST_TERMINALS, GREATEST_SEED, MOST_SECONDS};
use crate::settings::{LONGEST_NUMBER, USUAL_BRANCHES, USUAL_ROUNDS};

/// Each default of an option, and each limit of words that no other crate has, is this number.
pub fn word_limits_are_numbers()
    ensures rounds { USUAL_ROUNDS ≡ 400 }
    ensures branches { USUAL_BRANCHES ≡ 4000 }
    ensures digits { LONGEST_NUMBER ≡ 10 }
    ensures seconds { MOST_SECONDS ≡ 86400 }
    ensures seed { GREATEST_SEED ≡ 2147483647 }
    ensures terminals { FEWEST_TERMINALS ≡ 2 }
{}

/// Whatever the words, a limit of time in their order is 1 second to [`MOST_SECONDS`].
pub fn time_limits_hold()
    ensures { TimeLimitsHold }
{}
