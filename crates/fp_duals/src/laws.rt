//! What the limit of a run's tables is, as a contract without a body.
ghost use Rattle.std.specs.Prelude.{◌≡◌};

use crate::limits::MOST_PRICE_LINES;

/// The most price lines in one run are this number.
pub fn price_line_limit_is_a_number()
    ensures { MOST_PRICE_LINES ≡ 500000 }
{}
