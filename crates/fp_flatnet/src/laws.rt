//! What the limit of anchors is, as a contract without a body.
ghost use Rattle.std.specs.Prelude.{◌≡◌};

use crate::window_tables::MOST_ANCHORS;

/// The most anchors of windows are this number.
pub fn anchor_limit_is_a_number()
    ensures { MOST_ANCHORS ≡ 30000 }
{}
