//! The order of lines.
ghost use Rattle.std.specs.Prelude.{◌↔◌, IsTrue};
ghost use Rattle.fp_base_lists.specs.Order.{Precedes};

// Whether one pair of numbers stands before another: by the first numbers, and where these are
// equal by the second.
pub(crate) fn stands_before(first: (u32, u32), second: (u32, u32)) -> bool
    ensures { IsTrue result ↔ Precedes first.0 first.1 second.0 second.1 }
{
    first.0 < second.0 || (first.0 == second.0 && first.1 < second.1)
}
