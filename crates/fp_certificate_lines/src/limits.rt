//! The limit of the numbers that no other limit bounds.

/// The largest number that a field may have where no other limit is named: `2^127 - 1`.
pub const LARGEST_FIGURE: u128 = 170_141_183_460_469_231_731_687_303_715_884_105_727;
