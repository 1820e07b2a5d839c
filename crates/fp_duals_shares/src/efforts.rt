//! How much work a search for prices may take.

/// How much work a search for better prices may take, and what a table has to gain.
///
/// The numbers steer only how good a table is found, and how soon. Any numbers are allowed.
#[derive(Clone, Copy, Debug, PartialEq, Eq)]
pub struct Effort {
    /// The most steps of the subgradient ascent; 0 leaves it out.
    pub turns: u32,
    /// After more steps than this with little gain, the target comes nearer.
    pub patience: u32,
    /// How far above the best value the first target lies, in parts of 2^20 of that value.
    pub level: u32,
    /// Where the target would be nearer than this, in the same parts, the ascent ends.
    pub least_level: u32,
    /// The part of the newest walks in the averaged direction, in parts of 64, at most 64.
    pub fresh: u32,
    /// The most passes of the ascent in which no least cost falls; 0 leaves it out.
    pub settle_passes: u32,
    /// The passes in which shipments choose among their least walks so that they share trucks; 0
    /// keeps the first walks that are found, and leaves more shares out of tables.
    pub share_passes: u32,
    /// The turns in which a few shipments at a time choose anew, after these passes.
    pub exchanges: u32,
    /// A table has at most one part in so many of the price lines that are left, at least 1.
    pub line_part: u32,
    /// A table is worth its lines where it raises the value by more than so many parts in 1024.
    pub least_gain: u32,
}

impl Effort {
    /// For the root of a search, as long as it's a leaf.
    pub const ROOT: Effort = Effort {
        turns: 3000,
        patience: 100,
        level: 1 << 19,
        least_level: 1 << 7,
        fresh: 3,
        settle_passes: 5,
        share_passes: 2,
        exchanges: 100,
        line_part: 16,
        least_gain: 0,
    };

    /// For a leaf that a search has chosen.
    pub const CHOSEN: Effort = Effort {
        turns: 150,
        patience: 25,
        level: 1 << 19,
        least_level: 1 << 8,
        fresh: 3,
        settle_passes: 3,
        share_passes: 2,
        exchanges: 100,
        line_part: 16,
        least_gain: 0,
    };

    /// For the two sides of a split.
    pub const CHILD: Effort = Effort {
        turns: 0,
        patience: 8,
        level: 1 << 12,
        least_level: 1 << 8,
        fresh: 6,
        settle_passes: 2,
        share_passes: 0,
        exchanges: 0,
        line_part: 64,
        least_gain: 1,
    };
}
