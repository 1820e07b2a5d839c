//! How much work a search for spans may take.

/// How much work a search for spans may take.
///
/// The numbers steer only how good spans are found, and how soon. Any numbers are allowed.
#[derive(Clone, Copy, Debug, PartialEq, Eq)]
pub struct SpanEffort {
    /// The most steps of the subgradient ascent; 0 leaves it out.
    pub turns: u32,
    /// After more steps than this with little gain, the target comes nearer.
    pub patience: u32,
    /// How far above the best value the first target lies, in parts of 2^20 of that value.
    pub level: u32,
    /// Where the target would be nearer than this, in the same parts, the ascent ends.
    pub least_level: u32,
    /// Where there are at most so many pairs of a shipment and a class that it may use, the ascent
    /// goes on until the target would be nearer than one part.
    pub small: u32,
    /// The part of the newest walks in the averaged direction, in parts of 64, at most 64.
    pub fresh: u32,
    /// The most loads by which sets are told apart in the subgradient ascent; sizes are rounded
    /// down where there are more.
    pub loads: u32,
    /// The most passes of the ascent in which the value doesn't fall; 0 leaves it out.
    pub settle_passes: u32,
    /// How many times spans of several classes may be laid over those that are there.
    pub joins: u32,
    /// The most steps of the subgradient ascent over whole arcs; 0 leaves that search out.
    pub arc_turns: u32,
    /// After more steps than this with little gain, its target comes nearer.
    pub arc_patience: u32,
    /// The most steps of the ascent after it, in which groups are merged; 0 leaves it out.
    pub merged_turns: u32,
    /// How far above the best value its first target lies, as `level`.
    pub merged_level: u32,
    /// Whether the search that goes on from spans over whole arcs is made alone, where such are handed in.
    pub alone: bool,
    /// By how much less spans over whole arcs may be worth than others and are taken all the same, in parts
    /// of 2^20 of their value: what goes on from them takes a fraction of the time.
    pub arc_loss: u32,
}

impl SpanEffort {
    /// For the root of a search, as long as it's a leaf.
    pub const ROOT: SpanEffort = SpanEffort {
        turns: 4000,
        patience: 200,
        level: 32 << 10,
        least_level: 256,
        small: 2000,
        fresh: 3,
        loads: 512,
        settle_passes: 5,
        joins: 3,
        arc_turns: 4000,
        arc_patience: 60,
        merged_turns: 2000,
        merged_level: 4 << 10,
        alone: false,
        arc_loss: 0,
    };
}
