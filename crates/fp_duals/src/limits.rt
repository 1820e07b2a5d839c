//! The limit of the tables of a run.

/// The most price lines in one run: all tables, their shares, and all their weights.
pub const MOST_PRICE_LINES: u32 = 500_000;
