//! The limits of a certificate's own.

/// The most points that one round may add.
pub const MOST_IN_ROUND: usize = 8;

/// The most narrowings that a certificate may have.
pub const MOST_NARROWINGS: usize = 50_000;
