//! What each command shows.
pub(crate) mod bounds;
pub(crate) mod checks;
pub(crate) mod days;
pub(crate) mod directs;
pub(crate) mod fleets;
pub(crate) mod improvements;
pub(crate) mod named_quotes;
pub(crate) mod options;
pub(crate) mod plans;
pub(crate) mod quotes;
pub(crate) mod replans;
pub(crate) mod searches;
pub(crate) mod trials;
pub(crate) mod yards;
