//! An instance drawn from a number.
pub(crate) mod draws;
pub(crate) mod generator;
pub(crate) mod ordinal_names;
