//! The bytes of an input, and what their records give.
pub(crate) mod certificates;
pub(crate) mod input_bytes;
pub(crate) mod instances;
pub(crate) mod tails;
