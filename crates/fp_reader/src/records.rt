//! The records of an instance, one kind a file.
pub(crate) mod arcs;
pub(crate) mod codes;
pub(crate) mod ends;
pub(crate) mod shipments;
pub(crate) mod terminals;
