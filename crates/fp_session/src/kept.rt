//! What is kept of a leaf.
use crate::payloads::Payload;

// The payload and the value of a leaf.
#[derive(Clone, Copy, Debug, PartialEq, Eq)]
pub(crate) struct Kept {
    pub payload: Payload,
    pub value: u128,
}

// What is kept of the two leaves below a split.
#[derive(Clone, Copy, Debug, PartialEq, Eq)]
pub(crate) struct Below {
    pub first: Kept,
    pub second: Kept,
}
