//! How a tree lies in memory: what each node is, and apart from it what only leaves have.
ghost use Rattle.std.specs.Prelude.{◌≡◌, false};
ghost use Rattle.fp_tree.specs.Layout.{split_of_kind};

use crate::sides::Split;

/// The most splits of a tree.
pub const MOST_SPLITS: u32 = 100_000;

/// What a node is, without the payloads.
#[derive(Clone, Copy)]
pub enum Kind {
    /// A split, with the terminal that its arc leaves.
    Divided { split: Split, tail: u32 },
    /// A leaf.
    Leaf,
}

impl Kind {
    /// What a split divides by, and None at a leaf.
    pub fn split(self) -> Option<Split>
        ensures { result ≡ split_of_kind self }
    {
        match self {
            Kind::Divided { split, .. } => Some(split),
            Kind::Leaf => None,
        }
    }
}

/// What a leaf has.
#[derive(Drop)]
pub struct LeafState<T> {
    pub payload: T,
    pub value: u128,
    pub closed: bool,
}

impl<T> LeafState<T> {
    /// The state of a leaf that isn't closed.
    pub fn open(payload: T, value: u128) -> Self
        ensures { result ≡ (record { payload = payload; value = value; closed = false }) }
    {
        LeafState {
            payload,
            value,
            closed: false,
        }
    }
}
