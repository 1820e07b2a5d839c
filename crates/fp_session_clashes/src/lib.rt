//! At which places a round adds points, the network with these, and the same walks over it.
//!
//! A round adds points at the places of too short legs of its relaxed plan (Boland, Hewitt, Marshall and
//! Savelsbergh, "The Continuous-Time Service Network Design Problem", Operations Research 65, 2017). Where
//! spans are sought it adds points where least walks clash, as the search for spans found, which is this
//! project's own.
//!
//! What is proved of the places is that they are such, each once, and some where there is a too short leg;
//! of the network that it is that of the points; and of the walks that they are allowed.
#![tactic(auto)]

mod cheaper_walks;
mod laying;
mod places;
mod refining;
mod walk_legs;

pub use cheaper_walks::{are_cheaper, are_routes};
pub use laying::laid_walks;
pub use places::round_places;
pub use refining::{RefinedNetwork, refined};

/// The error of a call that finds no memory.
pub type NoMemory = std::alloc::AllocError;
