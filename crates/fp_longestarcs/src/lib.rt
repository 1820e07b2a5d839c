//! The partially time-expanded network whose timed arcs are as long as its points allow.
//!
//! The network is that of Boland, Hewitt, Marshall and Savelsbergh, "The Continuous-Time Service
//! Network Design Problem", Operations Research 65, 2017: time points at each terminal, and a timed
//! copy of each arc from each point of its tail. The head of a copy is the greatest point of the
//! arc's head that is not after the copy's point and the arc's step, its time and the hold of its
//! head. A class is an arc and a point of its tail; it stands for all moments from that point up
//! to, and without, the next one. Times are whole numbers of the input's unit.
#![tactic(auto)]

mod ascending;
mod copies;
mod listing;
mod lists;
mod networks;
mod stops;
mod timed_walks;

pub use networks::{MOST_CLASSES, Network};
pub use stops::Stop;
pub use timed_walks::TimedWalk;

/// The error of a call that finds no memory.
pub type NoMemory = std::alloc::AllocError;
