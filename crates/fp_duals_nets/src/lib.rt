//! The nets of the shipments at a leaf: for each shipment the nodes and edges of its allowed timed
//! walks, numbered so that least walks are found in few passes over the edges, with the money of a
//! search in 64 bits; and walks of all shipments over these nets, which share trucks.
//!
//! It's made for heuristics, whose results are tested afterwards: nothing is promised of a net or a
//! walk but that it's made and searched safely. All look-ups with a number that isn't there give
//! nothing.
#![tactic(auto)]

mod classes;
mod leaf_nets;
mod lent_nets;
mod money;
mod nets;
mod slices;
mod walks;

pub use classes::class_nodes::{ClassNodes, WAIT};
pub use classes::users::{ClassUsers, class_users};
pub use leaf_nets::{LeafNets, loads_where};
pub use lent_nets::LentNets;
pub use money::arc_money::ArcMoney;
pub use money::units::MoneyUnit;
pub use nets::class_pools::{ClassPool, ClassPools, PoolPart};
pub use nets::least_walks::{Edge, FAR, Label, cost_of, last_edge};
pub use nets::shipment_nets::{EdgeUse, Net, Nets};
pub use slices::{copy_all, part_mut};
pub use walks::draws::Draws;
pub use walks::load_costs::{ALL_PARTS, LoadCosts};
pub use walks::shared_walks::{SharedWalks, timed_walks};
pub use walks::truck_sharing::least_walks;

/// The error of a call that finds no memory.
pub type NoMemory = std::alloc::AllocError;
