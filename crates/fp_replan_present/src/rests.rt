//! What is left of a day that is under way, as an instance of its own.
use fp_model::{Instance, Plan};
use fp_replan::Kept;

/// What is left of a day.
#[derive(Drop)]
pub struct Rest {
    /// The instance of what is left: the same terminals, arcs and scale, and of the shipments those
    /// that aren't delivered, in order, each from where it is and released when it can go on.
    pub instance: Instance,
    /// The promised legs, with the numbers of what is left.
    pub kept: Vec<Kept>,
    /// For each shipment of what is left its number in the instance of the day.
    pub numbers: Vec<u32>,
    /// For each shipment of the day its settled legs.
    pub settled: Plan,
    /// What the settled legs cost: the trucks of their departures, by the load of those alone, and their
    /// flow. A plan under way costs this and what its plan of what is left costs.
    pub sunk: u128,
    /// For each shipment of what is left the terminals where it was or is.
    pub gone: Vec<Vec<u32>>,
}

/// What is left of a day, or that no plan goes on with it.
#[derive(Drop)]
pub enum Left {
    /// What is left, and a plan of it with which a search begins: it lies within the windows of
    /// [`windows`](crate::windows).
    Open { rest: Rest, start: Plan },
    /// No plan is under way, over any denominator. The shipment, by its number in the instance of the
    /// day, is the first that no legs under way carry.
    Stuck { shipment: u32 },
}
