//! A plan that is cheaper than another, with what it costs.
use fp_model::Plan;

/// A plan that is cheaper than another, with what it costs.
#[derive(Drop)]
pub struct Cheaper {
    pub plan: Plan,
    pub cost: u128,
}
