//! What a search has in hand.
use crate::payloads::Payload;
use crate::preparations::Preparation;
use fp_flatnet::Windows;
use fp_longestarcs::Network;
use fp_model::{Instance, Plan};
use fp_session_history::{Budget, Left, RoundNote};
use fp_session_looks::Cheaper;
use fp_timenodes::Points;
use fp_tree::Tree;

// What a search has in hand, besides its tables of prices.
#[derive(Drop)]
pub(crate) struct Search {
    pub instance: Instance,
    pub windows: Windows,
    pub budget: Budget,
    // What the plan cost that the search started with.
    pub started: u128,
    // The cheapest plan in hand, and what it costs.
    pub incumbent: Plan,
    pub cost: u128,
    // A still cheaper plan, which waits: rounds start below what the incumbent costs, and a plan that is
    // cheap too early would leave no walks below it.
    pub reserve: Option<Cheaper>,
    // What is done next before a step.
    pub preparation: Preparation,
    // The points as of each round, and the network as of the last one.
    pub points: Points,
    pub network: Network,
    pub tree: Tree<Payload>,
    // The notes on the rounds.
    pub trace: Vec<RoundNote>,
    // Once the search has ended, what it left.
    pub left: Option<Left>,
}
