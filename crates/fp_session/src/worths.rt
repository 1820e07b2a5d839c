//! What leaves are worth.
ghost use Rattle.std.specs.Prelude.{◌≡◌, ◌<◌, ◌≤◌, ⊤, IsSomeAnd, IsTrue, true, ◌↔◌};
ghost use Rattle.fp_tree.specs.Nodes.{leaf_at, leaf_count};
ghost use Rattle.fp_duals_leaves.specs.Prices.{ArePrices};
ghost use Rattle.fp_session_history.specs.Notes.{worth_of};
ghost use Rattle.fp_session.specs.Searches.{history};
ghost use Rattle.fp_session.specs.TreeLines.{IsLeastBelow, IsWorthBelow};

use crate::searches::Search;
use fp_certificate_rules::{reaches, rounded_below};
use fp_duals_leaves::Prices;

// Whether a leaf with this value is worth at least what the incumbent costs.
pub(crate) fn is_dear(search: &Search, prices: &Prices, value: u128) -> bool
    requires { ArePrices search.now.instance search.now.windows prices.now }
    ensures { IsTrue result ↔ (search.now.cost ≤ worth_of (history search.now prices.now) value) }
{
    let amount = value.div_ceil(u128::from(search.instance.scale()));
    reaches(amount, prices.unit(), search.cost)
}

// Whether a leaf with this value is worth at least what the plan in reserve costs: never without one.
pub(crate) fn is_dear_to_reserve(search: &Search, prices: &Prices, value: u128) -> bool
    requires { ArePrices search.now.instance search.now.windows prices.now }
    ensures { result ≡ true → IsSomeAnd search.now.reserve (λ cheaper. ⊤) }
{
    match &search.reserve {
        Some(cheaper) => {
            let amount = value.div_ceil(u128::from(search.instance.scale()));
            reaches(amount, prices.unit(), cheaper.cost)
        }
        None => false,
    }
}

// What a leaf is worth, in whole units of money, rounded up by the unit: none where it is empty, or
// where that isn't below a ceiling.
fn worth_below(search: &Search, prices: &Prices, leaf: u32, ceiling: u128) -> Option<u128>
    requires prices { ArePrices search.now.instance search.now.windows prices.now }
    requires leaf { leaf < leaf_count search.now.tree }
    ensures { IsSomeAnd (leaf_at search.now.tree leaf)
        (λ l. IsWorthBelow (history search.now prices.now) ceiling l result) }
{
    if search.tree.payload(leaf).empty {
        return None;
    }
    let amount = search
        .tree
        .value(leaf)
        .div_ceil(u128::from(search.instance.scale()));
    rounded_below(amount, prices.unit(), ceiling)
}

// The least that a leaf is worth which isn't empty, or what the incumbent costs where that isn't
// below it.
pub(crate) fn least_worth(search: &Search, prices: &Prices) -> u128
    requires { ArePrices search.now.instance search.now.windows prices.now }
    ensures { IsLeastBelow (history search.now prices.now) search.now.cost search.now.tree
        (leaf_count search.now.tree) result }
{
    let mut least = search.cost;
    for leaf in 0..search.tree.leaves() {
        if let Some(worth) = worth_below(search, prices, leaf, least) {
            least = worth;
        }
    }
    least
}
