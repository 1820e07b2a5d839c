//! What a search has in hand, in numbers.
ghost use Rattle.std.specs.Prelude.{◌≡◌, ◌≤◌, length};
ghost use Rattle.fp_model.specs.Costs.{cost};
ghost use Rattle.fp_flatnet.specs.Tables.{windows_in};
ghost use Rattle.fp_tree.specs.Nodes.{split_count};
ghost use Rattle.fp_certificate_rules.specs.Claims.{NoPlanWithinCheaper};
ghost use Rattle.fp_session.specs.Searches.{IsSearch, cheapest_cost};

use crate::searches::Search;
use crate::worths::least_worth;
use fp_duals_leaves::Prices;
use fp_tree::leaves_cover_all;

/// How many rounds and splits a search has made, what the cheapest plan costs that it has found, and a
/// number under which no plan within its windows costs.
#[derive(Clone, Copy, Debug, PartialEq, Eq)]
pub struct Progress {
    pub rounds: u32,
    pub branches: u32,
    pub cost: u128,
    pub bound: u128,
}

// The numbers of a search, whatever it has yet to do.
pub(crate) fn progress_of(search: &Search, prices: &Prices) -> Progress
    requires { IsSearch search.now prices.now }
    ensures rounds { result.rounds ≡ length search.now.trace.items }
    ensures branches { result.branches ≡ split_count search.now.tree }
    ensures cost { result.cost ≡ cheapest_cost search.now.cost search.now.reserve }
    ensures bound { NoPlanWithinCheaper search.now.instance (windows_in search.now.windows) result.bound }
    ensures below { result.bound ≤ result.cost }
{
    // The nodes are one tree.
    leaves_cover_all(&search.tree);
    let cost = match &search.reserve {
        Some(reserve) => reserve.cost,
        None => search.cost,
    };
    Progress {
        rounds: search.trace.len() as u32,
        branches: search.tree.splits(),
        cost,
        bound: least_worth(search, prices).min(cost),
    }
}
