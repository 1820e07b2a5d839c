//! The answer of a search that has ended.
ghost use Rattle.std.specs.Prelude.{◌≡◌};
ghost use Rattle.fp_session.specs.Certificates.{IsAnswer, IsBound};
ghost use Rattle.fp_duals_leaves.specs.Prices.{ArePrices};

use crate::searches::Search;
use crate::worths::least_worth;
use fp_certificate_lines::{Answer, Spent};
use fp_duals_leaves::Prices;
use fp_session_history::Left;

// The bound of a search that is unfinished.
fn bound(search: &Search, prices: &Prices) -> u128
    requires { ArePrices search.now.instance search.now.windows prices.now }
    ensures { IsBound search.now prices.now result }
{
    least_worth(search, prices)
}

// The answer of a search, by what it left.
pub(crate) fn answer(search: &Search, prices: &Prices, left: &Left) -> Answer
    requires { ArePrices search.now.instance search.now.windows prices.now }
    ensures { IsAnswer search.now prices.now left.now result }
{
    let cost = search.cost;
    match left {
        Left::Nothing => Answer::Optimal { cost },
        Left::Timing { .. } => Answer::Unfinished {
            cost,
            bound: bound(search, prices),
            spent: Spent::Rounds,
        },
        Left::Several { .. } => Answer::Unfinished {
            cost,
            bound: bound(search, prices),
            spent: Spent::Branches,
        },
        Left::Unsettled { .. } => Answer::Unfinished {
            cost,
            bound: bound(search, prices),
            spent: Spent::Time,
        },
    }
}
