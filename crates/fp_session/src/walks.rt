//! Walks under the sides of a leaf that cost less than the incumbent.
ghost use Rattle.std.specs.Prelude.{◌≡◌, All, IfOk, IfSome};
ghost use Rattle.fp_model.specs.Routes.{ArcsExist};
ghost use Rattle.fp_prices.specs.Tables.{HasKind};
ghost use Rattle.fp_duals_walks.specs.AllowedWalks.{AreAllowedWalks};
ghost use Rattle.fp_session_history.specs.Solutions.{AreWalksUnder};
ghost use Rattle.fp_session.specs.Moves.{points_now};
ghost use Rattle.fp_session.specs.Searches.{IsSearch, setting_of};
ghost use Rattle.fp_session.specs.Walks.{AreCheaperWalks};

use crate::NoMemory;
use crate::searches::Search;
use fp_duals_leaves::{Prices, walks_by_spans};
use fp_duals_nets::LentNets;
use fp_duals_walks::cheap_walks;
use fp_ends::{Deadline, Resources};
use fp_model::Instance;
use fp_prices::{Leaf, LeafPrice};
use fp_relaxmodel::{RelaxedPlan, TimedWalk, coarsen};
use fp_session_clashes::{are_cheaper, are_routes};
use std::alloc::Global;

// How many turns a local search for walks makes from each of its starts.
const TURNS: u32 = 1_000;

// Such walks as a relaxed plan, where they are routes and cost less than the incumbent. The prices serve the
// contract alone.
pub(crate) fn cheaper_of(
    search: &Search,
    leaf: &Leaf,
    walks: Option<Vec<TimedWalk>>,
    prices: &Prices,
) -> Option<RelaxedPlan>
    requires search { IsSearch search.now prices.now }
    requires setting { leaf.now.setting ≡ setting_of search.now }
    requires walks { IfSome walks (λ walks. AreAllowedWalks leaf.now walks.items) }
    ensures { IfSome result (AreCheaperWalks search.now leaf.now.sides) }
{
    match walks {
        Some(walks) => {
            let relaxed = RelaxedPlan { walks };
            if are_cheaper(&search.instance, &relaxed, search.cost) {
                Some(relaxed)
            } else {
                None
            }
        }
        None => None,
    }
}

// Walks under the sides of a leaf that are routes and cost less than the incumbent, where spans are
// sought, rounds are still fruitful, and a local search over the leaf's nets finds such walks: from the
// classes of the incumbent, and from the given walks.
pub(crate) fn cheaper_walks<D: Deadline>(
    resources: &Resources<D>,
    search: &Search,
    leaf: &Leaf,
    nets: &mut LentNets,
    least: &[TimedWalk],
    is_fruitful: bool,
    prices: &Prices,
) -> Result<Option<RelaxedPlan>, NoMemory>
    requires search { IsSearch search.now prices.now }
    requires setting { leaf.now.setting ≡ setting_of search.now }
    ensures { IfOk result (λ found. IfSome found (AreCheaperWalks search.now leaf.now.sides)) }
{
    let instance = &search.instance;
    if prices.unit().is_none() || !is_fruitful {
        return Ok(None);
    }
    let incumbent = &search.incumbent;
    let coarse = coarsen(
        resources.alloc,
        instance,
        &search.windows,
        &search.network,
        incumbent,
    )?;
    let walks = cheap_walks(resources, leaf, nets, &[&coarse.walks, least], TURNS)?;
    Ok(cheaper_of(search, leaf, walks, prices))
}

// Walks under the sides of a leaf by the spans of its price, where there are such, over the leaf's
// nets.
pub(crate) fn walks_by_price(
    alloc: Global,
    search: &Search,
    leaf: &Leaf,
    nets: &mut LentNets,
    price: LeafPrice,
    prices: &Prices,
) -> Result<Option<Vec<TimedWalk>>, NoMemory>
    requires search { IsSearch search.now prices.now }
    requires setting { leaf.now.setting ≡ setting_of search.now }
    requires kind { HasKind prices.now.tables price.kind }
    ensures { IfOk result (λ found. IfSome found
        (λ walks. AreWalksUnder search.now.instance search.now.windows (points_now search.now) leaf.now.sides walks.items)) }
{
    match walks_by_spans(alloc, leaf, nets, price, prices)? {
        Some(walks) => Ok(Some(walks)),
        None => Ok(None),
    }
}

// The walks that show where a leaf loses bound: its walks where one of them meets a terminal twice,
// and otherwise those by tables, where these are others: they share fewer trucks.
pub(crate) fn walks_to_split_by<'a>(
    instance: &Instance,
    relaxed: &'a RelaxedPlan,
    by_tables: Option<&'a [TimedWalk]>,
) -> &'a [TimedWalk]
    requires { All (ArcsExist instance.now) relaxed.now }
{
    match by_tables {
        Some(by_tables) if are_routes(instance, &relaxed.walks) => by_tables,
        _ => &relaxed.walks,
    }
}
