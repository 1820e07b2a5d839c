//! A search begins with a plan, the initial points and one leaf.
ghost use Rattle.std.specs.Prelude.{◌≡◌, ◌≤◌, [], IfOk};
ghost use Rattle.fp_model.specs.Costs.{cost as cost_of};
ghost use Rattle.fp_model.specs.Plans.{IsPlan};
ghost use Rattle.fp_timenodes.specs.declared.places.TheConstants.{MOST_POINTS};
ghost use Rattle.fp_flatnet.specs.Belonging.{BelongsTo};
ghost use Rattle.fp_flatnet.specs.Tables.{windows_in};
ghost use Rattle.fp_flatnet.specs.Windows.{PlanLiesWithin};
ghost use Rattle.fp_longestarcs.specs.Networks.{point_count, points_in};
ghost use Rattle.fp_longestarcs.specs.Whole.{IsWholeNetwork};
ghost use Rattle.fp_allowed.specs.SamePoints.{AgreeOnPoints};
ghost use Rattle.fp_session_history.specs.Notes.{points_of};
ghost use Rattle.fp_session.specs.Nodes.{IsKept};
ghost use Rattle.fp_session_history.specs.Budgets.{IsBudget};
ghost use Rattle.fp_duals_leaves.specs.Prices.{ArePrices, HaveGrown, no_prices};
ghost use Rattle.fp_session.specs.Searches.{IsSearch, in_hand};
ghost use Rattle.fp_session.specs.Starts.{HasBegun, start_of};

use crate::NoMemory;
use crate::improving::{emptied, priced};
use crate::kept::Kept;
use crate::preparations::Preparation;
use crate::searches::Search;
use fp_duals_leaves::{Improvement, PriceEffort, Prices, improve};
use fp_duals_nets::LentNets;
use fp_ends::Resources;
use fp_flatnet::{Windows, initial};
use fp_longestarcs::Network;
use fp_model::{Instance, Plan};
use fp_prices::{Kind, Leaf, LeafPrice, RoundNetwork};
use fp_session_history::Budget;
use fp_timetable::cost;
use fp_tree::Tree;
use std::alloc::Global;

// What is kept of the root before any round, by the prices that every leaf has.
#[tactic(auto, using(fp_duals_leaves::proofs::GrownPrices::HaveGrown_none, fp_flatnet::proofs::WindowTimes::BelongsTo_fits))]
fn root(
    alloc: Global,
    instance: &Instance,
    windows: &Windows,
    network: &Network,
    prices: &mut Prices,
) -> Result<Kept, NoMemory>
    requires belongs { BelongsTo instance.now windows.now }
    requires whole { IsWholeNetwork instance.now network.now }
    requires few { point_count network.now ≤ MOST_POINTS }
    requires points { AgreeOnPoints instance.now (points_in network.now) (points_of (start_of instance.now windows.now no_prices) 0) }
    requires prices { ArePrices instance.now windows.now prices.old }
    ensures kept { IfOk result (λ kept. IsKept (start_of instance.now windows.now prices.new) [] kept.payload kept.value) }
    ensures grown { HaveGrown instance.now windows.now prices.old prices.new }
{
    let round = RoundNetwork::over(alloc, instance, network.copy(alloc)?)?;
    let leaf = Leaf::of(alloc, &round, windows, &[])?;
    let linear = LeafPrice {
        kind: Kind::Linear,
        round: 0,
        forced: false,
    };
    let mut nets = LentNets::new();
    let effort = &PriceEffort::VALUE;
    let resources = &Resources::endless(alloc);
    match improve(resources, &leaf, &mut nets, 0, linear, effort, prices)? {
        Improvement::Empty { price } => Ok(emptied(price)),
        Improvement::Priced { price, value, .. } => Ok(priced(price, value)),
    }
}

// A search that starts with a plan within the windows, and with these prices.
pub(crate) fn started(
    alloc: Global,
    instance: Instance,
    windows: Windows,
    start: Plan,
    budget: Budget,
    prices: &mut Prices,
) -> Result<Search, NoMemory>
    requires belongs { BelongsTo instance windows }
    requires plan { IsPlan instance 1 start }
    requires within { PlanLiesWithin (windows_in windows) 1 start }
    requires budget { IsBudget budget }
    requires prices { ArePrices instance windows prices.old }
    ensures unit { prices.new.unit ≡ prices.old.unit }
    ensures search { IfOk result (λ s. IsSearch s prices.new) }
    ensures instance { IfOk result (λ s. s.instance ≡ instance) }
    ensures windows { IfOk result (λ s. s.windows ≡ windows) }
    ensures budget { IfOk result (λ s. s.budget ≡ budget) }
    ensures started { IfOk result (λ s. s.started ≡ cost_of instance start) }
    ensures begun { IfOk result (λ s. HasBegun start (in_hand s)) }
{
    let cost = cost(alloc, &instance, &start)?;
    let points = initial(alloc, &instance, &windows)?;
    let network = Network::of(alloc, &instance, &points, 0)?;
    let root = root(alloc, &instance, &windows, &network, prices)?;
    let tree = Tree::new(alloc, root.payload, root.value)?;
    Ok(Search {
        instance,
        windows,
        budget,
        started: cost,
        incumbent: start,
        cost,
        reserve: None,
        preparation: Preparation::FirstLook,
        points,
        network,
        tree,
        trace: Vec::new(alloc),
        left: None,
    })
}
