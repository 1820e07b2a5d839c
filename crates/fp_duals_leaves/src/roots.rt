//! The price of the leaf without sides.
ghost use Rattle.std.specs.Prelude.{◌≤◌, [], IfOk};
ghost use Rattle.fp_timenodes.specs.declared.places.TheConstants.{MOST_POINTS};
ghost use Rattle.fp_flatnet.specs.Belonging.{BelongsTo};
ghost use Rattle.fp_flatnet.specs.Tables.{windows_in};
ghost use Rattle.fp_longestarcs.specs.Networks.{point_count, points_in};
ghost use Rattle.fp_longestarcs.specs.Whole.{IsWholeNetwork};
ghost use Rattle.fp_duals_leaves.specs.Prices.{ArePrices, HaveGrown};
ghost use Rattle.fp_duals_leaves.specs.Pricing.{IsImprovedBy};

use crate::NoMemory;
use crate::efforts::PriceEffort;
use crate::prices::Prices;
use crate::pricing::{Improvement, improve};
use fp_duals_nets::LentNets;
use fp_ends::{Deadline, Resources};
use fp_flatnet::Windows;
use fp_longestarcs::Network;
use fp_model::Instance;
use fp_prices::{Kind, Leaf, LeafPrice, RoundNetwork};

// Linear prices as of round 0.
const LINEAR: LeafPrice = LeafPrice {
    kind: Kind::Linear,
    round: 0,
    forced: false,
};

/// Improves the price of the leaf without sides over a network, as of round 0, as [`improve`] does
/// from linear prices: the root of a search before any round.
///
/// The windows belong to the instance, for which the network is whole; it has at most
/// [`MOST_POINTS`](fp_timenodes::MOST_POINTS) points. The spans among the prices are sound by these
/// windows. `NoMemory` only where no memory is found.
#[tactic(auto, using(crate::proofs::GrownPrices::HaveGrown_none, fp_flatnet::proofs::WindowTimes::BelongsTo_fits))]
pub fn improve_root<D: Deadline>(
    resources: &Resources<D>,
    instance: &Instance,
    windows: &Windows,
    network: Network,
    effort: &PriceEffort,
    prices: &mut Prices,
) -> Result<Improvement, NoMemory>
    requires belongs { BelongsTo instance.now windows.now }
    requires whole { IsWholeNetwork instance.now network }
    requires few { point_count network ≤ MOST_POINTS }
    requires prices { ArePrices instance.now windows.now prices.old }
    ensures grown { HaveGrown instance.now windows.now prices.old prices.new }
    ensures improved { IfOk result
        (IsImprovedBy instance.now (windows_in windows.now) (points_in network) [] prices.new 0) }
{
    let round = RoundNetwork::over(resources.alloc, instance, network)?;
    let leaf = Leaf::of(resources.alloc, &round, windows, &[])?;
    let mut nets = LentNets::new();
    improve(resources, &leaf, &mut nets, 0, LINEAR, effort, prices)
}
