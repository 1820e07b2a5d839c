//! What the trucks of a leaf's forced chains cost.
ghost use Rattle.std.specs.Prelude.{◌≡◌, ◌*◌, ◌<◌, List};
ghost use Rattle.fp_longestarcs.specs.Networks.{class_count};
ghost use Rattle.fp_longestarcs.specs.Whole.{IsWholeNetwork};
ghost use Rattle.fp_model.specs.declared.parts.Leg.{Leg};
ghost use Rattle.fp_prices.specs.LeafPricings.{AreChainsOf};
ghost use Rattle.fp_prices_spans.specs.SpanCosts.{AreBases, HasChains, base_of};

use fp_longestarcs::Network;
use fp_model::Instance;
use fp_prices::LeafPricing;

// What the trucks of a class cost that its forced load needs, and nothing where it isn't forced.
fn class_base(pricing: &LeafPricing, instance: &Instance, network: &Network, class: u32) -> u128
    requires instance { instance.now ≡ pricing.now.leaf.setting.problem }
    requires network { network.now ≡ pricing.now.leaf.setting.network }
    requires whole { IsWholeNetwork pricing.now.leaf.setting.problem pricing.now.leaf.setting.network }
    requires class { class < class_count pricing.now.leaf.setting.network }
    requires chains { HasChains pricing.now.leaf pricing.now.forced }
    ensures { (chains : List (List Leg)) → AreChainsOf pricing.now.leaf pricing.now.forced chains →
        result ≡ pricing.now.leaf.setting.problem.scale * base_of pricing.now.leaf.setting.problem pricing.now.leaf.setting.network chains class }
{
    let load = match pricing.forced_load(class) {
        Some(load) => load,
        None => return 0,
    };
    let arc = instance.arc(network.of_class(class).0);
    let trucks = load.div_ceil(u128::from(arc.capacity));
    u128::from(instance.scale()) * (u128::from(arc.truck) * trucks)
}

/// What the trucks of the leaf's forced chains cost, as few in each class as hold its load, where
/// forced classes are paid whole, and nothing where the leaf is plain. Takes no memory.
pub fn bases(pricing: &LeafPricing) -> u128
    requires { HasChains pricing.now.leaf pricing.now.forced }
    ensures { AreBases pricing.now result }
{
    let round = pricing.leaf().round();
    let mut total = 0;
    for class in 0..round.network().classes() {
        total += class_base(pricing, round.instance(), round.network(), class);
    }
    total
}
