//! Walks that are routes and cost less than a plan.
ghost use Rattle.std.specs.Prelude.{◌<◌, All, IsTrue, ◌↔◌};
ghost use Rattle.fp_base_lists.specs.Distinct.{AreDistinct};
ghost use Rattle.fp_model.specs.Costs.{cost as cost_of};
ghost use Rattle.fp_model.specs.Routes.{ArcsExist};
ghost use Rattle.fp_relaxmodel.specs.Relaxed.{HasRoutes};
ghost use Rattle.fp_relaxmodel.specs.Terminals.{terminals_on};

use fp_longestarcs::TimedWalk;
use fp_model::Instance;
use fp_relaxmodel::{RelaxedPlan, is_route, relaxed_cost};

/// Whether no walk meets a terminal twice. The arcs of the walks exist.
pub fn are_routes(instance: &Instance, walks: &[TimedWalk]) -> bool
    requires { All (ArcsExist instance.now) walks.now }
    ensures { IsTrue result ↔ All (λ walk. AreDistinct (terminals_on instance.now walk)) walks.now }
{
    for walk in walks {
        if !is_route(instance, walk) {
            return false;
        }
    }
    true
}

/// Whether walks of the shipments are routes and cost less than so much. The arcs of the walks exist, and they
/// are routes where no terminal stands twice on one.
pub fn are_cheaper(instance: &Instance, relaxed: &RelaxedPlan, cost: u128) -> bool
    requires exist { All (ArcsExist instance.now) relaxed.now }
    requires routes { All (λ walk. AreDistinct (terminals_on instance.now walk)) relaxed.now
        → HasRoutes instance.now relaxed.now }
    ensures { IsTrue result
        ↔ (All (λ walk. AreDistinct (terminals_on instance.now walk)) relaxed.now
        × (cost_of instance.now relaxed.now < cost)) }
{
    if are_routes(instance, &relaxed.walks) {
        relaxed_cost(instance, relaxed) < cost
    } else {
        false
    }
}
