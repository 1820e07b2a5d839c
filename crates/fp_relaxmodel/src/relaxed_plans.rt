//! Timed walks and relaxed plans, and the arcs that they go by.
ghost use Rattle.std.specs.Prelude.{◌≡◌, IfOk};
ghost use Rattle.fp_base_lists.specs.Vectors.{lists_of};
ghost use Rattle.fp_model.specs.Members.{arc_lists};
ghost use Rattle.fp_model.specs.Routes.{arcs_of};

use crate::NoMemory;
use fp_longestarcs::TimedWalk;
use std::alloc::Global;
use std::marker::Model;

/// For each shipment, in the order of the instance, a walk. Contracts see the list of the walks.
///
/// Any walks may stand here.
#[derive(Drop)]
pub struct RelaxedPlan {
    pub walks: Vec<TimedWalk>,
}

impl Model for RelaxedPlan {
    ghost use Rattle.std.specs.Prelude.{List};
    ghost use Rattle.fp_model.specs.declared.parts.Leg.{Leg};

    ghost Value = { List (List Leg) };

    ghost view = { λ r. r.walks.items };
}

impl RelaxedPlan {
    /// For each walk its arcs, by their numbers: the routes whose times are looked for. `NoMemory`
    /// only where no memory is found.
    pub fn arcs(&self, alloc: Global) -> Result<Vec<Vec<u32>>, NoMemory>
        ensures { IfOk result (λ routes. lists_of routes.items ≡ arc_lists self.now) }
    {
        let mut routes = Vec::with_capacity(alloc, self.walks.len())?;
        for walk in &self.walks {
            routes.push(walk.arcs(alloc)?)?;
        }
        Ok(routes)
    }
}
