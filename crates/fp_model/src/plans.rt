//! Plans: for each shipment a list of legs.
ghost use Rattle.std.specs.Prelude.{◌≡◌, IfOk};

use crate::NoMemory;
use crate::parts::Leg;
use std::alloc::Global;
use std::marker::Model;

/// For each shipment, in the order of the instance, a list of legs. Contracts see it as the list of
/// these lists.
///
/// Departures are whole numbers in the input's unit of time, so a plan is one over the denominator
/// 1. Any lists may stand here: `test_plan` tells whether they are a plan.
#[derive(Drop)]
pub struct Plan {
    pub routes: Vec<Vec<Leg>>,
}

impl Model for Plan {
    ghost use Rattle.std.specs.Prelude.{List};
    ghost use Rattle.fp_model.specs.declared.parts.Leg.{Leg};
    ghost use Rattle.fp_base_lists.specs.Vectors.{lists_of};

    ghost Value = { List (List Leg) };

    ghost view = { λ p. lists_of p.routes.items };
}

impl Plan {
    /// An equal plan. `NoMemory` only where no memory is found.
    pub fn copy(&self, alloc: Global) -> Result<Plan, NoMemory>
        ensures { IfOk result (λ plan. plan ≡ self.now) }
    {
        let mut routes = Vec::new(alloc);
        for route in &self.routes {
            routes.push(route.as_slice().to_vec(alloc)?)?;
        }
        Ok(Plan { routes })
    }
}
