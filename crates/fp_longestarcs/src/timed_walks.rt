//! Walks over the classes of a network.
ghost use Rattle.std.specs.Prelude.{◌≡◌, IfOk};
ghost use Rattle.fp_model.specs.Routes.{arcs_of};

use crate::NoMemory;
use crate::stops::Stop;
use std::alloc::Global;
use std::marker::Model;

/// The classes that a shipment goes by, in order. Contracts see each as a leg that leaves at its
/// point.
#[derive(Drop)]
pub struct TimedWalk {
    pub stops: Vec<Stop>,
}

impl Model for TimedWalk {
    ghost use Rattle.std.specs.Prelude.{List};
    ghost use Rattle.fp_model.specs.declared.parts.Leg.{Leg};
    ghost use Rattle.fp_longestarcs.specs.Stops.{legs_of};

    ghost Value = { List Leg };

    ghost view = { λ w. legs_of w.stops.items };
}

impl TimedWalk {
    /// The arcs of the walk, by their numbers. `NoMemory` only where no memory is found.
    pub fn arcs(&self, alloc: Global) -> Result<Vec<u32>, NoMemory>
        ensures { IfOk result (λ arcs. arcs.items ≡ arcs_of self.now) }
    {
        let mut arcs = Vec::with_capacity(alloc, self.stops.len())?;
        for stop in &self.stops {
            arcs.push(stop.arc)?;
        }
        Ok(arcs)
    }
}
