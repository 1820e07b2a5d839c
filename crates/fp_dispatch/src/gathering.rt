//! Where all legs wait, and those of each group leave together.
ghost use Rattle.std.specs.Prelude.{◌≡◌, ◌<◌, ◌≤◌, ◌^◌, ◌⊎◌, ◌++◌, All, Contains, IfOk, MatchOption, OnOk, length};
ghost use Rattle.fp_base_lists.specs.Vectors.{lists_of};
ghost use Rattle.fp_model.specs.declared.parts.Member.{Member};
ghost use Rattle.fp_model.specs.Members.{IsMemberOf};
ghost use Rattle.fp_dispatch.specs.Rising.{legs_below, place_of, state_of, value_at};
ghost use Rattle.fp_dispatch.specs.Tasks.{AllWaitFor, AreLowerFor, AreRisingFor, IsLateFor};

use crate::NoMemory;
use crate::places::place;
use crate::rising::{Late, Moments};
use crate::tasks::Task;
use fp_model::Member;
use std::alloc::Global;

impl Moments {
    // The greatest moment of some legs, 0 if there are none.
    fn greatest(&self, width: usize, legs: &[Member]) -> u32
        requires { All (λ m. place_of width m < length self.now.values.items) legs.now }
        ensures most { All (λ m. value_at width self.now.values.items m ≤ result) legs.now }
        ensures one { (result ≡ 0) ⊎ ((m : Member) × Contains legs.now m × (value_at width self.now.values.items m ≡ result)) }
    {
        let mut most = 0;
        for leg in legs {
            let value = self.values[place(width, *leg)];
            if value > most {
                most = value;
            }
        }
        most
    }

    // Raises the legs of each group to the greatest moment of one of them; or gives one that would
    // leave after its latest moment.
    pub(crate) fn gather(&mut self, task: &Task<'_>) -> Result<Option<Late>, NoMemory>
        requires lower { AreLowerFor task.now (state_of self.old) }
        requires waits { AllWaitFor task.now (state_of self.old) }
        ensures { IfOk result (λ r. MatchOption r
            (AreRisingFor task.now (λ m. ⊥) (state_of self.new)) (IsLateFor task.now)) }
    {
        for group in task.groups {
            let to = self.greatest(task.numbers.width, group);
            if let Some(leg) = self.raise_each(task, group, to)? {
                return Ok(Some(Late { leg, value: to }));
            }
        }
        Ok(None)
    }
}

// All legs of all routes.
pub(crate) fn all_legs(
    alloc: Global,
    routes: &[Vec<u32>],
    count: usize,
) -> Result<Vec<Member>, NoMemory>
    requires few { length routes.now < 2 ^ 32 }
    requires short { All (λ route. length route < 2 ^ 32) (lists_of routes.now) }
    ensures members { IfOk result (λ legs. All (IsMemberOf (lists_of routes.now)) legs.items) }
    ensures every { IfOk result (λ legs. (m : Member) → IsMemberOf (lists_of routes.now) m → Contains legs.items m) }
{
    let mut legs = Vec::with_capacity(alloc, count)?;
    for (shipment, route) in routes.iter().enumerate() {
        push_legs(&mut legs, shipment as u32, route.len() as u32)?;
    }
    Ok(legs)
}

// Adds the legs of one route, of which there are `count`.
fn push_legs(legs: &mut Vec<Member>, shipment: u32, count: u32) -> Result<(), NoMemory>
    ensures { OnOk result (legs.new.items ≡ legs.old.items ++ legs_below shipment count) }
{
    for leg in 0..count {
        legs.push(Member { shipment, leg })?;
    }
    Ok(())
}
