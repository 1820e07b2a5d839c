//! A run that draws choose.
ghost use Rattle.std.specs.Prelude.{◌≡◌, ◌≤◌, [], IfOk};
ghost use Rattle.fp_yard.specs.declared.events.Event.{Event};
ghost use Rattle.fp_yard.specs.Choices.{IsChosen};
ghost use Rattle.fp_yard.specs.Events.{IsAllowed};

use crate::NoMemory;
use crate::turns::advance;
use crate::yards::Yard;
use fp_reader::Draws;
use std::alloc::Global;

/// Takes a yard in which nothing has happened and gives it back run to its end: at each turn the
/// event happens that is drawn, from a seed of 0 to 2,147,483,647, among those that are allowed, by
/// line.
///
/// `NoMemory` only where no memory is found.
pub fn drive(alloc: Global, mut yard: Yard, seed: u32) -> Result<Yard, NoMemory>
    requires empty { yard.history ≡ [] }
    requires seed { seed ≤ 2147483647 }
    ensures schedule { IfOk result (λ run. run.schedule ≡ yard.schedule) }
    ensures chosen { IfOk result (λ run. IsChosen run.schedule seed run.history) }
    ensures ended { IfOk result
        (λ run. (e : Event) → IsAllowed run.schedule run.history e → ⊥) }
{
    let mut draws = Draws::new(seed);
    let mut events = yard.enabled(alloc)?;
    'turns: loop {
        if events.is_empty() {
            return Ok(yard);
        }
        let place = draws.draw(events.len() as u32) as usize;
        yard.step(events[place]);
        advance(&yard, place, &mut events)?;
    }
}
