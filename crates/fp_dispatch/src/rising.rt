//! Moments that rise until the steps of the routes are kept, or one passes its leg's latest.
ghost use Rattle.std.specs.Prelude.{◌≡◌, ◌<◌, ◌≤◌, [], ◌∷◌, All, IfOk, MatchOption, OnOk, length};
ghost use Rattle.fp_model.specs.Members.{IsMemberOf};
ghost use Rattle.fp_dispatch.specs.Rising.{companions_of, measure, place_of, raised, state_of};
ghost use Rattle.fp_dispatch.specs.Tasks.{AreRisingFor, IsLateFor, IsRaisingFor, entry_count};

use crate::NoMemory;
use crate::places::{is_past, place};
use crate::tasks::Task;
use fp_model::Member;

// A leg that would have to leave at a moment after its latest one.
#[derive(Clone, Copy)]
pub(crate) struct Late {
    pub leg: Member,
    pub value: u32,
}

// A moment for each leg, whether the leg waits until its next one is looked at, and these legs.
#[derive(Drop)]
pub(crate) struct Moments {
    pub values: Vec<u32>,
    pub waits: Vec<bool>,
    pub waiting: Vec<Member>,
}

impl Moments {
    // Raises one leg to a moment.
    fn raise(&mut self, width: usize, leg: Member, to: u32) -> Result<(), NoMemory>
        requires values { place_of width leg < length self.old.values.items }
        requires waits { place_of width leg < length self.old.waits.items }
        ensures { OnOk result (state_of self.new ≡ raised width (leg ∷ []) to (state_of self.old)) }
    {
        let at = place(width, leg);
        let waited = self.waits[at];
        self.values[at] = to;
        self.waits[at] = true;
        if !waited {
            self.waiting.push(leg)?;
        }
        Ok(())
    }

    // Raises legs to a moment; or gives the first of them whose latest moment is before it.
    pub(crate) fn raise_each(
        &mut self,
        task: &Task<'_>,
        legs: &[Member],
        to: u32,
    ) -> Result<Option<Member>, NoMemory>
        requires members { All (IsMemberOf task.now.routes) legs.now }
        requires values { length self.old.values.items ≡ entry_count task.now }
        requires waits { length self.old.waits.items ≡ entry_count task.now }
        ensures { IfOk result (IsRaisingFor task.now legs.now to (state_of self.old) (state_of self.new)) }
    {
        for leg in legs {
            if is_past(task.windows, task.routes, *leg, to) {
                return Ok(Some(*leg));
            }
            self.raise(task.numbers.width, *leg, to)?;
        }
        Ok(None)
    }

    // Raises the legs that leave together with a leg; or gives the first of them whose latest
    // moment is before it.
    fn raise_group(
        &mut self,
        task: &Task<'_>,
        leg: Member,
        to: u32,
    ) -> Result<Option<Member>, NoMemory>
        requires leg { IsMemberOf task.now.routes leg }
        requires values { length self.old.values.items ≡ entry_count task.now }
        requires waits { length self.old.waits.items ≡ entry_count task.now }
        ensures { IfOk result (IsRaisingFor task.now (companions_of task.now.groups task.now.numbers leg) to
            (state_of self.old) (state_of self.new)) }
    {
        match task.numbers.table[place(task.numbers.width, leg)] {
            Some(group) => self.raise_each(task, &task.groups[group], to),
            None => self.raise_each(task, &[leg], to),
        }
    }

    // Raises the next leg, and those that leave together with it, as far as a leg demands; or gives
    // the one that would leave after its latest moment.
    fn raise_next(&mut self, task: &Task<'_>, leg: Member) -> Result<Option<Late>, NoMemory>
        requires leg { IsMemberOf task.now.routes leg }
        requires rising { AreRisingFor task.now (λ m. m ≡ leg) (state_of self.old) }
        ensures { IfOk result (λ r. MatchOption r
            (AreRisingFor task.now (λ m. ⊥) (state_of self.new)
            × (measure task.now.groups (state_of self.new) ≤ measure task.now.groups (state_of self.old)))
            (IsLateFor task.now)) }
    {
        let route = &task.routes[leg.shipment as usize];
        if leg.leg as usize + 1 >= route.len() {
            return Ok(None);
        }
        let next = Member {
            shipment: leg.shipment,
            leg: leg.leg + 1,
        };
        let from = self.values[place(task.numbers.width, leg)];
        let to = from + task.instance.step(route[leg.leg as usize]);
        if to <= self.values[place(task.numbers.width, next)] {
            return Ok(None);
        }
        if let Some(leg) = self.raise_group(task, next, to)? {
            return Ok(Some(Late { leg, value: to }));
        }
        Ok(None)
    }

    // Looks at the legs that wait until none does; or gives one that would leave after its latest
    // moment.
    pub(crate) fn settle(&mut self, task: &Task<'_>) -> Result<Option<Late>, NoMemory>
        requires { AreRisingFor task.now (λ m. ⊥) (state_of self.old) }
        ensures { IfOk result (λ r. MatchOption r
            (AreRisingFor task.now (λ m. ⊥) (state_of self.new) × (self.new.waiting.items ≡ []))
            (IsLateFor task.now)) }
    {
        while let Some(leg) = self.waiting.pop() {
            self.waits[place(task.numbers.width, leg)] = false;
            if let Some(late) = self.raise_next(task, leg)? {
                return Ok(Some(late));
            }
        }
        Ok(None)
    }
}
