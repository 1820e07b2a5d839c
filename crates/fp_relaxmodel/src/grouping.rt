//! The legs of a relaxed plan in groups of one class.
ghost use Rattle.std.specs.Prelude.{ℕ, List, ◌≡◌, ◌-◌, ◌<◌, ◌^◌, All, IfOk, OnOk, length};
ghost use Rattle.fp_model.specs.declared.parts.Leg.{Leg};
ghost use Rattle.fp_model.specs.declared.parts.Member.{Member};
ghost use Rattle.fp_relaxmodel.specs.Groups.{AreGroups};
ghost use Rattle.fp_model.specs.Members.{named_on};
ghost use Rattle.fp_base_lists.specs.Vectors.{lists_of};
ghost use Rattle.fp_relaxmodel.specs.Grouping.{after, groups_so_far, with_member};
ghost use Rattle.fp_longestarcs.specs.Stops.{leg_of, legs_of};

use crate::NoMemory;
use crate::relaxed_plans::RelaxedPlan;
use fp_longestarcs::Stop;
use fp_model::Member;
use indexmap::IndexSet;
use std::alloc::Global;

// The classes met so far in the order in which they were, and the members of each.
#[derive(Drop)]
struct Grouping {
    classes: IndexSet<Stop>,
    groups: Vec<Vec<Member>>,
}

impl Grouping {
    // One more member of a class.
    fn add(&mut self, alloc: Global, stop: Stop, member: Member) -> Result<(), NoMemory>
        requires { length self.old.classes.keys ≡ length self.old.groups.items }
        ensures matched { OnOk result
            (length self.new.classes.keys ≡ length self.new.groups.items) }
        ensures groups { OnOk result (groups_so_far self.new.classes.keys self.new.groups.items
            ≡ with_member (leg_of stop) member
            (groups_so_far self.old.classes.keys self.old.groups.items)) }
    {
        let (number, is_new) = self.classes.insert_full(stop)?;
        if is_new {
            self.groups.push(Vec::new(alloc))?;
        }
        self.groups[number].push(member)?;
        Ok(())
    }

    // The members of a shipment's walk.
    fn add_walk(&mut self, alloc: Global, shipment: u32, stops: &[Stop]) -> Result<(), NoMemory>
        requires matched { length self.old.classes.keys ≡ length self.old.groups.items }
        requires few { length stops.now < 2 ^ 32 - 1 }
        ensures matched { OnOk result
            (length self.new.classes.keys ≡ length self.new.groups.items) }
        ensures groups { OnOk result (groups_so_far self.new.classes.keys self.new.groups.items
            ≡ after (named_on shipment 0 (legs_of stops.now))
            (groups_so_far self.old.classes.keys self.old.groups.items)) }
    {
        for (leg, stop) in stops.iter().enumerate() {
            let leg = leg as u32;
            self.add(alloc, *stop, Member { shipment, leg })?;
        }
        Ok(())
    }
}

/// The legs of a relaxed plan in groups, one for each class that occurs, also for one with a single
/// leg.
///
/// Each leg is in exactly one group. The members of a group go by shipment and then leg, and the
/// groups by their first members. There are fewer than `2^32 - 1` walks, and fewer than `2^32 - 1`
/// classes on each. Takes time that grows with the legs. `NoMemory` only where no memory
/// is found.
pub fn groups(alloc: Global, relaxed: &RelaxedPlan) -> Result<Vec<Vec<Member>>, NoMemory>
    requires few_walks { length relaxed.now < 2 ^ 32 - 1 }
    requires few_legs { All (λ walk. length walk < 2 ^ 32 - 1) relaxed.now }
    ensures groups { IfOk result (λ groups. AreGroups relaxed.now (lists_of groups.items)) }
    ensures only { (others : List (List Member)) → AreGroups relaxed.now others →
        IfOk result (λ groups. lists_of groups.items ≡ others) }
{
    let mut grouping = Grouping {
        classes: IndexSet::new(alloc),
        groups: Vec::new(alloc),
    };
    for (shipment, walk) in relaxed.walks.iter().enumerate() {
        grouping.add_walk(alloc, shipment as u32, &walk.stops)?;
    }
    Ok(grouping.groups)
}
