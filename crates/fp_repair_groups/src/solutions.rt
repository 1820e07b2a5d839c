//! Solutions: routes whose legs are in groups, and what they cost.
ghost use Rattle.std.specs.Prelude.{◌≡◌, OnErr};
ghost use Rattle.fp_base_lists.specs.Vectors.{lists_of};
ghost use Rattle.fp_repair_groups.specs.Solutions.{content};

use crate::NoMemory;
use crate::groups::{Group, GroupedLeg};
use crate::room::{make_room_at, push_in_room};
use crate::times::{lower, raise, reset};
use crate::usable_arcs::UsableArcs;
use fp_model::Instance;
use std::alloc::Global;

/// A leg of a path on which a shipment is put in.
#[derive(Clone, Copy)]
pub struct PathLeg {
    /// The place of the arc in the shipment's usable arcs.
    pub usable: usize,
    /// The number of the group that it joins, or `None` for a group of its own.
    pub group: Option<usize>,
}

// A leg by the number of its shipment and its place in the shipment's route.
#[derive(Clone, Copy)]
pub(crate) struct Place {
    pub shipment: usize,
    pub leg: usize,
}

/// Routes whose legs are in groups, and what they cost. Shipments may be out: they have no legs.
#[derive(Drop)]
pub struct Solution {
    /// For each shipment its legs, by the numbers of the shipments.
    pub routes: Vec<Vec<GroupedLeg>>,
    /// The groups by their numbers, free ones among them.
    pub groups: Vec<Group>,
    /// What the trucks of the groups and the flow cost, in the unit of money.
    pub cost: u128,
    // For each group the places of its legs.
    pub(crate) members: Vec<Vec<Place>>,
    // The numbers of the free groups. It has room for those of all groups.
    free: Vec<usize>,
    // Lists with room for the place of a leg, for groups to come.
    spare: Vec<Vec<Place>>,
    alloc: Global,
}

impl Solution {
    // No legs, for so many shipments.
    pub(crate) fn empty(alloc: Global, shipments: usize) -> Result<Solution, NoMemory> {
        Ok(Solution {
            routes: empty_routes(alloc, shipments)?,
            groups: Vec::new(alloc),
            cost: 0,
            members: Vec::new(alloc),
            free: Vec::new(alloc),
            spare: Vec::new(alloc),
            alloc,
        })
    }

    // Makes room for a path that a shipment is put in along. Nothing else changes.
    pub(crate) fn make_room(&mut self, shipment: usize, path: &[PathLeg]) -> Result<(), NoMemory>
        ensures { content self.new ≡ content self.old }
    {
        let more = path.len();
        make_room_at(&mut self.routes, shipment, more)?;
        make_places(&mut self.members, path)?;
        self.groups.reserve(more)?;
        self.members.reserve(more)?;
        let groups = self.groups.len().saturating_add(more);
        self.free.reserve(groups.saturating_sub(self.free.len()))?;
        make_spare(self.alloc, &mut self.spare, more)
    }

    // The number of a group of no legs by an arc, for which room was made.
    pub(crate) fn open_group(&mut self, arc: u32) -> usize {
        let number = match self.free.pop() {
            Some(number) => number,
            None => self.add_group(arc),
        };
        self.reopen(number, arc);
        number
    }

    // Adds a group of no legs by an arc, for which room was made. Its number.
    fn add_group(&mut self, arc: u32) -> usize {
        let number = self.groups.len();
        if let Some(places) = self.spare.pop() {
            push_in_room(&mut self.groups, Group::free(arc));
            push_in_room(&mut self.members, places);
        }
        number
    }

    // Makes a group one of no legs by an arc.
    fn reopen(&mut self, number: usize, arc: u32) {
        if let Some(group) = self.groups.get_mut(number) {
            *group = Group::free(arc);
        }
    }

    // Adds a leg to the end of a shipment's route, for which room was made.
    pub(crate) fn add(&mut self, instance: &Instance, shipment: usize, leg: GroupedLeg) {
        let size = size_of(instance, shipment);
        if let Some(arc) = instance.arcs().get(leg.arc as usize)
            && let Some(group) = self.groups.get_mut(leg.group)
        {
            let more = group.join(size, arc.capacity);
            group.narrow(leg.lo, leg.hi);
            let added = leg_cost(arc.truck, more, arc.freight, size);
            self.cost = self.cost.saturating_add(added);
        }
        self.place(shipment, leg);
    }

    // Puts a leg at the end of a shipment's route, and notes its place at its group.
    fn place(&mut self, shipment: usize, leg: GroupedLeg) {
        if let Some(route) = self.routes.get_mut(shipment)
            && let Some(places) = self.members.get_mut(leg.group)
        {
            let at = route.len();
            push_in_room(places, Place { shipment, leg: at });
            push_in_room(route, leg);
        }
    }

    // Lets a leg of a shipment leave its group.
    fn leave(&mut self, instance: &Instance, shipment: usize, leg: GroupedLeg) {
        let size = size_of(instance, shipment);
        if let Some(arc) = instance.arcs().get(leg.arc as usize)
            && let Some(group) = self.groups.get_mut(leg.group)
        {
            let fewer = group.leave(size, arc.capacity);
            if group.count == 0 {
                push_in_room(&mut self.free, leg.group);
            }
            let saved = leg_cost(arc.truck, fewer, arc.freight, size);
            self.cost = self.cost.saturating_sub(saved);
        }
        if let Some(places) = self.members.get_mut(leg.group) {
            remove_shipment(places, shipment);
        }
    }

    // The places of a group's legs.
    pub(crate) fn places(&self, group: usize) -> &[Place] {
        match self.members.get(group) {
            Some(places) => places,
            None => &[],
        }
    }

    // The leg at a place.
    pub(crate) fn leg(&self, place: Place) -> Option<GroupedLeg> {
        self.routes.get(place.shipment)?.get(place.leg).copied()
    }

    // Gives a group its least time.
    pub(crate) fn set_early(&mut self, group: usize, early: u32) {
        if let Some(found) = self.groups.get_mut(group) {
            found.early = early;
        }
    }

    // Gives a group its greatest time.
    pub(crate) fn set_late(&mut self, group: usize, late: u32) {
        if let Some(found) = self.groups.get_mut(group) {
            found.late = late;
        }
    }

    /// Takes a shipment out: its legs leave their groups. The times of the groups stay. It takes no
    /// memory.
    pub fn take_out(&mut self, instance: &Instance, shipment: usize) {
        for _ in 0..u32::MAX {
            let Some(route) = self.routes.get_mut(shipment) else {
                return;
            };
            let Some(leg) = route.pop() else {
                return;
            };
            self.leave(instance, shipment, leg);
        }
    }

    /// Puts a shipment that is out in along a path over the arcs that it can use, which joins each
    /// group at most once. The times of the groups that it joins narrow to its windows alone.
    /// `NoMemory` only where no memory is found; then it stays out.
    pub fn put_in(
        &mut self,
        instance: &Instance,
        usable: &UsableArcs,
        shipment: usize,
        path: &[PathLeg],
    ) -> Result<(), NoMemory>
        ensures err { OnErr result (content self.new ≡ content self.old) }
    {
        self.make_room(shipment, path)?;
        for taken in path {
            if let Some(arc) = usable.arcs.get(taken.usable) {
                let group = match taken.group {
                    Some(group) => group,
                    None => self.open_group(arc.number),
                };
                let leg = GroupedLeg {
                    arc: arc.number,
                    group,
                    lo: arc.lo,
                    hi: arc.hi,
                    step: arc.step,
                };
                self.add(instance, shipment, leg);
            }
        }
        Ok(())
    }

    /// Puts a leg that was taken out back at the end of its shipment's route, in its group of
    /// before. After the last one call [`Solution::list_free`]. `NoMemory` only where no memory is
    /// found; then it stays out.
    pub fn restore(
        &mut self,
        instance: &Instance,
        shipment: usize,
        leg: GroupedLeg,
    ) -> Result<(), NoMemory>
        ensures err { OnErr result (content self.new ≡ content self.old) }
    {
        make_room_at(&mut self.routes, shipment, 1)?;
        make_room_at(&mut self.members, leg.group, 1)?;
        let is_free = self
            .groups
            .get(leg.group)
            .is_some_and(|group| group.count == 0);
        if is_free {
            self.reopen(leg.group, leg.arc);
        }
        self.add(instance, shipment, leg);
        Ok(())
    }

    /// Lists the groups of no legs anew as those that are free. It takes no memory.
    pub fn list_free(&mut self) {
        self.free.clear();
        for (number, group) in self.groups.iter().enumerate() {
            if group.count == 0 {
                push_in_room(&mut self.free, number);
            }
        }
    }

    /// Finds the least and the greatest times of all groups anew, as far as there are any. Answers
    /// whether there are. It takes no memory.
    pub fn set_times(&mut self) -> bool {
        reset(&self.routes, &mut self.groups);
        if !raise(&self.routes, &mut self.groups) {
            return false;
        }
        lower(&self.routes, &mut self.groups);
        true
    }
}

// Makes room for the place of one more leg at each group that a path joins.
fn make_places(members: &mut Vec<Vec<Place>>, path: &[PathLeg]) -> Result<(), NoMemory>
    ensures { lists_of members.new.items ≡ lists_of members.old.items }
{
    for taken in path {
        if let Some(group) = taken.group {
            make_room_at(members, group, 1)?;
        }
    }
    Ok(())
}

// Makes lists with room for the place of a leg, until there are so many.
fn make_spare(alloc: Global, spare: &mut Vec<Vec<Place>>, wanted: usize) -> Result<(), NoMemory> {
    for _ in spare.len()..wanted {
        spare.push(Vec::with_capacity(alloc, 1)?)?;
    }
    Ok(())
}

// Removes the place of a shipment's leg.
fn remove_shipment(places: &mut Vec<Place>, shipment: usize) {
    if let Some(at) = places.iter().position(|place| place.shipment == shipment)
        && at < places.len()
    {
        places.swap_remove(at);
    }
}

/// Empty routes for so many shipments. `NoMemory` only where no memory is found.
pub fn empty_routes(alloc: Global, shipments: usize) -> Result<Vec<Vec<GroupedLeg>>, NoMemory> {
    let mut routes = Vec::with_capacity(alloc, shipments)?;
    for _shipment in 0..shipments {
        routes.push(Vec::new(alloc))?;
    }
    Ok(routes)
}

/// The size of a shipment, 0 where there is none with that number.
pub fn size_of(instance: &Instance, shipment: usize) -> u64 {
    instance.shipments().get(shipment).map_or(0, |s| s.size)
}

// What trucks and the flow of a size cost.
fn leg_cost(truck: u64, trucks: u64, freight: u64, size: u64) -> u128 {
    let trucks = u128::from(truck).saturating_mul(u128::from(trucks));
    trucks.saturating_add(u128::from(freight).saturating_mul(u128::from(size)))
}
