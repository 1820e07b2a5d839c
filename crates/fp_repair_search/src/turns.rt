//! The turns of the search: take shipments out, put them back, and keep the state or not.

use crate::NoMemory;
use crate::draws::Draws;
use crate::earnings::Earnings;
use crate::paths::Paths;
use crate::plans::{plan_cost, plan_of};
use crate::removal::Removal;
use fp_model::{Instance, Plan};
use fp_repair_groups::{
    GroupedLeg, PARTS, SavedTimes, Solution, TimeChanges, UsableArcs, empty_routes,
};
use std::alloc::Global;

// A leg that was taken out, and its shipment.
#[derive(Clone, Copy)]
struct Undone {
    shipment: usize,
    leg: GroupedLeg,
}

// What the turns work on. `best` has the routes of the state of least cost met, and `plan` is the
// cheapest of the plans that were kept, with what it costs. `earnings` tells what made the best state
// cheaper.
#[derive(Drop)]
pub(crate) struct Turns {
    pub plan: Plan,
    pub earnings: Earnings,
    plan_cost: Option<u128>,
    solution: Solution,
    best: Vec<Vec<GroupedLeg>>,
    best_cost: u128,
    // Whether the best state has no plan that was looked at.
    is_new: bool,
    usable: Vec<UsableArcs>,
    paths: Paths,
    removal: Removal,
    draws: Draws,
    undone: Vec<Undone>,
    changes: TimeChanges,
    // The times before the turn, and before a shipment is put back.
    before: SavedTimes,
    beside: SavedTimes,
}

impl Turns {
    // The turns from a state on.
    pub(crate) fn new(
        alloc: Global,
        instance: &Instance,
        usable: Vec<UsableArcs>,
        mut solution: Solution,
        seed: u64,
    ) -> Result<Turns, NoMemory> {
        solution.set_times();
        let mut best = empty_routes(alloc, solution.routes.len())?;
        copy_routes(&solution.routes, &mut best)?;
        Ok(Turns {
            plan: Plan {
                routes: Vec::new(alloc),
            },
            earnings: Earnings::new(),
            plan_cost: None,
            best,
            best_cost: solution.cost,
            is_new: true,
            solution,
            usable,
            paths: Paths::new(alloc, instance)?,
            removal: Removal::new(alloc, instance),
            draws: Draws::new(seed),
            undone: Vec::new(alloc),
            changes: TimeChanges::new(alloc),
            before: SavedTimes::new(alloc),
            beside: SavedTimes::new(alloc),
        })
    }

    // Makes one turn. The state may cost more than before, up to `loose` parts of 1024 of the best
    // cost above it.
    pub(crate) fn turn(&mut self, instance: &Instance, loose: u128) -> Result<(), NoMemory> {
        let above = self.best_cost.saturating_mul(loose).checked_div(1024);
        let limit = self.best_cost.saturating_add(above.unwrap_or(0));
        let limit = limit.max(self.solution.cost);
        self.removal
            .draw(instance, &self.solution, &mut self.draws)?;
        self.take_out(instance)?;
        self.removal.order(&mut self.draws);
        self.draw_belief();
        if self.put_back(instance, limit)? {
            self.keep_best()
        } else {
            self.restore(instance)
        }
    }

    // Takes the drawn shipments out, and notes their legs.
    fn take_out(&mut self, instance: &Instance) -> Result<(), NoMemory> {
        self.before.save(&self.solution.groups)?;
        self.undone.clear();
        for taken in &self.removal.taken {
            if let Some(route) = self.solution.routes.get(taken.shipment) {
                note(&mut self.undone, taken.shipment, route)?;
            }
            self.solution.take_out(instance, taken.shipment);
        }
        for undone in &self.undone {
            self.changes
                .note_left(&self.solution.groups, undone.leg.group);
        }
        self.changes.widen(&mut self.solution);
        Ok(())
    }

    // Draws in two of three turns how many parts of a truck's cost count by trucks on each arc, one
    // at least; else all do. The bits of a draw are enough for seven arcs.
    fn draw_belief(&mut self) {
        let doubts = self.draws.below(3) > 0;
        let mut bits = 0;
        for (number, belief) in self.paths.belief.iter_mut().enumerate() {
            *belief = PARTS;
            if doubts {
                if number % 7 == 0 {
                    bits = self.draws.bits();
                }
                *belief = PARTS.saturating_sub(bits % PARTS);
                bits /= PARTS;
            }
        }
    }

    // Puts the drawn shipments back. Answers whether all are, at a cost up to a limit.
    fn put_back(&mut self, instance: &Instance, limit: u128) -> Result<bool, NoMemory> {
        self.paths.list_groups(&self.solution.groups)?;
        for at in 0..self.removal.taken.len() {
            let Some(shipment) = self.removal.taken.get(at).map(|taken| taken.shipment) else {
                return Ok(false);
            };
            if !self.put_one_back(instance, shipment)? || self.solution.cost > limit {
                return Ok(false);
            }
            self.list_opened(shipment)?;
        }
        Ok(true)
    }

    // Puts one shipment back: on the cheapest path, or where the groups then have no times, on the
    // cheapest one that makes no group leave later.
    fn put_one_back(&mut self, instance: &Instance, shipment: usize) -> Result<bool, NoMemory> {
        self.beside.save(&self.solution.groups)?;
        if !self.put_on_path(instance, shipment, true)? {
            return Ok(false);
        }
        if self.changes.narrow(&mut self.solution, shipment) {
            return Ok(true);
        }
        self.solution.take_out(instance, shipment);
        self.beside.load(&mut self.solution.groups);
        if !self.put_on_path(instance, shipment, false)? {
            return Ok(false);
        }
        Ok(self.changes.narrow(&mut self.solution, shipment))
    }

    // Lists the groups that a shipment is alone in: they are new.
    fn list_opened(&mut self, shipment: usize) -> Result<(), NoMemory> {
        let Some(route) = self.solution.routes.get(shipment) else {
            return Ok(());
        };
        for leg in route {
            if let Some(group) = self.solution.groups.get(leg.group)
                && group.count == 1
            {
                self.paths.list_group(leg.group, leg.arc)?;
            }
        }
        Ok(())
    }

    // Puts a shipment in on the cheapest path. Answers whether there is one.
    fn put_on_path(
        &mut self,
        instance: &Instance,
        number: usize,
        shift: bool,
    ) -> Result<bool, NoMemory> {
        let (Some(usable), Some(shipment)) = (
            self.usable.get(number),
            instance.shipments().get(number),
        ) else {
            return Ok(false);
        };
        let groups = &self.solution.groups;
        if !self.paths.find(instance, usable, groups, shipment, shift)? {
            return Ok(false);
        }
        self.solution
            .put_in(instance, usable, number, &self.paths.path)?;
        Ok(true)
    }

    // Keeps the state, as the best one if it is.
    fn keep_best(&mut self) -> Result<(), NoMemory> {
        if self.solution.cost < self.best_cost {
            let less = self.best_cost.saturating_sub(self.solution.cost);
            self.earnings.add(self.removal.kind, less);
            self.best_cost = self.solution.cost;
            self.is_new = true;
            copy_routes(&self.solution.routes, &mut self.best)?;
        }
        Ok(())
    }

    // Looks at the plan in which the groups of the best state leave as early as they can, and keeps it
    // where none was cheaper. Between two turns; the state stays.
    pub(crate) fn keep_plan(&mut self, alloc: Global, instance: &Instance) -> Result<(), NoMemory> {
        if !self.is_new {
            return Ok(());
        }
        self.is_new = false;
        self.before.save(&self.solution.groups)?;
        std::mem::swap(&mut self.solution.routes, &mut self.best);
        self.solution.set_times();
        let plan = plan_of(alloc, &self.solution)?;
        std::mem::swap(&mut self.solution.routes, &mut self.best);
        self.before.load(&mut self.solution.groups);
        if let Some(cost) = plan_cost(alloc, instance, &plan)?
            && self.plan_cost.is_none_or(|least| cost < least)
        {
            self.plan = plan;
            self.plan_cost = Some(cost);
        }
        Ok(())
    }

    // Goes back to the state before the turn.
    fn restore(&mut self, instance: &Instance) -> Result<(), NoMemory> {
        for taken in &self.removal.taken {
            self.solution.take_out(instance, taken.shipment);
        }
        for undone in &self.undone {
            self.solution
                .restore(instance, undone.shipment, undone.leg)?;
        }
        self.before.load(&mut self.solution.groups);
        self.solution.list_free();
        Ok(())
    }
}

// Notes the legs of a shipment's route.
fn note(undone: &mut Vec<Undone>, shipment: usize, route: &[GroupedLeg]) -> Result<(), NoMemory> {
    for leg in route {
        undone.push(Undone {
            shipment,
            leg: *leg,
        })?;
    }
    Ok(())
}

// Copies routes over as many others.
fn copy_routes(routes: &[Vec<GroupedLeg>], copies: &mut [Vec<GroupedLeg>]) -> Result<(), NoMemory> {
    for (shipment, route) in routes.iter().enumerate() {
        if let Some(copy) = copies.get_mut(shipment) {
            copy.clear();
            copy.extend_from_slice(route)?;
        }
    }
    Ok(())
}
