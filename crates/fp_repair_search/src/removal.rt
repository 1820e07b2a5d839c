//! Which shipments are taken out in a turn, and in which order they are put back.

use crate::NoMemory;
use crate::draws::Draws;
use crate::earnings::RemovalKind;
use crate::load_factors::emptiest;
use crate::relatedness::{Passage, has_arc, is_in, shares_arc};
use fp_model::Instance;
use fp_repair_groups::{GroupedLeg, Solution, size_of};
use std::alloc::Global;
use std::cmp::Reverse;

// The most shipments that are taken out in a turn, among few and among many.
const MOST_OUT_OF_FEW: u32 = 12;

const MOST_OUT_OF_MANY: u32 = 8;

// So many shipments are many.
const MANY: usize = 300;

// A shipment that is taken out, with its size.
#[derive(Clone, Copy)]
pub(crate) struct Taken {
    pub shipment: usize,
    size: u64,
}

// The shipments that are taken out, the ones that they are drawn from, and those that pass a terminal
// by how far from a moment. `most` is how many are taken out at once at most, and `kind` what those have
// in common that are.
#[derive(Drop)]
pub(crate) struct Removal {
    pub taken: Vec<Taken>,
    near: Vec<usize>,
    passing: Vec<(u32, usize)>,
    most: u32,
    pub kind: RemovalKind,
}

impl Removal {
    // Nothing taken out.
    pub(crate) fn new(alloc: Global, instance: &Instance) -> Removal {
        let most = if instance.shipments().len() < MANY {
            MOST_OUT_OF_FEW
        } else {
            MOST_OUT_OF_MANY
        };
        Removal {
            taken: Vec::new(alloc),
            near: Vec::new(alloc),
            passing: Vec::new(alloc),
            most,
            kind: RemovalKind::Arc,
        }
    }

    // Draws shipments that have to do with each other. Every other time they are those of an ill
    // filled departure and others by its arc; else they share arcs, or pass a terminal at about one
    // moment.
    pub(crate) fn draw(
        &mut self,
        instance: &Instance,
        solution: &Solution,
        draws: &mut Draws,
    ) -> Result<(), NoMemory> {
        self.taken.clear();
        self.near.clear();
        let wanted = draws.below(self.most).saturating_add(1);
        self.kind = match draws.below(4) {
            0 => RemovalKind::Arc,
            1 => RemovalKind::Terminal,
            _ => RemovalKind::Departure,
        };
        match self.kind {
            RemovalKind::Arc => self.draw_sharing(instance, &solution.routes, draws)?,
            RemovalKind::Terminal => self.draw_passing(instance, solution, wanted, draws)?,
            RemovalKind::Departure => self.draw_departure(instance, solution, draws)?,
        }
        self.take_near(instance, wanted, draws)
    }

    // Takes shipments that are drawn from those that are near, until so many are.
    fn take_near(
        &mut self,
        instance: &Instance,
        wanted: u32,
        draws: &mut Draws,
    ) -> Result<(), NoMemory> {
        for _ in self.taken.len()..wanted as usize {
            let drawn = draws.place(self.near.len());
            if let Some(shipment) = self.near.get(drawn).copied() {
                self.take(instance, shipment)?;
            }
        }
        Ok(())
    }

    // Takes a shipment, unless it is taken.
    fn take(&mut self, instance: &Instance, shipment: usize) -> Result<(), NoMemory> {
        for taken in &self.taken {
            if taken.shipment == shipment {
                return Ok(());
            }
        }
        let size = size_of(instance, shipment);
        self.taken.push(Taken { shipment, size })?;
        Ok(())
    }

    // Takes a drawn shipment, and lists those that share an arc with it, or one time in four all.
    fn draw_sharing(
        &mut self,
        instance: &Instance,
        routes: &[Vec<GroupedLeg>],
        draws: &mut Draws,
    ) -> Result<(), NoMemory> {
        let first = draws.place(routes.len());
        let any = draws.below(4) == 0;
        let Some(own) = routes.get(first) else {
            return Ok(());
        };
        self.take(instance, first)?;
        for (shipment, route) in routes.iter().enumerate() {
            if any || shares_arc(own, route) {
                self.near.push(shipment)?;
            }
        }
        Ok(())
    }

    // Takes the shipments of an ill filled departure, and lists those that go by its arc, or every
    // other time by an arc with one of its ends.
    fn draw_departure(
        &mut self,
        instance: &Instance,
        solution: &Solution,
        draws: &mut Draws,
    ) -> Result<(), NoMemory> {
        let Some(number) = emptiest(instance, &solution.groups, self.most, draws) else {
            return self.draw_sharing(instance, &solution.routes, draws);
        };
        let nearly = draws.below(2) == 0;
        let Some(by) = solution.groups.get(number).map(|group| group.arc) else {
            return Ok(());
        };
        let Some(arc) = instance.arcs().get(by as usize) else {
            return Ok(());
        };
        for (shipment, route) in solution.routes.iter().enumerate() {
            if is_in(route, number) {
                self.take(instance, shipment)?;
            } else if has_arc(instance, route, by, arc, nearly) {
                self.near.push(shipment)?;
            }
        }
        Ok(())
    }

    // Lists the shipments that leave the terminal of a drawn leg nearest to its departure, or every
    // other time that leave it or come there: twice as many as are wanted.
    fn draw_passing(
        &mut self,
        instance: &Instance,
        solution: &Solution,
        wanted: u32,
        draws: &mut Draws,
    ) -> Result<(), NoMemory> {
        let Some(passage) = drawn_passage(instance, solution, draws) else {
            return Ok(());
        };
        self.list_passing(instance, solution, passage)?;
        self.passing.sort_unstable();
        let end = (wanted as usize).saturating_mul(2);
        for (_, shipment) in self.passing.iter().take(end) {
            self.near.push(*shipment)?;
        }
        Ok(())
    }

    // Lists the shipments that pass a terminal, by how far from a moment.
    fn list_passing(
        &mut self,
        instance: &Instance,
        solution: &Solution,
        passage: Passage,
    ) -> Result<(), NoMemory> {
        self.passing.clear();
        for (shipment, route) in solution.routes.iter().enumerate() {
            for leg in route {
                if let Some(far) = passage.distance(instance, &solution.groups, leg) {
                    self.passing.push((far, shipment))?;
                }
            }
        }
        Ok(())
    }

    // Puts what is taken out in order: every other time the greatest size first, else as drawn.
    pub(crate) fn order(&mut self, draws: &mut Draws) {
        if draws.below(2) == 0 {
            self.taken
                .sort_unstable_by_key(|taken| (Reverse(taken.size), taken.shipment));
        } else {
            shuffle(&mut self.taken, draws);
        }
    }
}

// The terminal that a drawn leg leaves, when it does, and every other time with what comes there.
fn drawn_passage(instance: &Instance, solution: &Solution, draws: &mut Draws) -> Option<Passage> {
    let shipment = draws.place(solution.routes.len());
    let route = solution.routes.get(shipment)?;
    let leg = route.get(draws.place(route.len()))?;
    let arc = instance.arcs().get(leg.arc as usize)?;
    let group = solution.groups.get(leg.group)?;
    Some(Passage {
        terminal: arc.from,
        moment: group.early,
        comes: draws.below(2) == 0,
    })
}

// Puts shipments into a drawn order.
fn shuffle(taken: &mut [Taken], draws: &mut Draws) {
    for last in (1..taken.len()).rev() {
        let end = u32::try_from(last).unwrap_or(0).saturating_add(1);
        let other = draws.below(end) as usize;
        if last < taken.len() && other < taken.len() {
            taken.swap(last, other);
        }
    }
}
