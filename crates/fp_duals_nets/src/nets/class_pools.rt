//! Pools of the classes, and the places of the nets' edges in them.
ghost use Rattle.std.specs.Prelude.{◌≡◌, OnErr};

use crate::NoMemory;
use crate::classes::class_nodes::arc_of;
use crate::leaf_nets::{LeafNets, loads_where};
use crate::money::arc_money::ArcMoney;
use crate::nets::shipment_nets::{EdgeUse, NO_PART, NONE, Net, Nets};
use crate::slices::part_mut;
use std::alloc::Global;

/// The pool of a class: what its arc costs, and where its parts stand among all parts.
#[derive(Clone, Copy)]
pub struct ClassPool {
    pub class: u32,
    pub arc: ArcMoney,
    pub first: usize,
    pub end: usize,
}

/// What a part of a pool is for: the use of the class by one shipment, over whichever edge of its net.
#[derive(Clone, Copy)]
pub struct PoolPart {
    /// The first such edge, or no edge's number where the part is for none. It's the only one but in nets
    /// whose walks go by arcs.
    pub edge: usize,
    /// The number of the pool.
    pub pool: usize,
    pub shipment: u32,
    pub size: u64,
    /// What the freight costs over such an edge.
    pub flow: u64,
}

/// A part that is for nobody.
const NOBODY: PoolPart = PoolPart {
    edge: usize::MAX,
    pool: 0,
    shipment: 0,
    size: 0,
    flow: 0,
};

/// Pools of classes, by class, and their parts. Those of a pool stand together: first those for the
/// shipments that may use its class, in their order, and then those for nobody.
#[derive(Drop)]
pub struct ClassPools {
    pub list: Vec<ClassPool>,
    pub parts: Vec<PoolPart>,
    // How many parts of each pool are for nobody.
    spare: usize,
}

impl ClassPools {
    /// A pool for each class of some net's edges, but for those that a chain is forced to use where
    /// `forced` leaves them out, with so many parts for nobody. Tells the edges of the nets their
    /// pools and parts. `NoMemory` only where no memory is found.
    pub fn of(
        alloc: Global,
        model: &mut LeafNets,
        forced: bool,
        spare: usize,
    ) -> Result<ClassPools, NoMemory>
        ensures { OnErr result (model.new ≡ model.old) }
    {
        let mut pools = ClassPools {
            list: Vec::new(alloc),
            parts: Vec::new(alloc),
            spare,
        };
        let numbers = pools.open_all(alloc, model, forced)?;
        pools.place_edges(&mut model.nets, &numbers);
        Ok(pools)
    }

    // Opens the pools. For each class its pool's number, or `NONE`.
    fn open_all(
        &mut self,
        alloc: Global,
        model: &LeafNets,
        forced: bool,
    ) -> Result<Vec<u32>, NoMemory> {
        let free = loads_where(forced, &model.loads);
        let counts = model.nets.count_users(alloc, model.classes.len())?;
        let mut numbers = Vec::with_capacity(alloc, counts.len())?;
        let mut class = 0u32;
        let mut opened = 0u32;
        for count in &counts {
            let paid = free.get(class as usize).copied().unwrap_or(0) == 0;
            match arc_of(class, &model.classes, &model.arcs) {
                Some(arc) if *count > 0 && paid => {
                    self.open(class, arc, *count as usize)?;
                    numbers.push(opened)?;
                    opened = opened.wrapping_add(1);
                }
                _ => numbers.push(NONE)?,
            }
            class = class.wrapping_add(1);
        }
        Ok(numbers)
    }

    // Opens the pool of a class that so many shipments may use. Its end rises as they are placed.
    fn open(&mut self, class: u32, arc: ArcMoney, users: usize) -> Result<(), NoMemory> {
        let first = self.parts.len();
        let end = first.wrapping_add(self.spare);
        self.parts.resize(end.wrapping_add(users), NOBODY)?;
        self.list.push(ClassPool {
            class,
            arc,
            first,
            end,
        })?;
        Ok(())
    }

    // Gives each edge of a class with a pool its shipment's part of the pool.
    fn place_edges(&mut self, nets: &mut Nets, numbers: &[u32]) {
        let mut shipment = 0u32;
        for net in &nets.list {
            if let Some(uses) = part_mut(&mut nets.uses, net.first_edge, net.end_edge) {
                self.place_net(net, shipment, uses, numbers);
            }
            shipment = shipment.wrapping_add(1);
        }
    }

    // The same for the edges of one net.
    fn place_net(&mut self, net: &Net, shipment: u32, uses: &mut [EdgeUse], numbers: &[u32]) {
        let mut number = net.first_edge;
        for edge in uses.iter_mut() {
            edge.pool = numbers.get(edge.class as usize).copied().unwrap_or(NONE);
            edge.part = self.part_for(&PoolPart {
                edge: number,
                pool: edge.pool as usize,
                shipment,
                size: net.size,
                flow: edge.flow,
            });
            number = number.wrapping_add(1);
        }
    }

    // The place of a part in its pool: that of the same shipment, if it's placed already, and else the
    // next one, where it's put. `NO_PART` where there is no such pool.
    fn part_for(&mut self, wanted: &PoolPart) -> usize {
        let Some(pool) = self.list.get_mut(wanted.pool) else {
            return NO_PART;
        };
        let next = pool.end.wrapping_sub(self.spare);
        let newest = next.wrapping_sub(1);
        if next > pool.first
            && let Some(part) = self.parts.get(newest)
            && part.shipment == wanted.shipment
        {
            return newest;
        }
        pool.end = pool.end.wrapping_add(1);
        if let Some(part) = self.parts.get_mut(next) {
            *part = *wanted;
        }
        next
    }
}
