//! All that a search for prices at a leaf goes over.

use crate::NoMemory;
use crate::classes::class_nodes::{ClassNodes, PointNodes, all_classes};
use crate::classes::forced_loads::{base_of, forced_chains, forced_loads};
use crate::money::arc_money::{ArcMoney, arc_money};
use crate::money::units::MoneyUnit;
use crate::nets::all_nets::{NetParts, all_nets};
use crate::nets::layers::{all_ways, most_layers};
use crate::nets::shipment_nets::Nets;
use crate::nets::steps::Heads;
use fp_prices::Leaf;
use std::alloc::Global;
use std::marker::Model;

/// The loads where something holds, and none elsewhere.
pub fn loads_where(holds: bool, loads: &[u128]) -> &[u128] {
    if holds { loads } else { &[] }
}

/// The nets of the shipments at a leaf, with its classes and what they cost. Heuristics alone read
/// them: to contracts they hold nothing, so they're the same after each call, also after `NoMemory`.
#[derive(Drop)]
pub struct LeafNets {
    /// The unit of all money.
    pub unit: MoneyUnit,
    /// The classes of the leaf's network, by their numbers.
    pub classes: Vec<ClassNodes>,
    /// What each arc costs.
    pub arcs: Vec<ArcMoney>,
    /// The nets of the shipments, by their numbers.
    pub nets: Nets,
    /// For each class the sizes together of the shipments that are forced to use it.
    pub loads: Vec<u128>,
}

impl Model for LeafNets {
    ghost use Rattle.std.specs.Prelude.{⊤};

    ghost Value = { ⊤ };

    ghost view = { λ _. tt };
}

impl LeafNets {
    /// The nets at a leaf by such heads; within windows the walks of a shipment go by the arcs that count
    /// for it at the leaf. `NoMemory` only where no memory is found. Takes time and memory that grow with
    /// the allowed classes of all shipments, and with the points for each shipment; where walks of a
    /// shipment go by arcs, twice as much of it for each.
    pub(crate) fn of(alloc: Global, leaf: &Leaf, heads: Heads) -> Result<LeafNets, NoMemory> {
        let instance = leaf.round().instance();
        let network = leaf.round().network();
        let nodes = PointNodes::of(alloc, instance, network)?;
        let classes = all_classes(alloc, instance, network, &nodes)?;
        let ways = all_ways(alloc, leaf, heads)?;
        let unit = MoneyUnit::of(
            instance,
            nodes.points.len().wrapping_mul(most_layers(&ways)),
        );
        let arcs = arc_money(alloc, instance, unit)?;
        let chains = forced_chains(alloc, leaf)?;
        let loads = forced_loads(alloc, leaf, &chains, classes.len())?;
        let parts = NetParts {
            nodes: &nodes,
            classes: &classes,
            arcs: &arcs,
            unit,
        };
        let nets = all_nets(alloc, leaf, &parts, &chains, &ways, heads)?;
        Ok(LeafNets {
            unit,
            classes,
            arcs,
            nets,
            loads,
        })
    }

    /// What the trucks of the forced chains cost.
    pub fn base(&self) -> u64 {
        base_of(&self.loads, &self.classes, &self.arcs)
    }
}
