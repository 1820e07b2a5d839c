//! The nets of all shipments of a leaf.

use crate::NoMemory;
use crate::classes::class_nodes::{ClassNodes, PointNodes};
use crate::classes::set_bits::list_set;
use crate::money::arc_money::ArcMoney;
use crate::money::units::MoneyUnit;
use crate::nets::layers::lead_by;
use crate::nets::net_drafts::{NetDraft, Traveler};
use crate::nets::point_groups::PointGroups;
use crate::nets::shipment_nets::Nets;
use crate::nets::steps::{Heads, Step, list_steps};
use fp_allowed::Chain;
use fp_model::Shipment;
use fp_prices::Leaf;
use std::alloc::Global;

/// What the nets are made from.
#[derive(Clone, Copy)]
pub(crate) struct NetParts<'a> {
    pub nodes: &'a PointNodes,
    pub classes: &'a [ClassNodes],
    pub arcs: &'a [ArcMoney],
    pub unit: MoneyUnit,
}

// A shipment with its forced chain, and the arcs by which its walks go.
#[derive(Clone, Copy)]
struct Led<'a> {
    shipment: &'a Shipment,
    chain: &'a Chain,
    ways: &'a [u32],
}

// Drops the classes that leave a terminal.
fn drop_leaving(numbers: &mut Vec<u32>, classes: &[ClassNodes], terminal: u32) {
    numbers.retain(|number| match classes.get(*number as usize) {
        Some(class) => class.from != terminal,
        None => false,
    });
}

// Adds the net of a shipment that may take these steps.
fn push_net(
    nets: &mut Nets,
    draft: &mut NetDraft,
    groups: &mut PointGroups,
    parts: &NetParts,
    led: &Led,
    steps: &[Step],
) -> Result<(), NoMemory> {
    let Led {
        shipment,
        chain,
        ways,
    } = *led;
    groups.group(steps);
    groups.list_edges(parts, steps, shipment.size, &mut draft.between)?;
    let traveler = Traveler {
        size: shipment.size,
        forced: &chain.classes,
        start: groups.of_node(parts.nodes.first(shipment.from)),
        goal: groups.of_node(parts.nodes.first(shipment.to)),
        groups: groups.count,
    };
    let traveler = lead_by(traveler, ways, parts.classes, &mut draft.between)?;
    draft.push_net(nets, &traveler)
}

// The arcs by which the walks of a shipment go; none where nothing is told of it.
fn ways_in(ways: &[Vec<u32>], shipment: u32) -> &[u32] {
    match ways.get(shipment as usize) {
        Some(arcs) => arcs,
        None => &[],
    }
}

/// The nets of all shipments of a leaf by such heads, where these are their chains and the arcs by which
/// their walks go.
pub(crate) fn all_nets(
    alloc: Global,
    leaf: &Leaf,
    parts: &NetParts,
    chains: &[Chain],
    ways: &[Vec<u32>],
    heads: Heads,
) -> Result<Nets, NoMemory> {
    let mut nets = Nets::new(alloc);
    let mut draft = NetDraft::new(alloc);
    let mut groups = PointGroups::of(alloc, parts.nodes)?;
    let mut numbers = Vec::new(alloc);
    let mut steps = Vec::new(alloc);
    let count = leaf.round().network().classes();
    let instance = leaf.round().instance();
    for number in 0..instance.shipments().len() as u32 {
        let shipment = instance.shipment(number);
        list_set(leaf.row(number), count, &mut numbers)?;
        drop_leaving(&mut numbers, parts.classes, shipment.to);
        list_steps(
            leaf,
            parts.nodes,
            parts.classes,
            &numbers,
            number,
            heads,
            &mut steps,
        )?;
        if let Some(chain) = chains.get(number as usize) {
            let led = Led {
                shipment,
                chain,
                ways: ways_in(ways, number),
            };
            push_net(&mut nets, &mut draft, &mut groups, parts, &led, &steps)?;
        }
    }
    Ok(nets)
}
