//! The allowed classes of a shipment, as steps from node to node.
ghost use Rattle.std.specs.Prelude.{◌<◌, length};

use crate::NoMemory;
use crate::classes::class_nodes::{ClassNodes, PointNodes};
use fp_prices::Leaf;

/// By which heads the shipments of a leaf go.
#[derive(Clone, Copy, Debug, PartialEq, Eq)]
pub(crate) enum Heads {
    /// By those of the classes.
    OfClasses,
    /// By those within each shipment's windows, which are later where a window begins after the point
    /// of a class.
    WithinWindows,
}

/// A class by which a shipment may go, with the nodes of its point and of its head for the shipment.
#[derive(Clone, Copy)]
pub(crate) struct Step {
    pub class: u32,
    pub tail: usize,
    pub head: usize,
}

// The node of the head of a class for a shipment within its windows.
fn head_within(
    leaf: &Leaf,
    nodes: &PointNodes,
    class: &ClassNodes,
    number: u32,
    shipment: u32,
) -> usize
    requires { shipment < length leaf.now.setting.problem.shipments }
{
    let network = leaf.round().network();
    let arcs = leaf.round().instance().arcs();
    if number >= network.classes() {
        return class.head;
    }
    let (arc, point) = network.of_class_near(class.stop.arc, number);
    match arcs.get(arc as usize) {
        Some(taken) => nodes.node(taken.to, leaf.head(shipment, arc, point)),
        None => class.head,
    }
}

/// Puts in the steps of a shipment by the classes with these numbers.
pub(crate) fn list_steps(
    leaf: &Leaf,
    nodes: &PointNodes,
    classes: &[ClassNodes],
    numbers: &[u32],
    shipment: u32,
    heads: Heads,
    steps: &mut Vec<Step>,
) -> Result<(), NoMemory>
    requires { shipment < length leaf.now.setting.problem.shipments }
{
    steps.clear();
    for number in numbers {
        if let Some(class) = classes.get(*number as usize) {
            let head = match heads {
                Heads::OfClasses => class.head,
                Heads::WithinWindows => head_within(leaf, nodes, class, *number, shipment),
            };
            steps.push(Step {
                class: *number,
                tail: class.tail,
                head,
            })?;
        }
    }
    Ok(())
}
