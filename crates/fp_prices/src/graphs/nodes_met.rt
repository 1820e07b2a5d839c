//! The timed nodes that a walk meets, and whether it repeats none.
ghost use Rattle.std.specs.Prelude.{◌≡◌, ◌↔◌, All, IfOk, IsTrue, map};
ghost use Rattle.fp_base_lists.specs.Distinct.{AreDistinct};
ghost use Rattle.fp_longestarcs.specs.Networks.{IsClass, points_in};
ghost use Rattle.fp_longestarcs.specs.Stops.{legs_of};
ghost use Rattle.fp_longestarcs.specs.Whole.{IsWholeNetwork};
ghost use Rattle.fp_prices.specs.LeastWalks.{nodes_met};
ghost use Rattle.fp_prices.specs.TimedWalks.{node_of_place};

use crate::NoMemory;
use fp_longestarcs::{Network, Stop};
use fp_model::Instance;
use fp_timenodes::Place;
use std::alloc::Global;

// The timed nodes that a walk of classes meets from a terminal on, where it stands from 0 on.
fn nodes_met(
    alloc: Global,
    instance: &Instance,
    network: &Network,
    from: u32,
    walk: &[Stop],
) -> Result<Vec<Place>, NoMemory>
    requires whole { IsWholeNetwork instance.now network.now }
    requires classes { All (IsClass network.now) (legs_of walk.now) }
    ensures { IfOk result (λ nodes. map node_of_place nodes.items ≡ nodes_met instance.now (points_in network.now) (from, 0) (legs_of walk.now)) }
{
    let mut nodes = Vec::new(alloc);
    let mut here = Place {
        terminal: from,
        at: 0,
    };
    for class in walk {
        nodes.push(here)?;
        let arc = instance.arc(class.arc);
        if arc.from != here.terminal || class.point != here.at {
            nodes.push(Place {
                terminal: arc.from,
                at: class.point,
            })?;
        }
        here = Place {
            terminal: arc.to,
            at: network.head(class.arc, class.point),
        };
    }
    nodes.push(here)?;
    Ok(nodes)
}

// Whether no place stands twice.
fn are_distinct(places: &[Place]) -> bool
    ensures { IsTrue result ↔ AreDistinct places.now }
{
    for place in 0..places.len() {
        if places[..place].contains(&places[place]) {
            return false;
        }
    }
    true
}

/// Whether a walk of classes from a terminal on, where it stands from 0 on, repeats no timed node.
/// `NoMemory` only where no memory is found.
pub(crate) fn repeats_no_node(
    alloc: Global,
    instance: &Instance,
    network: &Network,
    from: u32,
    walk: &[Stop],
) -> Result<bool, NoMemory>
    requires whole { IsWholeNetwork instance.now network.now }
    requires classes { All (IsClass network.now) (legs_of walk.now) }
    ensures { IfOk result (λ yes. IsTrue yes ↔ AreDistinct (nodes_met instance.now (points_in network.now) (from, 0) (legs_of walk.now))) }
{
    let nodes = nodes_met(alloc, instance, network, from, walk)?;
    Ok(are_distinct(&nodes))
}
