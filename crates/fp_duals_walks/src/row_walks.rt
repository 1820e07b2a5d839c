//! Whether a list of classes, whatever it holds, is a timed walk of a shipment over the classes that
//! a row allows.
ghost use Rattle.std.specs.Prelude.{◌≡◌, ◌<◌, ◌↔◌, IsTrue, length};
ghost use Rattle.fp_model.specs.Numbered.{shipment_at};
ghost use Rattle.fp_longestarcs.specs.Networks.{IsClass, class_count, points_in};
ghost use Rattle.fp_longestarcs.specs.Whole.{IsWholeNetwork};
ghost use Rattle.fp_allowed.specs.Bits.{row_allows};
ghost use Rattle.fp_allowed.specs.Walks.{IsTimedWalk};
ghost use Rattle.fp_longestarcs.specs.Stops.{leg_of, legs_of};
ghost use Rattle.fp_duals_walks.specs.AllowedWalks.{after_class};

use fp_longestarcs::{Network, Stop};
use fp_model::Instance;
use fp_rows::Row;

/// Where a shipment stands on its way: the terminal, and the time from which on it's ready there.
#[derive(Clone, Copy)]
pub(crate) struct Standing {
    pub(crate) terminal: u32,
    pub(crate) ready: u32,
}

// Whether a class is one of the network and the row allows it.
fn is_set(instance: &Instance, network: &Network, row: &Row, class: Stop) -> bool
    requires whole { IsWholeNetwork instance.now network.now }
    requires long { length row.now ≡ class_count network.now }
    ensures allows { result ≡ row_allows network.now row.now (leg_of class) }
    ensures arc { IsTrue result → class.arc < length instance.now.arcs }
    ensures class { IsTrue result → IsClass network.now (leg_of class) }
{
    if class.arc as usize >= instance.arcs().len() {
        return false;
    }
    let tail = instance.arc(class.arc).from;
    if !network.is_point(tail, class.point) {
        return false;
    }
    row.get(network.class(class.arc, class.point))
}

// Where a shipment stands after one more class. `None` where the row doesn't allow the class, or it
// leaves elsewhere or too early.
fn after_class(
    instance: &Instance,
    network: &Network,
    row: &Row,
    here: Standing,
    class: Stop,
) -> Option<Standing>
    requires whole { IsWholeNetwork instance.now network.now }
    requires long { length row.now ≡ class_count network.now }
    ensures { result ≡ after_class instance.now network.now row.now here (leg_of class) }
{
    if !is_set(instance, network, row, class) {
        return None;
    }
    let arc = instance.arc(class.arc);
    if arc.from != here.terminal || class.point < here.ready {
        return None;
    }
    Some(Standing {
        terminal: arc.to,
        ready: network.head(class.arc, class.point),
    })
}

/// Whether the classes are a timed walk of a shipment over those that a row allows. Takes no memory.
pub(crate) fn is_row_walk(
    instance: &Instance,
    network: &Network,
    row: &Row,
    shipment: u32,
    walk: &[Stop],
) -> bool
    requires whole { IsWholeNetwork instance.now network.now }
    requires long { length row.now ≡ class_count network.now }
    requires shipment { shipment < length instance.now.shipments }
    ensures { IsTrue result ↔ IsTimedWalk instance.now (points_in network.now) (row_allows network.now row.now) (shipment_at instance.now shipment) (legs_of walk.now) }
{
    let ends = instance.shipment(shipment);
    let mut here = Standing {
        terminal: ends.from,
        ready: 0,
    };
    for class in walk {
        match after_class(instance, network, row, here, *class) {
            Some(next) => here = next,
            None => return false,
        }
    }
    here.terminal == ends.to
}
