//! Whether walks are allowed timed walks of the shipments at a leaf.
ghost use Rattle.std.specs.Prelude.{◌<◌, ◌↔◌, IsTrue, length};
ghost use Rattle.fp_model.specs.Numbered.{shipment_at};
ghost use Rattle.fp_duals_walks.specs.AllowedWalks.{AreAllowedWalks, IsAllowedWalk};

use crate::row_walks::is_row_walk;
use fp_longestarcs::TimedWalk;
use fp_prices::Leaf;

/// Whether a walk, whatever it holds, is an allowed timed walk of a shipment at a leaf: its classes
/// are allowed for the shipment, their arcs lead from its origin to its destination, and each class
/// stands at or after the head of the one before it. Takes no memory, and time that grows with the
/// walk, and with the logarithm of the points of a terminal.
pub fn is_allowed_walk(leaf: &Leaf, shipment: u32, walk: &TimedWalk) -> bool
    requires { shipment < length leaf.now.setting.problem.shipments }
    ensures { IsTrue result ↔ IsAllowedWalk leaf.now shipment (shipment_at leaf.now.setting.problem shipment) walk.now }
{
    let round = leaf.round();
    let instance = round.instance();
    let network = round.network();
    let row = leaf.row(shipment);
    // They fit the instance, so each allowed class is one of the network, and has a bit.
    let _windows = leaf.windows();
    is_row_walk(instance, network, row, shipment, &walk.stops)
}

/// Whether these are for each shipment an allowed timed walk at a leaf, as [`is_allowed_walk`] has
/// it. Any list may be handed in. Takes no memory.
pub fn are_allowed_walks(leaf: &Leaf, walks: &[TimedWalk]) -> bool
    ensures { IsTrue result ↔ AreAllowedWalks leaf.now walks.now }
{
    let count = leaf.round().instance().shipments().len();
    let long = walks.len();
    if long != count {
        return false;
    }
    for shipment in 0..count as u32 {
        if !is_allowed_walk(leaf, shipment, &walks[shipment as usize]) {
            return false;
        }
    }
    true
}
