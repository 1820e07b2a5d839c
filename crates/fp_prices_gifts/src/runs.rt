//! Whether the run of a gift ends at points of a leaf.
ghost use Rattle.std.specs.Prelude.{◌≡◌, ◌<◌, ◌↔◌, All, IsTrue, length};
ghost use Rattle.fp_model.specs.declared.parts.Shipment.{Shipment as ShipmentParts};
ghost use Rattle.fp_longestarcs.specs.Networks.{points_in};
ghost use Rattle.fp_longestarcs.specs.Whole.{IsWholeNetwork};
ghost use Rattle.fp_prices_gifts.specs.GiftLeaves.{EndsAtPoints};

use crate::gifts::Gift;
use fp_longestarcs::Network;
use fp_model::{Instance, Shipment};

// Whether all shipments are due before a time.
fn are_due_before(shipments: &[Shipment], until: u32) -> bool
    ensures { IsTrue result ↔ All (λ (s : ShipmentParts). s.due < until) shipments.now }
{
    shipments.iter().all(|shipment| shipment.due < until)
}

/// Whether the run of a gift begins at a point of its arc's tail, and ends at one or after all due
/// times. Then a departure lies in it exactly where its class does.
pub(crate) fn ends_at_points(instance: &Instance, network: &Network, gift: Gift) -> bool
    requires arc { gift.arc < length instance.now.arcs }
    requires whole { IsWholeNetwork instance.now network.now }
    ensures { IsTrue result ↔ EndsAtPoints instance.now (points_in network.now) gift }
{
    let tail = instance.arc(gift.arc).from;
    network.is_point(tail, gift.point)
        && (network.is_point(tail, gift.until) || are_due_before(instance.shipments(), gift.until))
}
