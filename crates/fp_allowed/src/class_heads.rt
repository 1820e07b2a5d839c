//! The head of a class for a shipment.

ghost use Rattle.std.specs.Prelude.{◌≡◌, ◌<◌, length};
ghost use Rattle.fp_flatnet.specs.Belonging.{FitsInstance};
ghost use Rattle.fp_flatnet.specs.Tables.{windows_in};
ghost use Rattle.fp_longestarcs.specs.Networks.{IsClass, points_in};
ghost use Rattle.fp_longestarcs.specs.Whole.{IsWholeNetwork};
ghost use Rattle.fp_allowed.specs.Heads.{heads_within};

use fp_flatnet::Windows;
use fp_longestarcs::Network;
use fp_model::Instance;

// The head of the class of an arc and a point for a shipment: later than the network's where the
// shipment's window for the arc begins after the point.
pub(crate) fn head_for(
    instance: &Instance,
    windows: &Windows,
    network: &Network,
    shipment: u32,
    arc: u32,
    point: u32,
) -> u32
    requires shipment { shipment < length instance.now.shipments }
    requires class { IsClass network.now (record { arc = arc; depart = point }) }
    requires fits { FitsInstance instance.now windows.now }
    requires whole { IsWholeNetwork instance.now network.now }
    ensures { result ≡ heads_within instance.now (windows_in windows.now) (points_in network.now) shipment (record { arc = arc; depart = point }) }
{
    match windows.window(shipment, arc) {
        Some((lo, _)) if lo > point => {
            network.floor(instance.arc(arc).to, lo + instance.step(arc))
        }
        _ => network.head(arc, point),
    }
}
