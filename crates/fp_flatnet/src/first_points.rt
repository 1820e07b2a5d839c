//! The time points that an instance and its windows begin with.
ghost use Rattle.std.specs.Prelude.{◌≡◌, ◌≤◌, ◌+◌, ◌*◌, ◌++◌, [], length, map, IfOk};
ghost use Rattle.fp_flatnet.specs.Belonging.{BelongsTo};
ghost use Rattle.fp_flatnet.specs.Initial.{BeginAt, due_place, release_place};

use crate::NoMemory;
use crate::window_tables::{MOST_ANCHORS, Windows};
use fp_model::limits::MOST_SHIPMENTS;
use fp_model::{Instance, Shipment};
use fp_timenodes::{Place, Points};
use std::alloc::Global;

/// The time points that an instance and windows that belong to it begin with: 0 at each terminal,
/// each release at its origin, each due time at its destination, and each anchor. No point is added
/// to them. `NoMemory` only where no memory is found.
pub fn initial(alloc: Global, instance: &Instance, windows: &Windows) -> Result<Points, NoMemory>
    requires { BelongsTo instance.now windows.now }
    ensures begins { IfOk result (BeginAt instance.now windows.now.anchors) }
    ensures unadded { IfOk result (λ points. points.added ≡ []) }
    ensures few { IfOk result (λ points. length points.first ≤ MOST_ANCHORS + 2 * MOST_SHIPMENTS) }
{
    let terminals = instance.terminals().len() as u32;
    let places = first_places(alloc, instance.shipments(), windows.anchors())?;
    Points::new(alloc, terminals, &places)
}

// The places of the releases, then those of the due times, then the anchors.
fn first_places(
    alloc: Global,
    shipments: &[Shipment],
    anchors: &[Place],
) -> Result<Vec<Place>, NoMemory>
    ensures { IfOk result (λ places. places.items ≡ map release_place shipments.now ++ map due_place shipments.now ++ anchors.now) }
{
    let released = shipments.iter().map(|shipment| Place {
        terminal: shipment.from,
        at: shipment.release,
    });
    let due = shipments.iter().map(|shipment| Place {
        terminal: shipment.to,
        at: shipment.due,
    });
    released
        .chain(due)
        .chain(anchors.iter().copied())
        .collect(alloc)
}
