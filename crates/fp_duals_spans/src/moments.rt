//! The moments at which the payers of spans can leave.

use crate::NoMemory;
use fp_duals_layouts::{Layout, Run};
use fp_prices::Leaf;
use std::alloc::Global;

// The first and the last moment at which a shipment can leave by an arc; all moments where it has
// no window there.
fn window_of(leaf: &Leaf, shipment: u32, arc: u32) -> (u32, u32) {
    let instance = leaf.round().instance();
    let known = (shipment as usize) < instance.shipments().len()
        && (arc as usize) < instance.arcs().len();
    if known && let Some(window) = leaf.windows().window(shipment, arc) {
        return window;
    }
    (0, u32::MAX)
}

// The moments of a window that lie in a run, as far as shipments are told apart by them: none
// leaves before the run, and when the last of them leave isn't asked.
fn cut(window: (u32, u32), run: &Run) -> (u32, u32) {
    let lo = window.0.min(run.until.saturating_sub(1)).max(run.point);
    (lo, window.1)
}

/// Tells the payers of all spans of a layout apart by the leaf's windows. `NoMemory` only where no
/// memory is found.
pub(crate) fn tell_apart(alloc: Global, leaf: &Leaf, layout: &mut Layout) -> Result<(), NoMemory> {
    let mut moments = Vec::with_capacity(alloc, layout.payers.len())?;
    for payer in &layout.payers {
        moments.push(match layout.spans.get(payer.span) {
            Some(span) => cut(window_of(leaf, payer.shipment, span.run.arc), &span.run),
            None => (0, u32::MAX),
        })?;
    }
    layout.set_moments(&moments)
}
