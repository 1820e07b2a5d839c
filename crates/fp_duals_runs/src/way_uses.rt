//! By which arcs the averaged walks of each shipment go.

use crate::NoMemory;
use crate::averages::Averages;
use fp_duals_layouts::{Layout, Payer};
use std::alloc::Global;

// The arc of a single class for which a payer pays, if it's such a payer.
fn arc_of(layout: &Layout, payer: &Payer) -> Option<usize> {
    if payer.span < layout.singles {
        let span = layout.spans.get(payer.span)?;
        Some(span.run.arc as usize)
    } else {
        None
    }
}

/// How much of the averaged walks of each shipment goes by each arc, in parts of
/// [`TRUCK_PARTS`](crate::TRUCK_PARTS): at the place of the shipment's number times `arcs`, and the arc's
/// number. There are so many of both. Uses are known by the spans of single classes. `NoMemory` only where
/// no memory is found.
pub fn used_ways(
    alloc: Global,
    layout: &Layout,
    averages: &Averages,
    shipments: usize,
    arcs: usize,
) -> Result<Vec<u64>, NoMemory> {
    let mut used = vec![in alloc; 0u64; shipments.saturating_mul(arcs)]?;
    for (number, payer) in layout.payers.iter().enumerate() {
        let first = (payer.shipment as usize).saturating_mul(arcs);
        if let Some(arc) = arc_of(layout, payer)
            && let Some(sum) = used.get_mut(first.saturating_add(arc))
        {
            *sum = sum.saturating_add(averages.use_of(number));
        }
    }
    Ok(used)
}
