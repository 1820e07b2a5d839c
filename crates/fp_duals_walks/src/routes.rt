//! The arcs that walks go by, and the terminals that they leave.

use crate::NoMemory;
use fp_duals_nets::{LoadCosts, SharedWalks};

/// Puts in the arcs that the walk of a shipment goes by.
pub(crate) fn list_arcs(
    costs: &LoadCosts,
    shared: &SharedWalks,
    shipment: usize,
    arcs: &mut Vec<u32>,
) -> Result<(), NoMemory> {
    arcs.clear();
    if let Some(walk) = shared.walks.get(shipment) {
        for number in walk {
            if let Some(class) = costs.class(*number) {
                arcs.push(class.stop.arc)?;
            }
        }
    }
    Ok(())
}

/// Whether the walk of a shipment goes by one of these arcs.
pub(crate) fn goes_by(
    costs: &LoadCosts,
    shared: &SharedWalks,
    shipment: usize,
    arcs: &[u32],
) -> bool {
    if let Some(walk) = shared.walks.get(shipment) {
        for number in walk {
            if let Some(class) = costs.class(*number)
                && arcs.contains(&class.stop.arc)
            {
                return true;
            }
        }
    }
    false
}

/// Whether the walk of a shipment leaves no terminal twice. The terminals that it leaves are put in.
pub(crate) fn is_route(
    costs: &LoadCosts,
    shared: &SharedWalks,
    shipment: usize,
    left: &mut Vec<u32>,
) -> Result<bool, NoMemory> {
    left.clear();
    if let Some(walk) = shared.walks.get(shipment) {
        for number in walk {
            if let Some(class) = costs.class(*number) {
                if left.contains(&class.from) {
                    return Ok(false);
                }
                left.push(class.from)?;
            }
        }
    }
    Ok(true)
}
