//! What a relaxed plan costs, for the choice whether to search.
//!
//! Nothing rests on these sums, which stop at the greatest number of their type. They take time that
//! grows with the legs, where `fp_relaxmodel::relaxed_cost` takes no memory and looks at each pair.

use fp_model::{Instance, Member};

// What a relaxed plan of these routes costs whose legs of each class are one of the groups.
pub(crate) fn classes_cost(
    instance: &Instance,
    routes: &[Vec<u32>],
    groups: &[Vec<Member>],
) -> u128 {
    let mut total: u128 = 0;
    for group in groups {
        total = total.saturating_add(class_cost(instance, routes, group).unwrap_or(0));
    }
    for (shipment, route) in routes.iter().enumerate() {
        total = total.saturating_add(flow_cost(instance, shipment, route));
    }
    total
}

// What the trucks of a class cost whose legs are a group.
fn class_cost(instance: &Instance, routes: &[Vec<u32>], group: &[Member]) -> Option<u128> {
    let first = group.first()?;
    let route = routes.get(first.shipment as usize)?;
    let arc = instance
        .arcs()
        .get(*route.get(first.leg as usize)? as usize)?;
    let trucks = load(instance, group).div_ceil(u128::from(arc.capacity.max(1)));
    Some(trucks.saturating_mul(u128::from(arc.truck)))
}

// The sum of the sizes of a group's shipments.
fn load(instance: &Instance, group: &[Member]) -> u128 {
    let mut total: u128 = 0;
    for member in group {
        if let Some(shipment) = instance.shipments().get(member.shipment as usize) {
            total = total.saturating_add(u128::from(shipment.size));
        }
    }
    total
}

// What the flow of a shipment costs over its route.
fn flow_cost(instance: &Instance, shipment: usize, route: &[u32]) -> u128 {
    let Some(shipment) = instance.shipments().get(shipment) else {
        return 0;
    };
    let size = u128::from(shipment.size);
    let mut total: u128 = 0;
    for arc in route {
        if let Some(arc) = instance.arcs().get(*arc as usize) {
            total = total.saturating_add(size.saturating_mul(u128::from(arc.freight)));
        }
    }
    total
}
