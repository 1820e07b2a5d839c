//! What walks make of the classes of a network: their loads, what is paid for them, and how many
//! legs are still to be forced.
ghost use Rattle.std.specs.Prelude.{◌≡◌, ◌<◌, IfOk, IfSome, length};
ghost use Rattle.fp_longestarcs.specs.Networks.{class_count};
ghost use Rattle.fp_longestarcs.specs.Whole.{IsWholeNetwork};

use crate::NoMemory;
use fp_longestarcs::{Network, Stop, TimedWalk};
use fp_model::Instance;
use fp_prices::LeafPricing;
use std::alloc::Global;

/// What walks make of a class.
#[derive(Clone, Copy)]
pub(crate) struct ClassUse {
    /// The sizes in all of the shipments that go by it.
    pub(crate) load: u128,
    /// What these pay for its trucks.
    pub(crate) paid: u128,
    /// How many of their legs up to this class aren't forced yet.
    pub(crate) open: u128,
}

/// The number of a class, where it is one of the network.
pub(crate) fn class_of(instance: &Instance, network: &Network, stop: Stop) -> Option<u32>
    requires whole { IsWholeNetwork instance.now network.now }
    ensures { IfSome result (λ class. class < class_count network.now) }
{
    if stop.arc as usize >= instance.arcs().len() {
        return None;
    }
    if !network.is_point(instance.arc(stop.arc).from, stop.point) {
        return None;
    }
    Some(network.class(stop.arc, stop.point))
}

/// How many legs of a walk up to a place are past a chain of so many classes.
pub(crate) fn legs_past(place: usize, chain: usize) -> u128 {
    (place as u128 + 1).saturating_sub(chain as u128)
}

// Adds a shipment's walk, whose forced chain has so many classes.
fn add_walk(
    uses: &mut [ClassUse],
    pricing: &LeafPricing,
    shipment: u32,
    chain: usize,
    walk: &TimedWalk,
)
    requires { shipment < length pricing.now.leaf.setting.problem.shipments }
{
    let round = pricing.leaf().round();
    let size = u128::from(round.instance().shipment(shipment).size);
    for (place, stop) in walk.stops.iter().enumerate() {
        let Some(class) = class_of(round.instance(), round.network(), *stop) else {
            continue;
        };
        let price = pricing.price(shipment, class).unwrap_or(0);
        if let Some(of_class) = uses.get_mut(class as usize) {
            of_class.load = of_class.load.saturating_add(size);
            of_class.paid = of_class.paid.saturating_add(price);
            of_class.open = of_class.open.saturating_add(legs_past(place, chain));
        }
    }
}

/// The uses of all classes, by their numbers, where the forced chain of each shipment has so many
/// classes. Any walks may be handed in. `NoMemory` only where no memory is found.
pub(crate) fn class_uses(
    alloc: Global,
    pricing: &LeafPricing,
    chains: &[usize],
    walks: &[TimedWalk],
) -> Result<Vec<ClassUse>, NoMemory> {
    let round = pricing.leaf().round();
    let none = ClassUse {
        load: 0,
        paid: 0,
        open: 0,
    };
    let mut uses = vec![in alloc; none; round.network().classes() as usize]?;
    for shipment in 0..round.instance().shipments().len() as u32 {
        let place = shipment as usize;
        if let (Some(chain), Some(walk)) = (chains.get(place), walks.get(place)) {
            add_walk(&mut uses, pricing, shipment, *chain, walk);
        }
    }
    Ok(uses)
}
