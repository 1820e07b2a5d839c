//! Where walks lose bound: they return to a terminal, or cost more in trucks than is paid for them.
ghost use Rattle.std.specs.Prelude.{◌<◌, length};
ghost use Rattle.fp_longestarcs.specs.Networks.{class_count};

use crate::class_uses::{ClassUse, class_of, legs_past};
use crate::ranks::Loss;
use fp_longestarcs::{Stop, TimedWalk};
use fp_model::{Arc, Instance};
use fp_prices::LeafPricing;

// What the trucks of an arc cost that a load needs, in parts of a unit of money.
fn trucks_cost(scale: u32, arc: Arc, load: u128) -> u128 {
    let capacity = u128::from(arc.capacity).max(1);
    let trucks = load.div_ceil(capacity);
    u128::from(scale)
        .saturating_mul(u128::from(arc.truck))
        .saturating_mul(trucks)
}

// How much the trucks of a class cost more than is paid for them: its base where it is forced, and
// otherwise what those pay who go by it.
fn gap(pricing: &LeafPricing, class: u32, of_class: &ClassUse) -> u128
    requires { class < class_count pricing.now.leaf.setting.network }
{
    let round = pricing.leaf().round();
    let arc = round.instance().arc(round.network().of_class(class).0);
    let scale = round.instance().scale();
    let paid = match pricing.forced_load(class) {
        Some(load) => trucks_cost(scale, arc, load),
        None => of_class.paid,
    };
    trucks_cost(scale, arc, of_class.load).saturating_sub(paid)
}

// The greatest gap of a class on a walk past a chain of so many classes, for each leg that is still
// to be forced until all forced chains of those who go by it have the class.
fn greatest_gap(pricing: &LeafPricing, uses: &[ClassUse], chain: usize, walk: &TimedWalk) -> u128 {
    let round = pricing.leaf().round();
    let mut greatest = 0;
    for (place, stop) in walk.stops.iter().enumerate() {
        let Some(class) = class_of(round.instance(), round.network(), *stop) else {
            continue;
        };
        if let Some(of_class) = uses.get(class as usize) {
            if legs_past(place, chain) > 0 && of_class.open > 0 {
                greatest = greatest.max(gap(pricing, class, of_class) / of_class.open);
            }
        }
    }
    greatest
}

// The terminal that an arc leaves, and that at which it ends; `None` where there's no such arc.
fn ends_of(instance: &Instance, arc: u32) -> Option<(u32, u32)> {
    if arc as usize >= instance.arcs().len() {
        return None;
    }
    let arc = instance.arc(arc);
    Some((arc.from, arc.to))
}

// Whether the arc of one of these classes leaves a terminal.
fn is_left_by(instance: &Instance, stops: &[Stop], terminal: u32) -> bool {
    for stop in stops {
        if let Some((from, _)) = ends_of(instance, stop.arc) {
            if from == terminal {
                return true;
            }
        }
    }
    false
}

// Whether some leg of a walk ends at a terminal that the walk left by that leg or before.
fn returns(instance: &Instance, walk: &TimedWalk) -> bool {
    for (place, stop) in walk.stops.iter().enumerate() {
        if let Some((_, to)) = ends_of(instance, stop.arc) {
            if is_left_by(instance, &walk.stops[..place], to) {
                return true;
            }
        }
    }
    false
}

/// The loss on a walk past a chain of so many classes. Any walk may be handed in.
pub(crate) fn loss_on(
    pricing: &LeafPricing,
    uses: &[ClassUse],
    chain: usize,
    walk: &TimedWalk,
) -> Loss {
    Loss {
        returns: returns(pricing.leaf().round().instance(), walk),
        gap: greatest_gap(pricing, uses, chain, walk),
    }
}
