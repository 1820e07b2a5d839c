//! Whether a walk returns to a terminal.
ghost use Rattle.std.specs.Prelude.{◌≡◌, ◌≢◌, ◌↔◌, ◌<◌, ◌∷◌, IsTrue, length};
ghost use Rattle.fp_model.specs.declared.parts.Shipment.{Shipment};
ghost use Rattle.fp_model.specs.Routes.{ArcsExist, IsRoute, Leads, arcs_of, ends_of};
ghost use Rattle.fp_base_lists.specs.Distinct.{AreDistinct};
ghost use Rattle.fp_longestarcs.specs.Stops.{legs_of};
ghost use Rattle.fp_relaxmodel.specs.Terminals.{terminals_on};

use fp_longestarcs::{Stop, TimedWalk};
use fp_model::Instance;
use fp_model::limits::MOST_TERMINALS;

// Whether no terminal stands twice among the tail and those that the classes enter.
fn are_apart(instance: &Instance, tail: u32, stops: &[Stop]) -> bool
    requires tail { tail < length instance.now.terminals }
    requires arcs { ArcsExist instance.now (legs_of stops.now) }
    ensures { IsTrue result ↔ AreDistinct (tail ∷ ends_of instance.now (arcs_of (legs_of stops.now))) }
{
    // An instance that was read is known to be valid, so it has no more terminals.
    let _known = instance.terminals();
    let mut met = [false; MOST_TERMINALS];
    met[tail as usize] = true;
    for stop in stops {
        let entered = instance.arc(stop.arc).to as usize;
        if met[entered] {
            return false;
        }
        met[entered] = true;
    }
    true
}

// Whether no terminal stands twice on the walk of these classes.
fn goes_once(instance: &Instance, stops: &[Stop]) -> bool
    requires { ArcsExist instance.now (legs_of stops.now) }
    ensures { IsTrue result ↔ AreDistinct (terminals_on instance.now (legs_of stops.now)) }
{
    match stops.first() {
        Some(first) => are_apart(instance, instance.arc(first.arc).from, stops),
        None => true,
    }
}

/// Whether no terminal stands twice on a walk whose arcs exist. Of a walk whose arcs lead from a
/// shipment's origin to its destination, another terminal, it's whether they are a route of the
/// shipment.
///
/// Takes no memory, and time that grows with the classes.
pub fn is_route(instance: &Instance, walk: &TimedWalk) -> bool
    requires { ArcsExist instance.now walk.now }
    ensures apart { IsTrue result ↔ AreDistinct (terminals_on instance.now walk.now) }
    ensures route { (s : Shipment) → s.from ≢ s.to →
        Leads instance.now s.from (arcs_of walk.now) s.to →
        (IsTrue result ↔ IsRoute instance.now s (arcs_of walk.now)) }
{
    goes_once(instance, &walk.stops)
}
