//! What is left of a day that is under way, and a plan of it.
ghost use Rattle.std.specs.Prelude.{ℕ, ◌≡◌, ◌≤◌, length, IfOk};
ghost use Rattle.fp_replan.specs.declared.kept.TheConstants.{MOST_KEPT};
ghost use Rattle.fp_replan_present.specs.Days.{AreTracked};
ghost use Rattle.fp_replan_present.specs.Parts.{IsLeft};

use crate::NoMemory;
use crate::parts::{Found, parts_of};
use crate::presents::Present;
use crate::promised_legs::kept_left;
use crate::rests::{Left, Rest};
use fp_model::{Instance, Plan, routes_cost};
use fp_replan::{MOST_KEPT, with_shipments};
use std::alloc::Global;

/// What is left of a day, as an instance of its own, with a plan; or `Stuck` exactly where no plan is
/// under way, in any fraction of the unit of time.
///
/// Tracked legs are settled up to and with the last of their shipment that has left before the present
/// or whose arrival is told; the others are promised. A shipment can go on when the hold after its
/// last settled leg is over, and not before the present. In the plan it leaves as early as it can, by
/// its promised legs and then by the arcs of least number with which walks of least time begin that
/// avoid the terminals where it was. `NoMemory` only where no memory is found.
pub fn left(alloc: Global, instance: &Instance, present: &Present) -> Result<Left, NoMemory>
    requires tracked { AreTracked instance.now present.now }
    requires few { length present.now.legs ≤ MOST_KEPT }
    ensures { IfOk result (IsLeft instance.now present.now) }
{
    // Brings the instance's validity into the proof: so what is left of it is an instance.
    let _known = instance.arcs();
    match parts_of(alloc, instance, present)? {
        Found::Stuck { shipment } => Ok(Left::Stuck { shipment }),
        Found::All { parts } => {
            let kept = kept_left(alloc, present, &parts.numbers)?;
            let sunk = routes_cost(instance, &parts.settled);
            let rest = Rest {
                instance: with_shipments(alloc, instance, parts.shipments)?,
                kept,
                numbers: parts.numbers,
                settled: Plan {
                    routes: parts.settled,
                },
                sunk,
                gone: parts.gone,
            };
            Ok(Left::Open {
                rest,
                start: Plan {
                    routes: parts.routes,
                },
            })
        }
    }
}
