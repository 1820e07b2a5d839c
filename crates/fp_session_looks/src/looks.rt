//! Looks of several sizes.
ghost use Rattle.std.specs.Prelude.{IfOk, IfSome};
ghost use Rattle.fp_flatnet.specs.Belonging.{BelongsTo};
ghost use Rattle.fp_session_looks.specs.Plans.{IsBelow, IsIncumbent};

use crate::NoMemory;
use crate::cheaper::Cheaper;
use fp_ends::{Deadline, Resources};
use fp_flatnet::Windows;
use fp_model::{Instance, Plan};
use fp_repair_search::{Search, local_search};
use fp_timetable::cost;

/// How a look goes: how many local searches it makes, how many turns each of them, how much dearer
/// than the best a state may get at first, in parts of 1024, and whether each begins with the cheapest
/// plan so far, and not with the one that the look begins with.
#[derive(Clone, Copy, Debug, PartialEq, Eq)]
pub struct Look {
    searches: u32,
    turns: u32,
    loose: u32,
    goes_on: bool,
}

// At most so many shipments are few: states may get dearer among them.
const FEW: u32 = 100;

/// Among more shipments than so many a turn of a local search takes so long that searches have fewer, and a
/// search for prices so long that there are fewer of these.
pub const MANY: u32 = 200;

// How many shipments an instance has.
fn count(instance: &Instance) -> u32 {
    u32::try_from(instance.shipments().len()).unwrap_or(u32::MAX)
}

// A look of so many searches, of so many turns a shipment, at most so many in all among many.
fn look_of(instance: &Instance, searches: u32, each: u32, most: u32, goes_on: bool) -> Look {
    let shipments = count(instance);
    let most = if shipments > MANY {
        most
    } else {
        most.saturating_mul(2)
    };
    Look {
        searches,
        turns: shipments.saturating_mul(each).min(most),
        loose: if shipments <= FEW { 60 } else { 20 },
        goes_on,
    }
}

impl Look {
    /// A short one, at the plan that a search begins with.
    pub fn first(instance: &Instance) -> Look {
        if count(instance) > MANY {
            look_of(instance, 8, 10, 3_000, true)
        } else {
            look_of(instance, 4, 25, 1_000, true)
        }
    }

    /// Several short local searches from one plan.
    pub fn wide(instance: &Instance) -> Look {
        look_of(instance, 8, 40, 5_000, false)
    }

    /// Long ones, each from the cheapest plan so far: more of them among few shipments, where they
    /// take less time. Between few and many, where rounds raise what the root is worth by most within ten
    /// seconds, there are two.
    pub fn deep(instance: &Instance) -> Look {
        let shipments = count(instance);
        if shipments <= FEW {
            look_of(instance, 8, 250, 25_000, true)
        } else if shipments <= MANY {
            look_of(instance, 2, 250, 12_500, true)
        } else {
            look_of(instance, 4, 250, 25_000, true)
        }
    }

    /// Half as many long ones, while bounds are worked on.
    pub fn later(instance: &Instance) -> Look {
        let searches = if count(instance) > FEW { 2 } else { 4 };
        look_of(instance, searches, 250, 25_000, true)
    }

    /// At a plan that a relaxed plan gave.
    pub fn found(instance: &Instance) -> Look {
        look_of(instance, 2, 75, 5_000, true)
    }
}

/// The cheapest plan that a look finds from a plan within the windows, which costs so much, where it is
/// cheaper than that. Its draws come from the cost and from a number, so a call repeats, and draws are
/// others once a cheaper plan is in hand, and by another number. The windows belong to the instance. No
/// further local search begins once the time is over. `NoMemory` only where no memory is found.
pub fn look_from<D: Deadline>(
    resources: &Resources<D>,
    instance: &Instance,
    windows: &Windows,
    start: &Plan,
    least: u128,
    look: Look,
    draw: u32,
) -> Result<Option<Cheaper>, NoMemory>
    requires belongs { BelongsTo instance.now windows.now }
    requires start { IsIncumbent instance.now windows.now start.now least }
    ensures { IfOk result (λ found. IfSome found (IsBelow instance.now windows.now least)) }
{
    let cost_part = (least % (1 << 64)) as u64;
    let seed = cost_part.wrapping_add((u64::from(draw) + 1) << 32);
    let mut best: Option<Cheaper> = None;
    for number in 0..look.searches {
        if resources.is_over() {
            break;
        }
        let draws = Search {
            seed: seed.wrapping_add(u64::from(number)),
            turns: look.turns,
            loose: look.loose,
        };
        let from = match &best {
            Some(cheaper) if look.goes_on => &cheaper.plan,
            _ => start,
        };
        let less = match &best {
            Some(cheaper) => cheaper.cost,
            None => least,
        };
        let plan = local_search(resources, instance, windows, from, draws)?;
        let cost = cost(resources.alloc, instance, &plan)?;
        if cost < less {
            best = Some(Cheaper { plan, cost });
        }
    }
    Ok(best)
}
