//! The legs of walks in one list, and which of them go by one class.
ghost use Rattle.fp_flatnet.specs.Belonging.{FitsInstance};

use crate::NoMemory;
use fp_flatnet::Windows;
use fp_longestarcs::{Stop, TimedWalk};
use fp_model::Instance;
use std::alloc::Global;

/// A leg of a walk.
#[derive(Clone, Copy)]
pub(crate) struct WalkLeg {
    pub shipment: u32,
    pub stop: Stop,
    /// How long after it left the shipment can leave again.
    pub step: u32,
    /// When it may leave at first and at last.
    pub first: u32,
    pub last: u32,
    /// Whether its walk goes on.
    pub goes_on: bool,
    /// The number of the group of all legs of its class.
    pub group: usize,
}

/// The legs of walks, by the shipment and then the leg.
#[derive(Drop)]
pub(crate) struct WalkLegs {
    pub list: Vec<WalkLeg>,
    /// For each walk the number of its first leg.
    pub firsts: Vec<usize>,
    /// For each class by which a walk goes the numbers of its legs.
    pub groups: Vec<Vec<usize>>,
}

// A leg of a shipment by a class, in no group yet; one without a window may leave at no time.
fn leg_of(
    instance: &Instance,
    windows: &Windows,
    shipment: u32,
    stop: Stop,
    goes_on: bool,
) -> Option<WalkLeg>
    requires { FitsInstance instance.now windows.now }
{
    let known = (shipment as usize) < instance.shipments().len()
        && (stop.arc as usize) < instance.arcs().len();
    if !known {
        return None;
    }
    let Some((first, last)) = windows.window(shipment, stop.arc) else {
        return None;
    };
    Some(WalkLeg {
        shipment,
        stop,
        step: instance.step(stop.arc),
        first,
        last,
        goes_on,
        group: 0,
    })
}

impl WalkLegs {
    // Adds the legs of a walk. Whether each has a window.
    fn add_walk(
        &mut self,
        instance: &Instance,
        windows: &Windows,
        shipment: u32,
        stops: &[Stop],
    ) -> Result<bool, NoMemory>
        requires { FitsInstance instance.now windows.now }
    {
        self.firsts.push(self.list.len())?;
        let mut left = stops.len();
        for stop in stops {
            left = left.saturating_sub(1);
            match leg_of(instance, windows, shipment, *stop, left > 0) {
                Some(leg) => {
                    self.list.push(leg)?;
                }
                None => return Ok(false),
            }
        }
        Ok(true)
    }

    // Puts a leg into the newest group, or a new one where it goes by another class than the leg before
    // it in the order.
    fn join_group(
        &mut self,
        alloc: Global,
        before: Option<Stop>,
        number: usize,
    ) -> Result<(), NoMemory> {
        let Some(leg) = self.list.get_mut(number) else {
            return Ok(());
        };
        if before != Some(leg.stop) {
            self.groups.push(Vec::new(alloc))?;
        }
        leg.group = self.groups.len().saturating_sub(1);
        if let Some(group) = self.groups.last_mut() {
            group.push(number)?;
        }
        Ok(())
    }

    // Puts each leg into its group.
    fn group_all(&mut self, alloc: Global) -> Result<(), NoMemory> {
        let mut order: Vec<(u32, u32, usize)> = Vec::with_capacity(alloc, self.list.len())?;
        for (number, leg) in self.list.iter().enumerate() {
            order.push((leg.stop.arc, leg.stop.point, number))?;
        }
        order.sort_unstable();
        let mut before = None;
        for (arc, point, number) in &order {
            self.join_group(alloc, before, *number)?;
            before = Some(Stop {
                arc: *arc,
                point: *point,
            });
        }
        Ok(())
    }

    /// The legs of walks, by the numbers of the shipments; `None` where one has no window. The windows
    /// fit the instance. `NoMemory` only where no memory is found.
    pub(crate) fn of(
        alloc: Global,
        instance: &Instance,
        windows: &Windows,
        walks: &[TimedWalk],
    ) -> Result<Option<WalkLegs>, NoMemory>
        requires { FitsInstance instance.now windows.now }
    {
        let mut legs = WalkLegs {
            list: Vec::new(alloc),
            firsts: Vec::new(alloc),
            groups: Vec::new(alloc),
        };
        for (number, walk) in walks.iter().enumerate() {
            let Ok(shipment) = u32::try_from(number) else {
                return Ok(None);
            };
            if !legs.add_walk(instance, windows, shipment, &walk.stops)? {
                return Ok(None);
            }
        }
        legs.group_all(alloc)?;
        Ok(Some(legs))
    }
}
