//! What routes have to do with each other, with a departure, and with a terminal at a moment.

use fp_model::{Arc, Instance};
use fp_repair_groups::{Group, GroupedLeg};

// Whether two routes share an arc.
pub(crate) fn shares_arc(route: &[GroupedLeg], other: &[GroupedLeg]) -> bool {
    for leg in route {
        for leg_of_other in other {
            if leg.arc == leg_of_other.arc {
                return true;
            }
        }
    }
    false
}

// Whether a leg of a route is in a group.
pub(crate) fn is_in(route: &[GroupedLeg], group: usize) -> bool {
    for leg in route {
        if leg.group == group {
            return true;
        }
    }
    false
}

// Whether a route has the arc with a number, or where that will do one that has its tail or its head.
pub(crate) fn has_arc(
    instance: &Instance,
    route: &[GroupedLeg],
    number: u32,
    arc: &Arc,
    nearly: bool,
) -> bool {
    for leg in route {
        if leg.arc == number {
            return true;
        }
        if nearly
            && let Some(other) = instance.arcs().get(leg.arc as usize)
            && (other.from == arc.from || other.to == arc.to)
        {
            return true;
        }
    }
    false
}

// A terminal at a moment, and whether what comes there counts beside what leaves.
#[derive(Clone, Copy)]
pub(crate) struct Passage {
    pub terminal: u32,
    pub moment: u32,
    pub comes: bool,
}

impl Passage {
    // How far from the moment a leg passes the terminal, if it does.
    pub(crate) fn distance(
        &self,
        instance: &Instance,
        groups: &[Group],
        leg: &GroupedLeg,
    ) -> Option<u32> {
        let arc = instance.arcs().get(leg.arc as usize)?;
        let early = groups.get(leg.group)?.early;
        if arc.from == self.terminal {
            return Some(early.abs_diff(self.moment));
        }
        if self.comes && arc.to == self.terminal {
            let there = early.saturating_add(arc.time);
            return Some(there.abs_diff(self.moment));
        }
        None
    }
}
