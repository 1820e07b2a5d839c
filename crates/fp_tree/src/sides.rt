//! Splits of a branch-and-bound search, and the sides that they leave.
ghost use Rattle.std.specs.Prelude.{◌≡◌, IfOk};
ghost use Rattle.fp_tree.specs.Sides.{first_of_split, second_of_split, way_of as way_by, ways_of as ways_by};

use crate::NoMemory;
use std::alloc::Global;

/// What divides the plans of a search in two. Shipments, arcs and terminals go by their numbers.
///
/// Since a route leaves a terminal at most once, each plan meets one of the two sides of a split by
/// an arc or by a time; and since it enters one at most once, of one by a way. It has so many trucks by
/// an arc in a run of times, or more.
#[derive(Clone, Copy, PartialEq, Eq, Debug)]
pub enum Split {
    /// By whether the shipment uses the arc.
    ByArc {
        shipment: u32,
        arc: u32,
    },
    /// By whether the shipment leaves the terminal before `at`, a time in the input's unit.
    ByTime {
        shipment: u32,
        terminal: u32,
        at: u32,
    },
    /// By whether at most so many trucks leave by the arc at `point` or later and before `until`.
    ByTrucks {
        arc: u32,
        point: u32,
        until: u32,
        most: u32,
    },
    /// By whether the shipment goes by the arc, like `ByArc`; where it does, it goes by no other one that
    /// leaves the same terminal or enters the same one.
    ByWay {
        shipment: u32,
        arc: u32,
    },
}

/// What one side of a split asks of the legs of a shipment, where the other shipments are free, or
/// of the trucks that leave by an arc. `Outside` is no split's: it bars departures that a search has
/// ruled out.
#[derive(Clone, Copy, PartialEq, Eq, Debug)]
pub enum Side {
    /// No leg goes by the arc.
    Without {
        shipment: u32,
        arc: u32,
    },
    /// A leg that leaves the terminal `tail` goes by the arc. The shipment need not come there.
    Only {
        shipment: u32,
        arc: u32,
        tail: u32,
    },
    /// A leg that leaves the terminal leaves it before `at`.
    Before {
        shipment: u32,
        terminal: u32,
        at: u32,
    },
    /// A leg that leaves the terminal leaves it at `at` or later.
    From {
        shipment: u32,
        terminal: u32,
        at: u32,
    },
    /// At most so many trucks leave by the arc at `point` or later and before `until`. At most 0
    /// forbids each shipment to leave so.
    AtMost {
        arc: u32,
        point: u32,
        until: u32,
        trucks: u32,
    },
    /// More than so many trucks leave by the arc at `point` or later and before `until`. It asks
    /// nothing of a single leg.
    MoreThan {
        arc: u32,
        point: u32,
        until: u32,
        trucks: u32,
    },
    /// A leg goes by the arc, and so none by a rival of it: by another arc that leaves the same terminal, or
    /// enters the same one.
    Through {
        shipment: u32,
        arc: u32,
    },
    /// No leg leaves by the arc at `point` or later and before `until`, times in the input's unit. No
    /// split makes this side.
    Outside {
        shipment: u32,
        arc: u32,
        point: u32,
        until: u32,
    },
}

impl Split {
    /// The first side: `Without` of a split by an arc or by a way, `Before` of one by a time, `AtMost` of
    /// one by trucks.
    pub fn first(self) -> Side
        ensures { result ≡ first_of_split self }
    {
        match self {
            Split::ByArc { shipment, arc } => Side::Without { shipment, arc },
            Split::ByTime {
                shipment,
                terminal,
                at,
            } => Side::Before {
                shipment,
                terminal,
                at,
            },
            Split::ByTrucks {
                arc,
                point,
                until,
                most,
            } => Side::AtMost {
                arc,
                point,
                until,
                trucks: most,
            },
            Split::ByWay { shipment, arc } => Side::Without { shipment, arc },
        }
    }

    /// The second side: `Only` of a split by an arc, `From` of one by a time, `MoreThan` of one by
    /// trucks, `Through` of one by a way.
    ///
    /// `tail` is the terminal that the arc leaves. Only a split by an arc reads it.
    pub fn second(self, tail: u32) -> Side
        ensures { result ≡ second_of_split self tail }
    {
        match self {
            Split::ByArc { shipment, arc } => Side::Only {
                shipment,
                arc,
                tail,
            },
            Split::ByTime {
                shipment,
                terminal,
                at,
            } => Side::From {
                shipment,
                terminal,
                at,
            },
            Split::ByTrucks {
                arc,
                point,
                until,
                most,
            } => Side::MoreThan {
                arc,
                point,
                until,
                trucks: most,
            },
            Split::ByWay { shipment, arc } => Side::Through { shipment, arc },
        }
    }
}

// The arc that a side asks a shipment to go by, if it asks it for one.
fn way_of(side: Side, shipment: u32) -> Option<u32>
    ensures { result ≡ way_by shipment side }
{
    match side {
        Side::Through {
            shipment: asked,
            arc,
        } if asked == shipment => Some(arc),
        _ => None,
    }
}

/// The arcs that sides ask a shipment to go by, in the order of the sides. `NoMemory` only where no memory
/// is found.
pub fn ways_of(alloc: Global, sides: &[Side], shipment: u32) -> Result<Vec<u32>, NoMemory>
    ensures { IfOk result (λ ways. ways.items ≡ ways_by shipment sides.now) }
{
    let mut ways = Vec::new(alloc);
    for side in sides {
        if let Some(arc) = way_of(*side, shipment) {
            ways.push(arc)?;
        }
    }
    Ok(ways)
}
