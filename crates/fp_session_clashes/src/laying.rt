//! The same walks over a finer network.
ghost use Rattle.std.specs.Prelude.{IfOk, IfSome};
ghost use Rattle.fp_longestarcs.specs.Whole.{IsWholeNetwork};
ghost use Rattle.fp_duals_walks.specs.AllowedWalks.{AreAllowedWalks};

use crate::NoMemory;
use crate::walk_legs::{WalkLeg, WalkLegs};
use fp_duals_walks::are_allowed_walks;
use fp_longestarcs::{Network, Stop, TimedWalk};
use fp_model::Instance;
use fp_prices::Leaf;
use std::alloc::Global;

// After so many passes legs that went together go as they then do.
const MOST_PASSES: u32 = 30;

// Where the legs of walks leave in a network.
#[derive(Drop)]
struct Laying<'a> {
    legs: &'a WalkLegs,
    // For each leg its point.
    points: Vec<u32>,
    // For each class by which walks went the point from which on its legs leave, so that they go together.
    levels: Vec<u32>,
    // For each shipment whether its legs leave for themselves, since it can't go together with others.
    alone: Vec<bool>,
}

// The least of some points from a time on at which a leg has a moment in its window.
fn least_point(points: &[u32], leg: &WalkLeg, from: u32) -> Option<u32> {
    for (place, point) in points.iter().enumerate() {
        let begins = points
            .get(place.wrapping_add(1))
            .is_none_or(|next| *next > leg.first);
        if *point >= from && begins {
            return if *point <= leg.last {
                Some(*point)
            } else {
                None
            };
        }
    }
    None
}

impl<'a> Laying<'a> {
    // At the points where the walks were.
    fn of(alloc: Global, legs: &'a WalkLegs) -> Result<Laying<'a>, NoMemory> {
        let mut points = Vec::with_capacity(alloc, legs.list.len())?;
        let mut levels = vec![in alloc; 0; legs.groups.len()]?;
        for leg in &legs.list {
            points.push(leg.stop.point)?;
            if let Some(level) = levels.get_mut(leg.group) {
                *level = leg.stop.point;
            }
        }
        Ok(Laying {
            legs,
            points,
            levels,
            alone: vec![in alloc; false; legs.firsts.len()]?,
        })
    }

    // Lays a leg at the least point that it may have, where its shipment is ready. When the shipment is
    // ready again; `None` where the leg can't be laid.
    fn lay_leg(
        &mut self,
        instance: &Instance,
        network: &Network,
        number: usize,
        leg: &WalkLeg,
        ready: u32,
    ) -> Option<u32>
        requires { IsWholeNetwork instance.now network.now }
    {
        if (leg.stop.arc as usize) >= instance.arcs().len() {
            return None;
        }
        let arc = instance.arc(leg.stop.arc);
        let alone = self
            .alone
            .get(leg.shipment as usize)
            .copied()
            .unwrap_or(true);
        let level = if alone {
            leg.stop.point
        } else {
            self.levels.get(leg.group).copied().unwrap_or(0)
        };
        let points = network.points(arc.from);
        let Some(point) = least_point(points, leg, ready.max(level)) else {
            return None;
        };
        if let Some(place) = self.points.get_mut(number) {
            *place = point;
        }
        Some(network.floor(arc.to, point.saturating_add(leg.step)))
    }

    // Lays the walk whose first leg has the number. Whether it can be laid.
    fn lay_walk(&mut self, instance: &Instance, network: &Network, first: usize) -> bool
        requires { IsWholeNetwork instance.now network.now }
    {
        let legs = self.legs;
        let mut ready = 0;
        for number in first..legs.list.len() {
            let Some(leg) = legs.list.get(number) else {
                return false;
            };
            match self.lay_leg(instance, network, number, leg, ready) {
                Some(next) => ready = next,
                None => return false,
            }
            if !leg.goes_on {
                return true;
            }
        }
        true
    }
}

impl<'a> Laying<'a> {
    // Raises the levels of the classes by which a shipment went to its points. Whether one rises.
    fn raise_levels(&mut self, first: usize) -> bool {
        let legs = self.legs;
        let mut rises = false;
        for number in first..legs.list.len() {
            if let Some(leg) = legs.list.get(number)
                && let Some(point) = self.points.get(number)
                && let Some(level) = self.levels.get_mut(leg.group)
                && *level < *point
            {
                *level = *point;
                rises = true;
            }
            if legs.list.get(number).is_none_or(|leg| !leg.goes_on) {
                break;
            }
        }
        rises
    }

    // Lays the walk of a shipment, together with those with which it went, or else alone. Whether
    // others have to follow; `None` where it can't be laid.
    fn lay_shipment(
        &mut self,
        instance: &Instance,
        network: &Network,
        shipment: usize,
        first: usize,
    ) -> Option<bool>
        requires { IsWholeNetwork instance.now network.now }
    {
        if self.alone.get(shipment).copied().unwrap_or(true) {
            return if self.lay_walk(instance, network, first) {
                Some(false)
            } else {
                None
            };
        }
        if self.lay_walk(instance, network, first) {
            return Some(self.raise_levels(first));
        }
        if let Some(alone) = self.alone.get_mut(shipment) {
            *alone = true;
        }
        if self.lay_walk(instance, network, first) {
            Some(false)
        } else {
            None
        }
    }

    // Lays all walks once. Whether others have to follow; `None` where one can't be laid.
    fn pass(&mut self, instance: &Instance, network: &Network) -> Option<bool>
        requires { IsWholeNetwork instance.now network.now }
    {
        let legs = self.legs;
        let mut rises = false;
        for (shipment, first) in legs.firsts.iter().enumerate() {
            match self.lay_shipment(instance, network, shipment, *first) {
                Some(more) => rises = rises || more,
                None => return None,
            }
        }
        Some(rises)
    }

    // Lays all walks until none has to follow others. Whether they can be laid.
    fn lay_all(&mut self, instance: &Instance, network: &Network) -> bool
        requires { IsWholeNetwork instance.now network.now }
    {
        for _ in 0..MOST_PASSES {
            match self.pass(instance, network) {
                Some(true) => {}
                Some(false) => return true,
                None => return false,
            }
        }
        true
    }

    // The walks.
    fn walks(&self, alloc: Global) -> Result<Vec<TimedWalk>, NoMemory> {
        let mut walks = Vec::with_capacity(alloc, self.legs.firsts.len())?;
        let mut stops = Vec::new(alloc);
        for (leg, point) in self.legs.list.iter().zip(self.points.iter()) {
            stops.push(Stop {
                arc: leg.stop.arc,
                point: *point,
            })?;
            if !leg.goes_on {
                walks.push(TimedWalk { stops })?;
                stops = Vec::new(alloc);
            }
        }
        Ok(walks)
    }
}

/// Walks of all shipments by the same arcs over the network of a leaf, which has more points than the one
/// over which they went: each leg at the least allowed point that isn't before its own, and legs of one
/// class still together, as far as they can.
///
/// Any lists may be handed in. What is given are allowed timed walks; `None` where no such walks are
/// found, which isn't promised to be seldom. `NoMemory` only where no memory is found.
pub fn laid_walks(
    alloc: Global,
    leaf: &Leaf,
    walks: &[TimedWalk],
) -> Result<Option<Vec<TimedWalk>>, NoMemory>
    ensures { IfOk result (λ found. IfSome found (λ walks. AreAllowedWalks leaf.now walks.items)) }
{
    let round = leaf.round();
    let (instance, network) = (round.instance(), round.network());
    let Some(legs) = WalkLegs::of(alloc, instance, leaf.windows(), walks)? else {
        return Ok(None);
    };
    let mut laying = Laying::of(alloc, &legs)?;
    if !laying.lay_all(instance, network) {
        return Ok(None);
    }
    let walks = laying.walks(alloc)?;
    if are_allowed_walks(leaf, &walks) {
        Ok(Some(walks))
    } else {
        Ok(None)
    }
}
