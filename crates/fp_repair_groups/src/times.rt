//! The least and the greatest times of groups.

use crate::groups::{Group, GroupedLeg};

// What a pass over the routes did to the times.
#[derive(Clone, Copy, PartialEq, Eq)]
enum Pass {
    Settled,
    Changed,
    Clash,
}

// Gives each group the times of its legs' windows.
pub(crate) fn reset(routes: &[Vec<GroupedLeg>], groups: &mut [Group]) {
    for group in groups.iter_mut() {
        group.early = 0;
        group.late = u32::MAX;
    }
    for route in routes {
        narrow_route(route, groups);
    }
}

// Narrows the groups of a route's legs to the legs' windows.
fn narrow_route(route: &[GroupedLeg], groups: &mut [Group]) {
    for leg in route {
        if let Some(group) = groups.get_mut(leg.group) {
            group.narrow(leg.lo, leg.hi);
        }
    }
}

// Raises the least times along a route.
fn raise_route(route: &[GroupedLeg], groups: &mut [Group]) -> Pass {
    let mut pass = Pass::Settled;
    let mut ready = 0;
    for leg in route {
        if let Some(group) = groups.get_mut(leg.group) {
            if group.early < ready {
                group.early = ready;
                pass = Pass::Changed;
            }
            if group.early > group.late {
                return Pass::Clash;
            }
            ready = group.early.saturating_add(leg.step);
        }
    }
    pass
}

// Raises the least times along each route once.
fn raise_once(routes: &[Vec<GroupedLeg>], groups: &mut [Group]) -> Pass {
    let mut pass = Pass::Settled;
    for route in routes {
        match raise_route(route, groups) {
            Pass::Settled => {}
            Pass::Changed => pass = Pass::Changed,
            Pass::Clash => return Pass::Clash,
        }
    }
    pass
}

// Raises the least times until each leg can follow the one before it. Answers whether no group's
// least time passes its greatest.
pub(crate) fn raise(routes: &[Vec<GroupedLeg>], groups: &mut [Group]) -> bool {
    for _ in 0..u32::MAX {
        match raise_once(routes, groups) {
            Pass::Settled => return true,
            Pass::Changed => {}
            Pass::Clash => return false,
        }
    }
    false
}

// Lowers the greatest times along a route, from its end. Answers whether one changed.
fn lower_route(route: &[GroupedLeg], groups: &mut [Group]) -> bool {
    let mut changed = false;
    let mut next = u32::MAX;
    for leg in route.iter().rev() {
        if let Some(group) = groups.get_mut(leg.group) {
            let latest = next.saturating_sub(leg.step);
            if group.late > latest {
                group.late = latest;
                changed = true;
            }
            next = group.late;
        }
    }
    changed
}

// Lowers the greatest times along each route once. Answers whether one changed.
fn lower_once(routes: &[Vec<GroupedLeg>], groups: &mut [Group]) -> bool {
    let mut changed = false;
    for route in routes {
        if lower_route(route, groups) {
            changed = true;
        }
    }
    changed
}

// Lowers the greatest times until each leg leaves room for the one after it.
pub(crate) fn lower(routes: &[Vec<GroupedLeg>], groups: &mut [Group]) {
    for _ in 0..u32::MAX {
        if !lower_once(routes, groups) {
            return;
        }
    }
}
