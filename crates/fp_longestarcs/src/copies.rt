//! A new point in a network: its outgoing copies, and the heads that are lifted to it.
ghost use Rattle.std.specs.Prelude.{◌≡◌, ◌+◌, ◌<◌, ◌≤◌, All, OnErr, OnOk, false, length};
ghost use Rattle.fp_base_lists.specs.Membership.{list_has};
ghost use Rattle.fp_longestarcs.specs.Networks.{IsNetwork, TimedNetwork, points_in};
ghost use Rattle.fp_longestarcs.specs.Vectors.{HasRoom, network_of, IsIndexedNetwork};
ghost use Rattle.fp_base_lists.specs.Vectors.{lists_of};
ghost use Rattle.fp_longestarcs.specs.Changes.{lifted, refined, restored};

use crate::NoMemory;
use crate::ascending::floor_among;
use crate::listing::count_classes;
use crate::lists::{list_at, put};
use fp_base_lists::place_among;
use fp_model::Instance;
use fp_model::limits::LONGEST_STEP;
use fp_timenodes::{LATEST, Place};

// Makes room for one more point of the terminal, and for one more copy of each arc that leaves it.
fn make_room(
    tails: &[u32],
    points: &mut [Vec<u32>],
    heads: &mut [Vec<u32>],
    terminal: u32,
) -> Result<(), NoMemory>
    requires terminal { terminal < length points.old }
    requires arcs { length tails.now ≡ length heads.old }
    ensures points { lists_of points.new ≡ lists_of points.old }
    ensures heads { lists_of heads.new ≡ lists_of heads.old }
    ensures room { OnOk result (HasRoom tails.now terminal points.new heads.new) }
{
    points[terminal as usize].reserve(1)?;
    for (arc, tail) in tails.iter().enumerate() {
        if *tail == terminal {
            heads[arc].reserve(1)?;
        }
    }
    Ok(())
}

// Gives each arc that leaves the new point's terminal a copy from that point, at its place and with
// its greatest head.
fn insert_copies(
    instance: &Instance,
    tails: &[u32],
    points: &[Vec<u32>],
    heads: &mut [Vec<u32>],
    new: Place,
)
    requires valid { IsNetwork (network_of tails.now points.now heads.old) }
    requires arcs { length tails.now ≡ length instance.now.arcs }
    requires terminals { length points.now ≡ length instance.now.terminals }
    requires terminal { new.terminal < length points.now }
    requires in_time { new.at ≤ LATEST }
    requires room { HasRoom tails.now new.terminal points.now heads.old }
    ensures { lists_of heads.new ≡ (refined instance.now (network_of tails.now points.now heads.old) new.terminal new.at).heads }
{
    let place = place_among(list_at(points, new.terminal), new.at);
    for (arc, tail) in tails.iter().enumerate() {
        if *tail == new.terminal {
            let ends = list_at(points, instance.arc(arc as u32).to);
            let head = floor_among(ends, new.at + instance.step(arc as u32));
            put(&mut heads[arc], place, head);
        }
    }
}

// Inserts a point for which there is room, with its outgoing copies at their greatest heads.
fn insert_point(
    instance: &Instance,
    tails: &[u32],
    points: &mut [Vec<u32>],
    heads: &mut [Vec<u32>],
    new: Place,
)
    requires valid { IsNetwork (network_of tails.now points.old heads.old) }
    requires arcs { length tails.now ≡ length instance.now.arcs }
    requires terminals { length points.old ≡ length instance.now.terminals }
    requires terminal { new.terminal < length points.old }
    requires in_time { new.at ≤ LATEST }
    requires room { HasRoom tails.now new.terminal points.old heads.old }
    ensures { network_of tails.now points.new heads.new ≡ refined instance.now (network_of tails.now points.old heads.old) new.terminal new.at }
{
    insert_copies(instance, tails, points, heads, new);
    let place = place_among(list_at(points, new.terminal), new.at);
    put(&mut points[new.terminal as usize], place, new.at);
}

// Adds a new point with its outgoing copies at their greatest heads. `NoMemory` only where no
// memory is found: then nothing changes.
pub(crate) fn add_point(
    instance: &Instance,
    tails: &[u32],
    points: &mut [Vec<u32>],
    heads: &mut [Vec<u32>],
    offsets: &mut [u32],
    new: Place,
) -> Result<(), NoMemory>
    requires indexed { IsIndexedNetwork (network_of tails.now points.old heads.old) offsets.old }
    requires arcs { length tails.now ≡ length instance.now.arcs }
    requires terminals { length points.old ≡ length instance.now.terminals }
    requires terminal { new.terminal < length points.old }
    requires new { list_has (points_in (network_of tails.now points.old heads.old) new.terminal) new.at ≡ false }
    requires in_time { new.at ≤ LATEST }
    ensures ok { OnOk result (network_of tails.now points.new heads.new ≡ refined instance.now (network_of tails.now points.old heads.old) new.terminal new.at) }
    ensures indexed { IsIndexedNetwork (network_of tails.now points.new heads.new) offsets.new }
    ensures err { OnErr result (network_of tails.now points.new heads.new ≡ network_of tails.now points.old heads.old) }
{
    // Room first, so that nothing has changed where no memory is found.
    make_room(tails, points, heads, new.terminal)?;
    insert_point(instance, tails, points, heads, new);
    count_classes(offsets, tails, points);
    Ok(())
}

// Moves each head that lies before the time to the time, where its copy can reach it.
fn lift_heads(points: &[u32], heads: &mut [u32], step: u32, at: u32)
    requires copies { length heads.old ≡ length points.now }
    requires points { All (λ q. q ≤ LATEST) points.now }
    requires step { step ≤ LONGEST_STEP }
    ensures { heads.new ≡ lifted step at points.now heads.old }
{
    for (copy, point) in points.iter().enumerate() {
        if heads[copy] < at && *point + step >= at {
            heads[copy] = at;
        }
    }
}

// Does so with the copies of each arc that enters the point's terminal.
pub(crate) fn lift_copies(
    instance: &Instance,
    tails: &[u32],
    points: &[Vec<u32>],
    heads: &mut [Vec<u32>],
    point: Place,
)
    requires valid { IsNetwork (network_of tails.now points.now heads.old) }
    requires arcs { length tails.now ≡ length instance.now.arcs }
    requires terminals { length points.now ≡ length instance.now.terminals }
    ensures { network_of tails.now points.now heads.new ≡ restored instance.now (network_of tails.now points.now heads.old) point.terminal point.at }
{
    for (arc, tail) in tails.iter().enumerate() {
        if instance.arc(arc as u32).to == point.terminal {
            let starts = list_at(points, *tail);
            let step = instance.step(arc as u32);
            lift_heads(starts, &mut heads[arc], step, point.at);
        }
    }
}
