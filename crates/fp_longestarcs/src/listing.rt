//! The lists that a whole network is made of: points, tails, heads, and the classes before each
//! arc.
ghost use Rattle.std.specs.Prelude.{ℕ, ◌≡◌, ◌+◌, ◌<◌, ◌≤◌, [], All, IfOk, length, map, slice_index_or};
ghost use Rattle.fp_timenodes.specs.Floor.{HaveSamePoints, floor_point};
ghost use Rattle.fp_timenodes.specs.Points.{points_at};
ghost use Rattle.fp_longestarcs.specs.Ascending.{ArePoints};
ghost use Rattle.fp_longestarcs.specs.Vectors.{AreOffsets};
ghost use Rattle.fp_base_lists.specs.Vectors.{lists_of};
ghost use Rattle.fp_longestarcs.specs.Whole.{heads_of, arc_tails};

use crate::NoMemory;
use crate::ascending::floor_among;
use crate::lists::list_at;
use fp_model::Instance;
use fp_model::limits::{LONGEST_STEP, MOST_ARCS};
use fp_timenodes::Points;
use std::alloc::Global;

// The points of a terminal as of the round, in ascending order.
fn times_at(alloc: Global, points: &Points, terminal: u32, round: u32) -> Result<Vec<u32>, NoMemory>
    requires { terminal < points.now.terminals }
    ensures are { IfOk result (λ times. ArePoints times.items) }
    ensures same { IfOk result (λ times. HaveSamePoints times.items (points_at points.now terminal round)) }
{
    let mut times = vec![in alloc; 0]?;
    let mut last = 0;
    while let Some(next) = points.next(terminal, last, round) {
        times.push(next)?;
        last = next;
    }
    Ok(times)
}

// The points of the terminals as of the round.
pub(crate) fn all_times(
    alloc: Global,
    points: &Points,
    terminals: u32,
    round: u32,
) -> Result<Vec<Vec<u32>>, NoMemory>
    requires { points.now.terminals ≡ terminals }
    ensures count { IfOk result (λ lists. length (lists_of lists.items) ≡ terminals) }
    ensures are { IfOk result (λ lists. All ArePoints (lists_of lists.items)) }
    ensures same { IfOk result (λ lists. (terminal : ℕ) → terminal < terminals →
        HaveSamePoints (slice_index_or (lists_of lists.items) terminal []) (points_at points.now terminal round)) }
{
    let mut lists = Vec::new(alloc);
    for terminal in 0..terminals {
        lists.push(times_at(alloc, points, terminal, round)?)?;
    }
    Ok(lists)
}

// The tails of the arcs.
pub(crate) fn all_tails(alloc: Global, instance: &Instance) -> Result<Vec<u32>, NoMemory>
    ensures { IfOk result (λ tails. tails.items ≡ arc_tails instance.now.arcs) }
{
    instance.arcs().iter().map(|arc| arc.from).collect(alloc)
}

// The greatest heads of an arc's copies from these points of its tail among these points of its
// head.
fn greatest_heads(
    alloc: Global,
    starts: &[u32],
    ends: &[u32],
    step: u32,
) -> Result<Vec<u32>, NoMemory>
    requires starts { ArePoints starts.now }
    requires ends { ArePoints ends.now }
    requires step { step ≤ LONGEST_STEP }
    ensures { IfOk result (λ heads. heads.items ≡ map (λ q. floor_point ends.now 1 (q + step)) starts.now) }
{
    let mut heads = Vec::with_capacity(alloc, starts.len())?;
    for start in starts {
        heads.push(floor_among(ends, *start + step))?;
    }
    Ok(heads)
}

// The greatest heads of all arcs' copies.
pub(crate) fn all_heads(
    alloc: Global,
    instance: &Instance,
    points: &[Vec<u32>],
) -> Result<Vec<Vec<u32>>, NoMemory>
    requires count { length points.now ≡ length instance.now.terminals }
    requires are { All ArePoints (lists_of points.now) }
    ensures { IfOk result (λ heads.
        lists_of heads.items ≡ heads_of instance.now (λ terminal. slice_index_or (lists_of points.now) terminal [])) }
{
    let mut heads = Vec::new(alloc);
    for arc in 0..instance.arcs().len() as u32 {
        let taken = instance.arc(arc);
        let starts = list_at(points, taken.from);
        let ends = list_at(points, taken.to);
        heads.push(greatest_heads(alloc, starts, ends, instance.step(arc))?)?;
    }
    Ok(heads)
}

// Writes for each arc how many classes the arcs before it have, and last how many there are.
pub(crate) fn count_classes(offsets: &mut [u32], tails: &[u32], points: &[Vec<u32>])
    requires room { length offsets.old ≡ length tails.now + 1 }
    requires few { length tails.now ≤ MOST_ARCS }
    requires tails { All (λ tail. tail < length points.now) tails.now }
    requires are { All ArePoints (lists_of points.now) }
    ensures { AreOffsets (lists_of points.now) tails.now offsets.new }
{
    let mut next = 0;
    offsets[0] = 0;
    for (arc, tail) in tails.iter().enumerate() {
        next += list_at(points, *tail).len() as u32;
        offsets[arc + 1] = next;
    }
}
