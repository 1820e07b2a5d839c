//! The arrivals of truck lines, terminal by terminal.
ghost use Rattle.std.specs.Prelude.{ℕ, ◌≡◌, ◌+◌, ◌<◌, ◌≤◌, ◌^◌, All, IfOk, length, map, slice_index_or};
ghost use Rattle.std.specs.List.Sorted.{IsNonDecreasingBy};
ghost use Rattle.fp_timetable.specs.Lines.{TruckExists};
ghost use Rattle.fp_fleet.specs.declared.arrivals.Arrival.{Arrival};
ghost use Rattle.fp_fleet.specs.Arrivals.{AreArrivals, IsHead, moment_rank, ranked_from};
ghost use Rattle.fp_fleet.specs.Rosters.{arrival_of};
ghost use Rattle.fp_fleet.specs.Sweeps.{IsTimetable};

use crate::NoMemory;
use fp_model::Instance;
use fp_timetable::TruckLine;
use std::alloc::Global;

// The arrival of a truck line, by its number, with one number that puts arrivals in order by
// terminal and then by moment.
#[derive(Clone, Copy)]
pub(crate) struct Arrival {
    pub(crate) rank: u64,
    pub(crate) line: u32,
}

// When a line arrives.
pub(crate) fn arrival_time(instance: &Instance, line: &TruckLine) -> u64
    requires { TruckExists instance.now line.now }
    ensures moment { result ≡ arrival_of instance.now line.now }
    ensures small { result < 2 ^ 33 }
{
    u64::from(line.depart) + u64::from(instance.arc(line.arc).time)
}

// One number for a moment at a terminal, in whose order the terminal counts before the moment.
pub(crate) fn rank_at(terminal: u32, moment: u64) -> u64
    requires terminal { terminal < 2 ^ 20 }
    requires moment { moment < 2 ^ 40 }
    ensures { result ≡ moment_rank terminal moment }
{
    u64::from(terminal) * (1 << 40) + moment
}

// The arrivals of lines, by line.
fn ranked(alloc: Global, instance: &Instance, lines: &[TruckLine]) -> Result<Vec<Arrival>, NoMemory>
    requires exist { All (TruckExists instance.now) lines.now }
    requires few { length lines.now < 2 ^ 32 }
    ensures { IfOk result (λ arrivals. arrivals.items ≡ ranked_from instance.now 0 lines.now) }
{
    let mut arrivals = Vec::new(alloc);
    for (number, line) in lines.iter().enumerate() {
        let terminal = instance.arc(line.arc).to;
        arrivals.push(Arrival {
            rank: rank_at(terminal, arrival_time(instance, line)),
            line: number as u32,
        })?;
    }
    Ok(arrivals)
}

// The arrivals of lines, by terminal and then by moment.
pub(crate) fn by_arrival(
    alloc: Global,
    instance: &Instance,
    lines: &[TruckLine],
) -> Result<Vec<Arrival>, NoMemory>
    requires { IsTimetable instance.now lines.now }
    ensures { IfOk result (λ arrivals. AreArrivals instance.now lines.now arrivals.items) }
{
    let mut arrivals = ranked(alloc, instance, lines)?;
    arrivals.sort_unstable_by_key(|arrival| arrival.rank);
    Ok(arrivals)
}

// Where the arrivals at a terminal begin.
fn head_of(arrivals: &[Arrival], terminal: u32) -> usize
    requires sorted { IsNonDecreasingBy (λ (a : Arrival). a.rank) arrivals.now }
    requires small { terminal < 2 ^ 20 }
    ensures { IsHead arrivals.now terminal result }
{
    let rank = rank_at(terminal, 0);
    arrivals.partition_point(|arrival| arrival.rank < rank)
}

// Where the arrivals at each of some terminals begin.
pub(crate) fn heads_of(
    alloc: Global,
    terminals: u32,
    arrivals: &[Arrival],
) -> Result<Vec<usize>, NoMemory>
    requires sorted { IsNonDecreasingBy (λ (a : Arrival). a.rank) arrivals.now }
    requires small { terminals < 2 ^ 20 }
    ensures long { IfOk result (λ heads. length heads.items ≡ terminals) }
    ensures heads { IfOk result (λ heads. (v : ℕ) → v < terminals → IsHead arrivals.now v
        (slice_index_or heads.items v 0)) }
{
    let mut heads = Vec::new(alloc);
    for terminal in 0..terminals {
        heads.push(head_of(arrivals, terminal))?;
    }
    Ok(heads)
}
