//! The arrivals of truck lines, in order.
ghost use Rattle.std.specs.Prelude.{◌≡◌, ◌<◌, ◌^◌, All, IfOk, length};
ghost use Rattle.fp_timetable.specs.Lines.{TruckExists};
ghost use Rattle.fp_yard_sheets.specs.Arrivals.{AreByMoment, arrival_of, arrival_rank};

use crate::NoMemory;
use fp_model::Instance;
use fp_timetable::TruckLine;
use std::alloc::Global;

// When a truck line arrives, in the input's unit of time, and its number.
#[derive(Clone, Copy)]
pub(crate) struct Arrival {
    pub(crate) at: u64,
    pub(crate) line: u32,
}

// When a line arrives.
fn arrival_time(instance: &Instance, line: &TruckLine) -> u64
    requires { TruckExists instance.now line.now }
    ensures { result ≡ arrival_of instance.now line.now }
{
    u64::from(line.depart) + u64::from(instance.arc(line.arc).time)
}

// One number for an arrival, in whose order the moment counts before the line.
fn rank(arrival: &Arrival) -> u128
    ensures { result ≡ arrival_rank arrival.now }
{
    u128::from(arrival.at) * (1 << 32) + u128::from(arrival.line)
}

// The arrivals of lines, by moment and then by line.
pub(crate) fn by_moment(
    alloc: Global,
    instance: &Instance,
    lines: &[TruckLine],
) -> Result<Vec<Arrival>, NoMemory>
    requires exist { All (TruckExists instance.now) lines.now }
    requires few { length lines.now < 2 ^ 32 }
    ensures { IfOk result (λ arrivals. AreByMoment instance.now lines.now arrivals.items) }
{
    let mut arrivals = Vec::new(alloc);
    for (number, line) in lines.iter().enumerate() {
        arrivals.push(Arrival {
            at: arrival_time(instance, line),
            line: number as u32,
        })?;
    }
    arrivals.sort_unstable_by_key(|arrival| rank(arrival));
    Ok(arrivals)
}
