//! An instance, and what follows its records.
ghost use Rattle.std.specs.Prelude.{◌≡◌, ◌<◌, ◌≤◌, ◌-◌, ◌^◌, length, IfOk};
ghost use Rattle.fp_app_tails.specs.Inputs.{IsDayInputOf, IsKeptInputOf, IsSound, IsTailInput, IsTailInputOf};

use crate::NoMemory;
use crate::places::{tail_place, tells_day};
use fp_model::Instance;
use fp_reader::{InputFault, Tail, instance};
use fp_records::Record;
use fp_replan::{Kept, KeptFault, read_kept};
use fp_replan_present::{Present, PresentFault, read};
use std::alloc::{AllocError, Global};

/// What an input gives.
#[derive(Drop)]
pub enum TailInput {
    /// An instance, and the legs that are kept.
    Kept {
        instance: Instance,
        kept: Vec<Kept>,
    },
    /// An instance, and a day that is under way.
    Day {
        instance: Instance,
        present: Present,
    },
    /// The first fault of its records.
    Fault {
        ordinal: u32,
        code: u32,
    },
}

// The kept legs of the records from a place on, with their instance.
fn read_legs(
    alloc: Global,
    instance: Instance,
    lines: &[Record],
    place: usize,
) -> Result<TailInput, NoMemory>
    requires place { place ≤ length lines.now }
    requires few { length lines.now < 2 ^ 32 - 1 }
    ensures read { IfOk result (IsKeptInputOf instance place lines.now) }
    ensures sound { IfOk result IsSound }
{
    match read_kept(alloc, &instance, lines, place) {
        Ok(kept) => Ok(TailInput::Kept { instance, kept }),
        Err(KeptFault::Bad { ordinal, code }) => Ok(TailInput::Fault { ordinal, code }),
        Err(KeptFault::NoMemory) => Err(AllocError),
    }
}

// The day of the records from a place on, with its instance.
fn read_day(
    alloc: Global,
    instance: Instance,
    lines: &[Record],
    place: usize,
) -> Result<TailInput, NoMemory>
    requires place { place ≤ length lines.now }
    requires few { length lines.now < 2 ^ 32 - 1 }
    ensures read { IfOk result (IsDayInputOf instance place lines.now) }
    ensures sound { IfOk result IsSound }
{
    match read(alloc, &instance, lines, place) {
        Ok(present) => Ok(TailInput::Day { instance, present }),
        Err(PresentFault::Bad { ordinal, code }) => Ok(TailInput::Fault { ordinal, code }),
        Err(PresentFault::NoMemory) => Err(AllocError),
    }
}

// What the records from a place on tell, with their instance.
fn read_after(
    alloc: Global,
    instance: Instance,
    lines: &[Record],
    place: usize,
) -> Result<TailInput, NoMemory>
    requires place { place ≤ length lines.now }
    requires few { length lines.now < 2 ^ 32 - 1 }
    ensures read { IfOk result (IsTailInputOf instance place lines.now) }
    ensures sound { IfOk result IsSound }
{
    if tells_day(&lines[place..]) {
        read_day(alloc, instance, lines, place)
    } else {
        read_legs(alloc, instance, lines, place)
    }
}

/// The instance of the records before the first `kept` or `now`, and the kept legs or the day that is
/// under way which those from there on tell; or the first fault.
///
/// It is a day that is under way where one of these is `now`, or `kept` with six fields. There are fewer
/// than `2^32 - 1` records. `NoMemory` only where no memory is found.
pub fn read_tail(alloc: Global, lines: &[Record]) -> Result<TailInput, NoMemory>
    requires { length lines.now < 2 ^ 32 - 1 }
    ensures given { IfOk result (IsTailInput lines.now) }
    ensures sound { IfOk result IsSound }
{
    let place = tail_place(lines);
    match instance(alloc, &lines[..place], Tail::Alone) {
        Ok(read) => read_after(alloc, read.instance, lines, place),
        Err(InputFault::Bad { ordinal, code }) => Ok(TailInput::Fault { ordinal, code }),
        Err(InputFault::NoMemory) => Err(AllocError),
    }
}
