//! The lines in their order, each served by the trucks that arrived first.
ghost use Rattle.std.specs.Prelude.{ℕ, ◌≡◌, ◌+◌, ◌-◌, ◌<◌, ◌≤◌, ◌⊎◌, ◌^◌, All, IfOk, OnOk, length, slice_index};
ghost use Rattle.fp_timetable.specs.Lines.{TruckExists};
ghost use Rattle.fp_fleet.specs.Arrivals.{AreArrivals, moment_rank};
ghost use Rattle.fp_fleet.specs.Rosters.{line_at, tail_of};
ghost use Rattle.fp_fleet.specs.Sweeps.{AddsTurn, AreServed, AreSwept, AreTurned, HasHead, IsTimetable};

use crate::NoMemory;
use crate::arrivals::{Arrival, rank_at};
use crate::fleets::{Begin, Turn};
use fp_model::Instance;
use fp_timetable::TruckLine;

// Where trucks begin and turn so far, how many trucks of each line have not turned to another, and
// for each terminal the first arrival that may have such trucks.
#[derive(Drop)]
pub(crate) struct Sweep {
    pub(crate) begins: Vec<Begin>,
    pub(crate) turns: Vec<Turn>,
    pub(crate) idle: Vec<u128>,
    pub(crate) heads: Vec<usize>,
}

// How many trucks a line lacks when trucks have turned to it, and which is the first arrival at
// its terminal that may have some that have not.
#[derive(Clone, Copy)]
pub(crate) struct Served {
    pub(crate) lacking: u128,
    pub(crate) head: usize,
}

// The place of a line's departure among moments at terminals.
fn departure_rank(instance: &Instance, line: &TruckLine) -> u64
    requires { TruckExists instance.now line.now }
    ensures { result ≡ moment_rank (tail_of instance.now line.now) line.now.depart }
{
    rank_at(instance.arc(line.arc).from, u64::from(line.depart))
}

impl Sweep {
    // Turns trucks that are idle after a line to another one: as many as it lacks, or all. Tells
    // how many.
    fn turn_to(&mut self, before: u32, after: u32, lacking: u128) -> Result<u128, NoMemory>
        requires { before < length self.old.idle.items }
        ensures few { IfOk result (λ count. count ≤ lacking) }
        ensures most { IfOk result
            (λ count. (count ≡ lacking) ⊎ (count ≡ slice_index self.old.idle.items before)) }
        ensures adds { IfOk result
            (λ count. AddsTurn (record { before = before; after = after; count = count })
            self.old.turns.items self.new.turns.items self.old.idle.items self.new.idle.items) }
        ensures begins { self.new.begins ≡ self.old.begins }
        ensures heads { self.new.heads ≡ self.old.heads }
    {
        let there = self.idle[before as usize];
        let count = if lacking < there { lacking } else { there };
        if count > 0 {
            self.turns.push(Turn {
                before,
                after,
                count,
            })?;
        }
        self.idle[before as usize] = there - count;
        Ok(count)
    }

    // Turns trucks that have arrived at the terminal of a line to it, those first that arrived
    // first, from an arrival on.
    fn turn_over(
        &mut self,
        instance: &Instance,
        lines: &[TruckLine],
        arrivals: &[Arrival],
        number: u32,
        head: usize,
    ) -> Result<Served, NoMemory>
        requires timetable { IsTimetable instance.now lines.now }
        requires arrivals { AreArrivals instance.now lines.now arrivals.now }
        requires number { number < length lines.now }
        requires swept { AreSwept instance.now lines.now number self.old.turns.items
            self.old.idle.items }
        requires head { HasHead instance.now lines.now arrivals.now self.old.idle.items
            (tail_of instance.now (line_at lines.now number)) head }
        ensures turned { IfOk result (λ served. AreTurned instance.now lines.now arrivals.now number
            self.old.turns.items self.old.idle.items self.new.turns.items self.new.idle.items
            served.lacking served.head) }
        ensures begins { self.new.begins ≡ self.old.begins }
        ensures heads { self.new.heads ≡ self.old.heads }
    {
        let line = &lines[number as usize];
        let rank = departure_rank(instance, line);
        let mut lacking = line.trucks;
        for at in head..arrivals.len() {
            let arrival = arrivals[at];
            if lacking == 0 || rank < arrival.rank {
                return Ok(Served { lacking, head: at });
            }
            lacking -= self.turn_to(arrival.line, number, lacking)?;
            if self.idle[arrival.line as usize] > 0 {
                return Ok(Served { lacking, head: at });
            }
        }
        Ok(Served {
            lacking,
            head: arrivals.len(),
        })
    }

    // Serves a line: trucks turn to it, and those that it lacks then begin with it.
    pub(crate) fn serve(
        &mut self,
        instance: &Instance,
        lines: &[TruckLine],
        arrivals: &[Arrival],
        number: u32,
    ) -> Result<(), NoMemory>
        requires timetable { IsTimetable instance.now lines.now }
        requires arrivals { AreArrivals instance.now lines.now arrivals.now }
        requires number { number < length lines.now }
        requires served { AreServed instance.now lines.now arrivals.now number
            self.old.begins.items self.old.turns.items self.old.idle.items self.old.heads.items }
        ensures { OnOk result (AreServed instance.now lines.now arrivals.now (number + 1)
            self.new.begins.items self.new.turns.items self.new.idle.items self.new.heads.items) }
    {
        let terminal = instance.arc(lines[number as usize].arc).from as usize;
        let head = self.heads[terminal];
        let served = self.turn_over(instance, lines, arrivals, number, head)?;
        self.heads[terminal] = served.head;
        if served.lacking > 0 {
            self.begins.push(Begin {
                line: number,
                count: served.lacking,
            })?;
        }
        Ok(())
    }
}
