//! Trucks that begin and turn, one after the other.
ghost use Rattle.std.specs.Prelude.{ℕ, ◌≡◌, ◌+◌, ◌-◌, ◌*◌, ◌<◌, ◌≤◌, ◌^◌, ◌++◌, ◌∷◌, [], All, OnOk, length, min, slice_index, slice_set, take};
ghost use Rattle.fp_base_lists.specs.Vectors.{lists_of};
ghost use Rattle.fp_timetable.specs.Lines.{TruckExists};
ghost use Rattle.fp_fleet.specs.Queues.{AreQueued, Begins, IsGiven, Joins, Turns, day_at, next_load, queue_at};
ghost use Rattle.fp_fleet.specs.Rosters.{line_at};
ghost use Rattle.fp_fleet.specs.TruckDays.{capacity_of};

use crate::NoMemory;
use crate::days::Run;
use crate::fleets::Fleet;
use fp_model::Instance;
use fp_timetable::TruckLine;
use std::alloc::Global;

// What each truck runs so far; for each line the trucks that run it, in the order in which they
// came to run it, and how many of them, the first ones, have turned to another line.
#[derive(Drop)]
pub(crate) struct Queues {
    pub(crate) days: Vec<Vec<Run>>,
    pub(crate) queues: Vec<Vec<u32>>,
    pub(crate) heads: Vec<usize>,
}

// What the next truck of a line carries when so many have run it: as much as it holds, or the rest.
fn load_after(instance: &Instance, line: &TruckLine, before: usize) -> u128
    requires exists { TruckExists instance.now line.now }
    requires left { before * capacity_of instance.now line.now < line.now.load }
    ensures { result ≡ next_load instance.now line.now before }
{
    let capacity = u128::from(instance.arc(line.arc).capacity);
    let rest = line.load - before as u128 * capacity;
    if rest < capacity { rest } else { capacity }
}

// Puts a run at the end of a truck's day.
fn push_run(days: &mut Vec<Vec<Run>>, truck: u32, run: Run) -> Result<(), NoMemory>
    requires { truck < length days.old.items }
    ensures { OnOk result (lists_of days.new.items ≡ slice_set (lists_of days.old.items) truck
        (day_at (lists_of days.old.items) truck ++ run ∷ [])) }
{
    days[truck as usize].push(run)?;
    Ok(())
}

// Puts a truck at the end of a line's queue.
fn push_truck(queues: &mut Vec<Vec<u32>>, line: u32, truck: u32) -> Result<(), NoMemory>
    requires { line < length queues.old.items }
    ensures { OnOk result (lists_of queues.new.items ≡ slice_set (lists_of queues.old.items) line
        (queue_at (lists_of queues.old.items) line ++ truck ∷ [])) }
{
    queues[line as usize].push(truck)?;
    Ok(())
}

impl Queues {
    // A truck runs a line next.
    fn join(
        &mut self,
        instance: &Instance,
        lines: &[TruckLine],
        line: u32,
        truck: u32,
    ) -> Result<(), NoMemory>
        requires exist { All (TruckExists instance.now) lines.now }
        requires line { line < length lines.now }
        requires long { length self.old.queues.items ≡ length lines.now }
        requires truck { truck < length self.old.days.items }
        requires left { length (queue_at (lists_of self.old.queues.items) line)
            * capacity_of instance.now (line_at lines.now line) < (line_at lines.now line).load }
        ensures joins { OnOk result (Joins instance.now lines.now line truck
            (lists_of self.old.days.items) (lists_of self.new.days.items)
            (lists_of self.old.queues.items) (lists_of self.new.queues.items)) }
        ensures heads { self.new.heads ≡ self.old.heads }
    {
        let before = self.queues[line as usize].len();
        let load = load_after(instance, &lines[line as usize], before);
        push_run(&mut self.days, truck, Run { line, load })?;
        push_truck(&mut self.queues, line, truck)
    }

    // One more truck begins with a line.
    fn begin_one(
        &mut self,
        alloc: Global,
        instance: &Instance,
        lines: &[TruckLine],
        line: u32,
    ) -> Result<(), NoMemory>
        requires exist { All (TruckExists instance.now) lines.now }
        requires line { line < length lines.now }
        requires long { length self.old.queues.items ≡ length lines.now }
        requires few { length self.old.days.items < 2 ^ 32 }
        requires left { length (queue_at (lists_of self.old.queues.items) line)
            * capacity_of instance.now (line_at lines.now line) < (line_at lines.now line).load }
        ensures begins { OnOk result (Begins instance.now lines.now line
            (lists_of self.old.days.items) (lists_of self.new.days.items)
            (lists_of self.old.queues.items) (lists_of self.new.queues.items)) }
        ensures heads { self.new.heads ≡ self.old.heads }
    {
        let truck = self.days.len() as u32;
        self.days.push(Vec::new(alloc))?;
        self.join(instance, lines, line, truck)
    }

    // The first truck that waits at the end of a line runs another next.
    fn turn_one(
        &mut self,
        instance: &Instance,
        lines: &[TruckLine],
        before: u32,
        after: u32,
    ) -> Result<(), NoMemory>
        requires exist { All (TruckExists instance.now) lines.now }
        requires before { before < length lines.now }
        requires after { after < length lines.now }
        requires long { length self.old.queues.items ≡ length lines.now }
        requires heads { length self.old.heads.items ≡ length lines.now }
        requires waits { slice_index self.old.heads.items before
            < length (queue_at (lists_of self.old.queues.items) before) }
        requires truck { slice_index (queue_at (lists_of self.old.queues.items) before)
            (slice_index self.old.heads.items before) < length self.old.days.items }
        requires left { length (queue_at (lists_of self.old.queues.items) after)
            * capacity_of instance.now (line_at lines.now after)
            < (line_at lines.now after).load }
        ensures { OnOk result (Turns instance.now lines.now before after
            (slice_index (queue_at (lists_of self.old.queues.items) before)
            (slice_index self.old.heads.items before))
            (lists_of self.old.days.items) (lists_of self.new.days.items)
            (lists_of self.old.queues.items) (lists_of self.new.queues.items)
            self.old.heads.items self.new.heads.items) }
    {
        let head = self.heads[before as usize];
        let truck = self.queues[before as usize][head];
        self.heads[before as usize] = head + 1;
        self.join(instance, lines, after, truck)
    }

    // Begins the trucks of the begin at a place among those of a fleet.
    pub(crate) fn begin(
        &mut self,
        alloc: Global,
        instance: &Instance,
        lines: &[TruckLine],
        fleet: &Fleet,
        place: usize,
    ) -> Result<(), NoMemory>
        requires given { IsGiven instance.now lines.now fleet.now }
        requires place { place < length fleet.now.begins }
        requires queued { AreQueued instance.now lines.now (take place fleet.now.begins) []
            (lists_of self.old.days.items) (lists_of self.old.queues.items) self.old.heads.items }
        ensures { OnOk result (AreQueued instance.now lines.now
            (take (place + 1) fleet.now.begins) [] (lists_of self.new.days.items)
            (lists_of self.new.queues.items) self.new.heads.items) }
    {
        let begin = fleet.begins[place];
        for _ in 0..begin.count as u32 {
            self.begin_one(alloc, instance, lines, begin.line)?;
        }
        Ok(())
    }

    // Turns the trucks of the turn at a place among those of a fleet.
    pub(crate) fn turn(
        &mut self,
        instance: &Instance,
        lines: &[TruckLine],
        fleet: &Fleet,
        place: usize,
    ) -> Result<(), NoMemory>
        requires given { IsGiven instance.now lines.now fleet.now }
        requires place { place < length fleet.now.turns }
        requires queued { AreQueued instance.now lines.now fleet.now.begins
            (take place fleet.now.turns) (lists_of self.old.days.items)
            (lists_of self.old.queues.items) self.old.heads.items }
        ensures { OnOk result (AreQueued instance.now lines.now fleet.now.begins
            (take (place + 1) fleet.now.turns) (lists_of self.new.days.items)
            (lists_of self.new.queues.items) self.new.heads.items) }
    {
        let turn = fleet.turns[place];
        for _ in 0..turn.count as u32 {
            self.turn_one(instance, lines, turn.before, turn.after)?;
        }
        Ok(())
    }
}
