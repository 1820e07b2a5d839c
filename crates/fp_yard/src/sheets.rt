//! The sheets of the terminals: what leaves and enters, and who goes by it.
ghost use Rattle.std.specs.Prelude.{◌≡◌, ◌<◌, ◌^◌, All, IfOk, length};
ghost use Rattle.fp_model.specs.Plans.{IsPlan};
ghost use Rattle.fp_timetable.specs.Lines.{TruckExists};
ghost use Rattle.fp_yard.specs.Schedules.{HasEnds, IsFreightOf, IsPlanSchedule, IsSound, head_at, heads_of, journey_at, tail_at, tails_of};

use crate::NoMemory;
use crate::freight::freight_lists;
use crate::journeys::journeys;
use fp_model::{Instance, Member, Plan};
use fp_timetable::{TruckLine, trucks};
use std::alloc::Global;
use std::marker::Model;

// For each line its ends and its freight, and for each shipment the lines of its legs.
#[derive(Drop)]
pub(crate) struct Sheets {
    // The terminal that each line leaves.
    tails: Vec<u32>,
    // The terminal that it enters.
    heads: Vec<u32>,
    // The lines of each shipment's legs.
    journeys: Vec<Vec<u32>>,
    // The legs that go by each line, by shipment.
    freight: Vec<Vec<Member>>,
}

impl Model for Sheets {
    ghost use Rattle.fp_yard.specs.Schedules.{IsSound, Schedule};
    ghost use Rattle.fp_yard.specs.Layout.{IsIndexed, schedule_in};

    ghost Value = { Schedule };

    ghost view = { schedule_in };

    ghost invariant = { IsIndexed };
}

// The terminals that lines leave.
fn tails(alloc: Global, instance: &Instance, lines: &[TruckLine]) -> Result<Vec<u32>, NoMemory>
    requires { All (TruckExists instance.now) lines.now }
    ensures { IfOk result (λ tails. tails.items ≡ tails_of instance.now lines.now) }
{
    lines
        .iter()
        .map(|line| instance.arc(line.arc).from)
        .collect(alloc)
}

// The terminals that lines enter.
fn heads(alloc: Global, instance: &Instance, lines: &[TruckLine]) -> Result<Vec<u32>, NoMemory>
    requires { All (TruckExists instance.now) lines.now }
    ensures { IfOk result (λ heads. heads.items ≡ heads_of instance.now lines.now) }
{
    lines
        .iter()
        .map(|line| instance.arc(line.arc).to)
        .collect(alloc)
}

impl Sheets {
    // The sheets of a plan.
    pub(crate) fn new(alloc: Global, instance: &Instance, plan: &Plan) -> Result<Sheets, NoMemory>
        requires { IsPlan instance.now 1 plan.now }
        ensures schedule { IfOk result (IsPlanSchedule instance.now plan.now) }
        ensures sound { IfOk result IsSound }
        ensures ends { IfOk result (HasEnds instance.now) }
        ensures few { IfOk result (λ sheets. length sheets.tails < 2 ^ 32) }
        ensures count { IfOk result
            (λ sheets. length sheets.journeys ≡ length instance.now.shipments) }
    {
        // An instance that was read is known to be valid, so the lines are few.
        let _known = instance.arcs();
        let lines = trucks(alloc, instance, plan)?;
        let journeys = journeys(alloc, lines.as_slice(), plan.routes.as_slice())?;
        let freight = freight_lists(alloc, lines.len(), journeys.as_slice())?;
        Ok(Sheets {
            tails: tails(alloc, instance, lines.as_slice())?,
            heads: heads(alloc, instance, lines.as_slice())?,
            journeys,
            freight,
        })
    }

    // How many lines there are.
    pub(crate) fn lines(&self) -> usize
        ensures count { result ≡ length self.now.tails }
        ensures sound { IsSound self.now }
    {
        self.tails.len()
    }

    // The terminal that a line enters.
    pub(crate) fn head(&self, line: u32) -> u32
        requires { line < length self.now.tails }
        ensures { result ≡ head_at self.now line }
    {
        self.heads[line as usize]
    }

    // The terminal that a line leaves.
    pub(crate) fn tail(&self, line: u32) -> u32
        requires { line < length self.now.tails }
        ensures { result ≡ tail_at self.now line }
    {
        self.tails[line as usize]
    }

    // The lines of a shipment's legs.
    pub(crate) fn journey(&self, shipment: u32) -> &[u32]
        requires { shipment < length self.now.journeys }
        ensures journey { result.now ≡ journey_at self.now shipment }
        ensures sound { IsSound self.now }
    {
        &self.journeys[shipment as usize]
    }

    // The legs that go by a line, by shipment.
    pub(crate) fn freight(&self, line: u32) -> &[Member]
        requires { line < length self.now.tails }
        ensures freight { IsFreightOf self.now line result.now }
        ensures sound { IsSound self.now }
    {
        &self.freight[line as usize]
    }
}
