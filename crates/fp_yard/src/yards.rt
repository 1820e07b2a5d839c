//! A plan that is run, event by event.
ghost use Rattle.std.specs.Prelude.{ℕ, ◌≡◌, ◌*◌, ◌<◌, ◌≤◌, ◌^◌, ◌↔◌, ◌∷◌, ◌++◌, [], Any, IfErr, IfOk, IsOk, IsTrue, MatchOption, OnErr, OnOk, length, vec_capacity};
ghost use Rattle.fp_model.specs.declared.parts.Member.{Member};
ghost use Rattle.fp_model.specs.Plans.{IsPlan};
ghost use Rattle.fp_yard.specs.declared.events.EventKind.TheVariants.{Departs, Arrives};
ghost use Rattle.fp_yard.specs.declared.events.LineStage.TheVariants.{Waiting};
ghost use Rattle.fp_yard.specs.Events.{CanArrive, CanDepart, IsAllowed, IsLegal, arrived, stage_of};
ghost use Rattle.fp_yard.specs.Enabled.{IsAfter};
ghost use Rattle.fp_yard.specs.Faults.{IsFault, IsMissing};
ghost use Rattle.fp_yard.specs.Places.{place_of};
ghost use Rattle.fp_yard.specs.Schedules.{HasEnds, IsFreight, IsFreightOf, IsPlanSchedule, IsSound, journey_at};
ghost use Rattle.fp_yard.specs.Yards.{HasCome, ends, stage_by};

use crate::NoMemory;
use crate::events::{Event, EventKind, LineStage, YardFault, YardPlace};
use crate::sheets::Sheets;
use fp_model::{Instance, Member, Plan};
use std::alloc::Global;
use std::marker::Model;

/// A plan that is run at its terminals. Contracts see what is run, and the events that have
/// happened, which are a legal history.
#[derive(Drop)]
pub struct Yard {
    sheets: Sheets,
    // The stage of each line.
    stages: Vec<LineStage>,
    // The events that have happened, with room for all that can.
    history: Vec<Event>,
}

impl Model for Yard {
    ghost use Rattle.fp_yard.specs.Models.{YardModel};
    ghost use Rattle.fp_yard.specs.Yards.{IsYard, yard_in};

    ghost Value = { YardModel };

    ghost view = { yard_in };

    ghost invariant = { IsYard };
}

// The stage to which an event of a kind brings its line.
fn stage_after(kind: EventKind) -> LineStage
    ensures { result ≡ stage_by kind }
{
    match kind {
        EventKind::Departs => LineStage::Rolling,
        EventKind::Arrives => LineStage::Done,
    }
}

// Whether a stage is the last one.
fn is_done(stage: LineStage) -> bool
    ensures { result ≡ ends stage }
{
    match stage {
        LineStage::Waiting => false,
        LineStage::Rolling => false,
        LineStage::Done => true,
    }
}

// Adds an event where there is room for it.
fn push_reserved(history: &mut Vec<Event>, event: Event)
    requires { length history.old.items < vec_capacity history.old }
    ensures events { history.new.items ≡ history.old.items ++ event ∷ [] }
    ensures room { vec_capacity history.old ≤ vec_capacity history.new }
{
    match history.push(event) {
        Ok(()) => {}
        Err(_) => unreachable!(),
    }
}

impl Yard {
    /// The yard of a plan, in which nothing has happened yet. It takes room for all events.
    ///
    /// `NoMemory` only where no memory is found.
    pub fn new(alloc: Global, instance: &Instance, plan: &Plan) -> Result<Yard, NoMemory>
        requires { IsPlan instance.now 1 plan.now }
        ensures schedule { IfOk result
            (λ yard. IsPlanSchedule instance.now plan.now yard.schedule) }
        ensures ends { IfOk result (λ yard. HasEnds instance.now yard.schedule) }
        ensures count { IfOk result
            (λ yard. length yard.schedule.journeys ≡ length instance.now.shipments) }
        ensures history { IfOk result (λ yard. yard.history ≡ []) }
    {
        let sheets = Sheets::new(alloc, instance, plan)?;
        let lines = sheets.lines();
        Ok(Yard {
            sheets,
            stages: vec![in alloc; LineStage::Waiting; lines]?,
            history: Vec::with_capacity(alloc, 2 * lines)?,
        })
    }

    /// How many lines there are.
    pub fn lines(&self) -> u32
        ensures count { result ≡ length self.now.schedule.tails }
        ensures sound { IsSound self.now.schedule }
        ensures legal { IsLegal self.now.schedule self.now.history }
    {
        self.stages.len() as u32
    }

    /// The events that have happened, in their order. They are a legal history. Takes no memory.
    pub fn history(&self) -> &[Event]
        ensures events { result.now ≡ self.now.history }
        ensures legal { IsLegal self.now.schedule self.now.history }
    {
        &self.history
    }

    /// The stage of a line. Takes no memory.
    pub fn stage(&self, line: u32) -> LineStage
        requires { line < length self.now.schedule.tails }
        ensures { result ≡ stage_of self.now.history line }
    {
        self.stages[line as usize]
    }

    /// Where a shipment is. Takes no memory.
    pub fn place(&self, shipment: u32) -> YardPlace
        requires { shipment < length self.now.schedule.journeys }
        ensures { result ≡ place_of self.now.schedule self.now.history shipment }
    {
        let journey = self.sheets.journey(shipment);
        let mut terminal = self.sheets.tail(journey[0]);
        for line in journey {
            match self.stages[*line as usize] {
                LineStage::Waiting => return YardPlace::At { terminal },
                LineStage::Rolling => return YardPlace::Aboard { line: *line },
                LineStage::Done => terminal = self.sheets.head(*line),
            }
        }
        YardPlace::At { terminal }
    }

    // Whether a line has arrived.
    fn has_arrived(&self, line: u32) -> bool
        requires { line < length self.now.schedule.tails }
        ensures { result ≡ arrived self.now.history line }
    {
        is_done(self.stages[line as usize])
    }

    // Whether the legs before a leg have brought its shipment to it.
    fn has_come(&self, leg: Member) -> bool
        requires shipment { leg.shipment < length self.now.schedule.journeys }
        requires leg { leg.leg < length (journey_at self.now.schedule leg.shipment) }
        ensures { IsTrue result ↔ HasCome self.now.schedule self.now.history leg }
    {
        if leg.leg == 0 {
            return true;
        }
        self.has_arrived(self.sheets.journey(leg.shipment)[leg.leg as usize - 1])
    }

    /// The legs that go by a line, by shipment: which shipments are its freight, and with which of
    /// their legs. Takes no memory.
    pub fn freight(&self, line: u32) -> &[Member]
        requires { line < length self.now.schedule.tails }
        ensures legs { IsFreightOf self.now.schedule line result.now }
        ensures shipments { (k : ℕ) → IsFreight self.now.schedule line k
            ↔ Any (λ (m : Member). m.shipment ≡ k) result.now }
        ensures sound { IsSound self.now.schedule }
    {
        self.sheets.freight(line)
    }

    // The line of the leg of a shipment just after another leg, if there is one.
    pub(crate) fn line_after(&self, leg: Member) -> Option<u32>
        requires shipment { leg.shipment < length self.now.schedule.journeys }
        requires leg { leg.leg < length (journey_at self.now.schedule leg.shipment) }
        ensures after { MatchOption result
            ((line : ℕ) → IsAfter self.now.schedule leg line → ⊥) (IsAfter self.now.schedule leg) }
        ensures sound { IsSound self.now.schedule }
        ensures legal { IsLegal self.now.schedule self.now.history }
    {
        let journey = self.sheets.journey(leg.shipment);
        let next = leg.leg as usize + 1;
        if next < journey.len() {
            Some(journey[next])
        } else {
            None
        }
    }

    // The first shipment of a waiting line's freight that isn't at its tail, if there is one.
    fn missing(&self, line: u32) -> Option<u32>
        requires exists { line < length self.now.schedule.tails }
        requires waiting { stage_of self.now.history line ≡ Waiting }
        ensures { MatchOption result (CanDepart self.now.schedule self.now.history line)
            (IsMissing self.now.schedule self.now.history (record { line = line; kind = Departs })) }
    {
        for leg in self.sheets.freight(line) {
            if !self.has_come(*leg) {
                return Some(leg.shipment);
            }
        }
        None
    }

    // The fault of a departure of a line that exists, if it has one.
    fn departure_fault(&self, line: u32) -> Option<YardFault>
        requires { line < length self.now.schedule.tails }
        ensures { MatchOption result (CanDepart self.now.schedule self.now.history line)
            (IsFault self.now.schedule self.now.history (record { line = line; kind = Departs })) }
    {
        if self.stages[line as usize] != LineStage::Waiting {
            return Some(YardFault::Left);
        }
        match self.missing(line) {
            Some(shipment) => Some(YardFault::Missing { shipment }),
            None => None,
        }
    }

    // The fault of an arrival of a line that exists, if it has one.
    fn arrival_fault(&self, line: u32) -> Option<YardFault>
        requires { line < length self.now.schedule.tails }
        ensures { MatchOption result (CanArrive self.now.schedule self.now.history line)
            (IsFault self.now.schedule self.now.history (record { line = line; kind = Arrives })) }
    {
        if self.stages[line as usize] == LineStage::Rolling {
            None
        } else {
            Some(YardFault::NotRolling)
        }
    }

    // The fault of an event, if it has one.
    pub(crate) fn fault(&self, event: Event) -> Option<YardFault>
        ensures fault { MatchOption result (IsAllowed self.now.schedule self.now.history event)
            (IsFault self.now.schedule self.now.history event) }
        ensures sound { IsSound self.now.schedule }
        ensures legal { IsLegal self.now.schedule self.now.history }
    {
        if event.line >= self.lines() {
            return Some(YardFault::NoLine);
        }
        match event.kind {
            EventKind::Departs => self.departure_fault(event.line),
            EventKind::Arrives => self.arrival_fault(event.line),
        }
    }

    /// Lets an event happen. Takes no memory.
    ///
    /// An event of a line that exists is accepted exactly where it is allowed after those that have
    /// happened, and is then added to them. The fault is the first that holds, and after it nothing
    /// has changed.
    pub fn apply(&mut self, event: Event) -> Result<(), YardFault>
        ensures exact { IsOk result ↔ IsAllowed self.old.schedule self.old.history event }
        ensures ok { OnOk result (self.new ≡ record self.old { history = self.old.history ++ event ∷ [] }) }
        ensures fault { IfErr result (IsFault self.old.schedule self.old.history event) }
        ensures err { OnErr result (self.new ≡ self.old) }
        ensures legal { IsLegal self.new.schedule self.new.history }
    {
        if let Some(fault) = self.fault(event) {
            return Err(fault);
        }
        self.step(event);
        Ok(())
    }

    // Lets an event happen that is allowed.
    pub(crate) fn step(&mut self, event: Event)
        requires { IsAllowed self.old.schedule self.old.history event }
        ensures history { self.new ≡ record self.old { history = self.old.history ++ event ∷ [] } }
        ensures legal { IsLegal self.new.schedule self.new.history }
        ensures within { length self.new.history ≤ 2 * length self.new.schedule.tails }
        ensures few { length self.new.schedule.tails < 2 ^ 32 }
    {
        self.stages[event.line as usize] = stage_after(event.kind);
        push_reserved(&mut self.history, event);
    }
}
