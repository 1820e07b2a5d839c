//! A search, step by step.
ghost use Rattle.std.specs.Prelude.{◌≡◌, ◌<◌, ⊤, OnOk, None, Ok, IfOk, IfSome, IsSomeAnd, OnErr, false};
ghost use Rattle.std.specs.Option.{is_some};
ghost use Rattle.fp_ends.specs.Deadlines.{IsLater, has_shown};
ghost use Rattle.fp_model.specs.Plans.{IsPlan};
ghost use Rattle.fp_flatnet.specs.Belonging.{BelongsTo};
ghost use Rattle.fp_flatnet.specs.Tables.{windows_in};
ghost use Rattle.fp_flatnet.specs.Windows.{PlanLiesWithin};
ghost use Rattle.fp_session.specs.declared.steps.Step.TheVariants.{Done};
ghost use Rattle.fp_session_history.specs.Budgets.{IsBudget};
ghost use Rattle.fp_session_history.specs.Solutions.{IsTimely};
ghost use Rattle.fp_session.specs.Certificates.{IsPricedBy};
ghost use Rattle.fp_certificate_rules.specs.Units.{IsGreatestUnit};
ghost use Rattle.fp_duals_leaves.specs.Prices.{ArePrices};
ghost use Rattle.fp_session.specs.Order.{IsInOrder, KeepLeast};
ghost use Rattle.fp_session.specs.Preparations.{work_left};
ghost use Rattle.fp_session.specs.Progress.{IsProgress};
ghost use Rattle.fp_session.specs.Sessions.{IsSound, cheapest_of, hand_of};
ghost use Rattle.fp_session.specs.Solved.{GoesOnFrom, IsSolved, ShowsInHand};
ghost use Rattle.fp_session.specs.Starts.{IsSessionOf};
ghost use Rattle.fp_session.specs.StepCauses.{ending_of};
ghost use Rattle.fp_session.specs.Steps.{HasGoneOn, IsStep, StayFixed, steps_left};

use crate::NoMemory;
use crate::advances::{advance, finish, go_on};
use crate::progress::{Progress, progress_of};
use crate::searches::Search;
use crate::solutions::{Solved, solution};
use crate::starts::started;
use crate::steps::Step;
use fp_certificate_rules::unit_of;
use fp_duals_leaves::Prices;
use fp_ends::{Clock, StillClock};
use fp_flatnet::Windows;
use fp_model::{Instance, Plan};
use fp_session_history::Budget;
use std::alloc::Global;
use std::marker::Model;

/// A search: its plan in hand, its points, its tree, its prices and its notes.
///
/// Contracts see the instance, its windows, the budget, what the plan costs that the search started
/// with, and all that it has in hand. Of each search they know that it is sound: its plan in hand is
/// a plan within the windows, its rounds, its splits and its leaves are earned, and what it left is
/// so.
#[derive(Drop)]
pub struct Session {
    search: Search,
    prices: Prices,
}

impl Model for Session {
    ghost use Rattle.fp_session.specs.Searches.{IsSearch, in_hand};
    ghost use Rattle.fp_session.specs.Sessions.{SessionModel, session_of};

    ghost Value = { SessionModel };

    ghost view = { λ s. session_of (in_hand s.search) s.prices };

    ghost invariant = { λ s. IsSearch s.search s.prices };
}

impl Session {
    // A search that starts with a plan within the windows, and with prices by which it has a unit or
    // none.
    fn of(
        alloc: Global,
        instance: Instance,
        windows: Windows,
        start: Plan,
        budget: Budget,
        prices: Prices,
    ) -> Result<Session, NoMemory>
        requires belongs { BelongsTo instance windows }
        requires plan { IsPlan instance 1 start }
        requires within { PlanLiesWithin (windows_in windows) 1 start }
        requires budget { IsBudget budget }
        requires prices { ArePrices instance windows prices }
        ensures of { IfOk result (IsSessionOf instance windows start budget) }
        ensures unit { IfOk result (λ s. s.prices.unit ≡ prices.unit) }
    {
        let mut prices = prices;
        let search = started(alloc, instance, windows, start, budget, &mut prices)?;
        Ok(Session { search, prices })
    }

    /// A search that starts with a plan within the windows, which belong to the instance, and may
    /// spend so much: at most 4,000 rounds and 100,000 branches. Its plan in hand is that one, its
    /// tree is one open leaf, and there was no round. It seeks no spans, and what it shows has no
    /// unit. `NoMemory` only where no memory is found.
    pub fn new(
        alloc: Global,
        instance: Instance,
        windows: Windows,
        start: Plan,
        budget: Budget,
    ) -> Result<Session, NoMemory>
        requires belongs { BelongsTo instance windows }
        requires plan { IsPlan instance 1 start }
        requires within { PlanLiesWithin (windows_in windows) 1 start }
        requires budget { IsBudget budget }
        ensures of { IfOk result (IsSessionOf instance windows start budget) }
        ensures unit { IfOk result (λ s. s.prices.unit ≡ None) }
    {
        let prices = Prices::new(alloc, None);
        Session::of(alloc, instance, windows, start, budget, prices)
    }

    /// The same of a search that seeks spans, by which leaves are worth more, and rounds up what
    /// they are worth to multiples of the greatest unit that divides what each plan costs.
    pub fn with_spans(
        alloc: Global,
        instance: Instance,
        windows: Windows,
        start: Plan,
        budget: Budget,
    ) -> Result<Session, NoMemory>
        requires belongs { BelongsTo instance windows }
        requires plan { IsPlan instance 1 start }
        requires within { PlanLiesWithin (windows_in windows) 1 start }
        requires budget { IsBudget budget }
        ensures of { IfOk result (IsSessionOf instance windows start budget) }
        ensures unit { IfOk result (λ s. IsSomeAnd s.prices.unit (IsGreatestUnit instance)) }
    {
        let prices = Prices::new(alloc, Some(unit_of(&instance)));
        Session::of(alloc, instance, windows, start, budget, prices)
    }

    /// One step of the search, at the leaf of least value among those that aren't closed, the first in
    /// preorder at a tie. Its value doesn't fall, unless it is found empty, and the other leaves stay
    /// as they are. A round is called for by walks under its sides. It is split only where walks under
    /// its sides make no cheaper plan: a terminal stands twice on one of them, or they cost at least
    /// what the incumbent does. Where spans are sought, each of the two leaves below is empty or worth no
    /// less than it was, so the least that leaves are worth never falls. Otherwise they may be worth less:
    /// a class that is forced is free for all, and points that were added tell classes apart that a table
    /// prices.
    ///
    /// A search that has ended stays as it is and gives the same answer again. `NoMemory` only where
    /// no memory is found; then all is as before.
    pub fn step(&mut self, alloc: Global) -> Result<Step, NoMemory>
        ensures step { IfOk result (IsStep (hand_of self.old) (hand_of self.new)) }
        ensures order { IfOk result (λ step. self.old.left ≡ None → IsInOrder self.old.prices.unit (hand_of self.old) (hand_of self.new) step) }
        ensures least { IfOk result (λ step. self.old.left ≡ None → IsSomeAnd self.old.prices.unit (λ unit. ⊤) → KeepLeast self.old.tree self.new.tree) }
        ensures fixed { StayFixed (hand_of self.old) (hand_of self.new) }
        ensures timed { self.old.left ≡ None → IfSome self.new.left (IsTimely false) }
        ensures answer { IfSome self.old.left (λ left. result ≡ Ok (Done (ending_of left))) }
        ensures ended { IfSome self.old.left (λ left. self.new ≡ self.old) }
        ensures err { OnErr result (self.new ≡ self.old) }
        ensures sound { IsSound self.new }
        ensures unit { self.new.prices.unit ≡ self.old.prices.unit }
    {
        self.step_within(alloc, &mut StillClock::new(), None)
    }

    /// The same in the time that there is: until a clock shows so many seconds, or fails. Then the step
    /// closes a leaf that is settled, or ends the search at one that isn't; before, or with no seconds, no
    /// search ends so.
    pub fn step_within<C: Clock>(
        &mut self,
        alloc: Global,
        clock: &mut C,
        seconds: Option<u32>,
    ) -> Result<Step, NoMemory>
        ensures step { IfOk result (IsStep (hand_of self.old) (hand_of self.new)) }
        ensures fewer { self.old.left ≡ None → OnOk result (steps_left (hand_of self.new) < steps_left (hand_of self.old)) }
        ensures order { IfOk result (λ step. self.old.left ≡ None → IsInOrder self.old.prices.unit (hand_of self.old) (hand_of self.new) step) }
        ensures least { IfOk result (λ step. self.old.left ≡ None → IsSomeAnd self.old.prices.unit (λ unit. ⊤) → KeepLeast self.old.tree self.new.tree) }
        ensures fixed { StayFixed (hand_of self.old) (hand_of self.new) }
        ensures timed { self.old.left ≡ None → IfSome self.new.left (IsTimely (has_shown seconds (C.moment clock.new) (C.faults clock.old) (C.faults clock.new))) }
        ensures later { IsLater (C.moment clock.old) (C.moment clock.new) (C.faults clock.old) (C.faults clock.new) }
        ensures answer { IfSome self.old.left (λ left. result ≡ Ok (Done (ending_of left))) }
        ensures ended { IfSome self.old.left (λ left. self.new ≡ self.old) }
        ensures err { OnErr result (self.new ≡ self.old) }
        ensures sound { IsSound self.new }
        ensures unit { self.new.prices.unit ≡ self.old.prices.unit }
    {
        advance(alloc, clock, seconds, &mut self.search, &mut self.prices)
    }

    /// Does what is next of a search that hasn't ended: what is done before a step, in which the root may
    /// be priced better, and a cheaper plan may be found, which waits until a step takes it; or else a step,
    /// in the time that there is. `NoMemory` only where no memory is found; then all is as before.
    pub fn go_on_within<C: Clock>(
        &mut self,
        alloc: Global,
        clock: &mut C,
        seconds: Option<u32>,
    ) -> Result<(), NoMemory>
        requires going { self.old.left ≡ None }
        ensures fixed { StayFixed (hand_of self.old) (hand_of self.new) }
        ensures onward { OnOk result (HasGoneOn (hand_of self.old) (hand_of self.new)) }
        ensures fewer { OnOk result (work_left (hand_of self.new) < work_left (hand_of self.old)) }
        ensures timed { IfSome self.new.left (IsTimely (has_shown seconds (C.moment clock.new) (C.faults clock.old) (C.faults clock.new))) }
        ensures later { IsLater (C.moment clock.old) (C.moment clock.new) (C.faults clock.old) (C.faults clock.new) }
        ensures err { OnErr result (self.new ≡ self.old) }
        ensures sound { IsSound self.new }
        ensures unit { self.new.prices.unit ≡ self.old.prices.unit }
    {
        go_on(alloc, clock, seconds, &mut self.search, &mut self.prices)
    }

    /// Steps until the search has ended, and what it shows then: the plan costs no more than the one
    /// in hand, and the notes on rounds begin with those that there were. `NoMemory` only where no
    /// memory is found.
    pub fn solve(self, alloc: Global) -> Result<Solved, NoMemory>
        ensures solved { IfOk result (IsSolved self.instance self.windows self.budget self.started) }
        ensures onward { IfOk result (GoesOnFrom (hand_of self)) }
        ensures priced { IfOk result (λ x. IsPricedBy self.prices.unit x.certificate) }
        ensures timed { self.left ≡ None → IfOk result (λ x. IsTimely false x.left) }
    {
        let mut search = self.search;
        let mut prices = self.prices;
        finish(
            alloc,
            &mut StillClock::new(),
            None,
            &mut search,
            &mut prices,
        )?;
        let Some(left) = search.left.take() else {
            unreachable!()
        };
        solution(alloc, search, prices, left)
    }

    /// What a search shows that has ended. `NoMemory` only where no memory is found.
    pub fn solved(self, alloc: Global) -> Result<Solved, NoMemory>
        requires { IsSomeAnd self.left (λ left. ⊤) }
        ensures solved { IfOk result (IsSolved self.instance self.windows self.budget self.started) }
        ensures shown { IfOk result (λ x. IfSome self.left (λ left. ShowsInHand (hand_of self) left x)) }
        ensures priced { IfOk result (λ x. IsPricedBy self.prices.unit x.certificate) }
    {
        let mut search = self.search;
        let Some(left) = search.left.take() else {
            unreachable!()
        };
        solution(alloc, search, self.prices, left)
    }

    /// What it has in hand, in numbers.
    pub fn progress(&self) -> Progress
        ensures { IsProgress self.now result }
    {
        progress_of(&self.search, &self.prices)
    }

    /// The cheapest plan that it has found.
    pub fn cheapest(&self) -> &Plan
        ensures { result.now ≡ cheapest_of self.now }
    {
        match &self.search.reserve {
            Some(reserve) => &reserve.plan,
            None => &self.search.incumbent,
        }
    }

    /// The instance.
    pub fn instance(&self) -> &Instance
        ensures { result.now ≡ self.now.instance }
    {
        &self.search.instance
    }

    /// Whether it has ended.
    pub fn has_ended(&self) -> bool
        ensures { result ≡ is_some self.now.left }
    {
        self.search.left.is_some()
    }
}
