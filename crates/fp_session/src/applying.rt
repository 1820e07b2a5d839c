//! A step does what was planned.
ghost use Rattle.std.specs.Prelude.{◌≡◌, ◌<◌, ◌≤◌, ⊤, None, Some, IfOk, IfSome, IsSomeAnd, OnErr, OnOk};
ghost use Rattle.fp_tree.specs.Nodes.{IsBestOpen, fork_of, split_count};
ghost use Rattle.fp_tree.specs.Trees.{tree_branches};
ghost use Rattle.fp_session.specs.Moves.{AtOpenLeaf, IsDivision, IsStopAt, IsMove, IsNextRound, IsUnsettled, fork_in};
ghost use Rattle.fp_session.specs.declared.moves.Move.TheVariants.{Stop};
ghost use Rattle.fp_session.specs.Nodes.{IsKept, IsSettled};
ghost use Rattle.fp_session.specs.Order.{IsInOrder, with_closed, with_cost, with_divided, with_kept};
ghost use Rattle.fp_session.specs.Searches.{IsCheaper, IsSearch, cheapest_cost, cheapest_plan, history, in_hand};
ghost use Rattle.fp_session.specs.StepCauses.{ending_of as ending_in, open_count, with_incumbent, with_round, with_tree};
ghost use Rattle.fp_session.specs.Steps.{HasBranched, HasClosed, HasEnded, IsStep, StayFixed};

use crate::NoMemory;
use crate::kept::Kept;
use crate::moves::{Division, Move};
use crate::payloads::Payload;
use crate::planning::Planned;
use crate::preparations::Preparation;
use crate::searches::Search;
use crate::steps::Step;
use crate::timing::NextRound;
use fp_certificate_lines::Spent;
use fp_duals_leaves::Prices;
use fp_session_history::{Ending, Left};
use fp_session_looks::Cheaper;
use std::alloc::Global;

// How a search ended that left this.
pub(crate) fn ending_of(left: &Left) -> Ending
    ensures { result ≡ ending_in left.now }
{
    match left {
        Left::Nothing => Ending::Optimal,
        Left::Timing { .. } => Ending::Unfinished {
            spent: Spent::Rounds,
        },
        Left::Several { .. } => Ending::Unfinished {
            spent: Spent::Branches,
        },
        Left::Unsettled { .. } => Ending::Unfinished { spent: Spent::Time },
    }
}

// A split, which several are tried for, takes about so many times as long as a round.
const SPLIT_WORK: usize = 4;

// A plan that waits in reserve, where it costs less than so much.
fn waiting(reserve: Option<Cheaper>, cost: u128) -> Option<Cheaper>
    ensures less { IfSome result (λ plan. (reserve ≡ Some plan) × (plan.cost < cost)) }
    ensures cheapest { cheapest_cost cost result ≤ cheapest_cost cost reserve }
{
    match reserve {
        Some(plan) if plan.cost < cost => Some(plan),
        _ => None,
    }
}

impl Search {
    // What is done next before a step, after a round or a split, which was so much work, in rounds.
    fn next_look(&self, added: usize, prices: &Prices) -> Preparation {
        let splits = SPLIT_WORK.saturating_mul(self.tree.splits() as usize);
        let work = self.trace.len().saturating_add(splits);
        let before = work.saturating_sub(added);
        let has_series = prices.unit().is_some();
        self.preparation
            .after_work(before, work, &self.instance, has_series)
    }

    // Keeps what was found of an open leaf, which is settled, and closes it. The tables serve the
    // contract alone, here and below.
    pub(crate) fn close(&mut self, prices: &Prices, leaf: u32, kept: Kept)
        requires search { IsSearch self.old prices.now }
        requires going { self.old.left ≡ None }
        requires kept { AtOpenLeaf self.old.tree leaf (λ l. IsKept (history self.old prices.now) l.sides kept.payload kept.value) }
        requires settled { IsSettled (history self.old prices.now) self.old.cost kept.payload kept.value }
        ensures search { IsSearch self.new prices.now }
        ensures fixed { StayFixed (in_hand self.old) (in_hand self.new) }
        ensures closed { HasClosed (in_hand self.old) (in_hand self.new) }
        ensures tree { self.new.tree ≡ with_closed leaf (with_kept leaf kept self.old.tree) }
    {
        self.tree.put(leaf, kept.payload, kept.value);
        self.tree.close(leaf);
    }

    // Keeps what was found of an open leaf.
    pub(crate) fn keep(&mut self, prices: &Prices, leaf: u32, kept: Kept)
        requires search { IsSearch self.old prices.now }
        requires going { self.old.left ≡ None }
        requires kept { AtOpenLeaf self.old.tree leaf (λ l. IsKept (history self.old prices.now) l.sides kept.payload kept.value) }
        ensures search { IsSearch self.new prices.now }
        ensures others { self.new ≡ with_tree self.old self.new.tree }
        ensures tree { self.new.tree ≡ with_kept leaf kept self.old.tree }
        ensures open_leaves { open_count self.new.tree ≡ open_count self.old.tree }
        ensures splits { split_count self.new.tree ≡ split_count self.old.tree }
        ensures branches { tree_branches fork_of self.new.tree ≡ tree_branches fork_of self.old.tree }
    {
        self.tree.put(leaf, kept.payload, kept.value);
    }

    // A cheaper plan becomes the incumbent. A plan waits in reserve only where it is cheaper still.
    fn take(&mut self, prices: &Prices, cheaper: Cheaper)
        requires search { IsSearch self.old prices.now }
        requires going { self.old.left ≡ None }
        requires cheaper { IsCheaper self.old cheaper }
        ensures search { IsSearch self.new prices.now }
        ensures taken { self.new ≡ with_incumbent self.old cheaper self.new.reserve self.new.preparation }
        ensures cheapest { cheapest_cost self.new.cost self.new.reserve ≤ cheapest_cost self.old.cost self.old.reserve }
    {
        self.reserve = waiting(self.reserve.take(), cheaper.cost);
        self.preparation = self.preparation.after_plan();
        self.incumbent = cheaper.plan;
        self.cost = cheaper.cost;
    }

    // The plan in reserve becomes the incumbent.
    fn take_reserve(&mut self, prices: &Prices)
        requires search { IsSearch self.old prices.now }
        requires going { self.old.left ≡ None }
        requires some { IsSomeAnd self.old.reserve (λ cheaper. ⊤) }
        ensures search { IsSearch self.new prices.now }
        ensures taken { self.new ≡ with_incumbent self.old (cheapest_plan self.old) None self.old.preparation }
        ensures less { self.new.cost < self.old.cost }
    {
        let Some(cheaper) = self.reserve.take() else {
            unreachable!()
        };
        self.incumbent = cheaper.plan;
        self.cost = cheaper.cost;
    }

    // A round is added, with its note.
    fn refine(&mut self, prices: &Prices, round: NextRound) -> Result<(), NoMemory>
        requires search { IsSearch self.old prices.now }
        requires going { self.old.left ≡ None }
        requires round { IsNextRound self.old prices.now.unit round.note round.refined }
        ensures search { OnOk result (IsSearch self.new prices.now) }
        ensures refined { OnOk result
            (in_hand self.new ≡ with_round (in_hand self.old) round.note round.refined self.new.preparation) }
        ensures err { OnErr result (in_hand self.new ≡ in_hand self.old) }
    {
        self.trace.push(round.note)?;
        self.points = round.refined.points;
        self.network = round.refined.network;
        self.preparation = self.next_look(1, prices);
        Ok(())
    }

    // Divides an open leaf, which keeps what was found of it and what the incumbent costs now.
    // Without memory it keeps what it had.
    fn divide(
        &mut self,
        alloc: Global,
        prices: &Prices,
        leaf: u32,
        kept: Kept,
        division: Division,
    ) -> Result<(), NoMemory>
        requires search { IsSearch self.old prices.now }
        requires going { self.old.left ≡ None }
        requires left { split_count self.old.tree < self.old.budget.branches }
        requires unsettled { AtOpenLeaf self.old.tree leaf (λ l. IsUnsettled (history self.old prices.now) self.old.cost l.sides kept) }
        requires kept { AtOpenLeaf self.old.tree leaf (λ l. IsKept (history self.old prices.now) l.sides kept.payload kept.value) }
        requires division { AtOpenLeaf self.old.tree leaf (λ l. IsDivision (history self.old prices.now) l.sides division) }
        ensures search { OnOk result (IsSearch self.new prices.now) }
        ensures fixed { StayFixed (in_hand self.old) (in_hand self.new) }
        ensures branched { OnOk result (HasBranched (in_hand self.old) (in_hand self.new)) }
        ensures tree { OnOk result (self.new.tree ≡ with_divided leaf (fork_in division) division.first division.second (with_kept leaf (with_cost self.old.cost kept) self.old.tree)) }
        ensures err { OnErr result (self.new ≡ self.old) }
    {
        let before = *self.tree.payload(leaf);
        let value = self.tree.value(leaf);
        let noted = Payload {
            incumbent: self.cost,
            ..kept.payload
        };
        self.tree.put(leaf, noted, kept.value);
        let first = (division.first.payload, division.first.value);
        let second = (division.second.payload, division.second.value);
        match self
            .tree
            .split_leaf(alloc, leaf, division.split, division.tail, first, second)
        {
            Ok(()) => {
                self.preparation = self.next_look(SPLIT_WORK, prices);
                Ok(())
            }
            Err(error) => {
                self.tree.put(leaf, before, value);
                Err(error)
            }
        }
    }

    // Ends the search, with what it left at an open leaf, which keeps what was found of it.
    fn stop(&mut self, prices: &Prices, leaf: u32, kept: Kept, left: Left)
        requires search { IsSearch self.old prices.now }
        requires going { self.old.left ≡ None }
        requires unsettled { AtOpenLeaf self.old.tree leaf (λ l. IsUnsettled (history self.old prices.now) self.old.cost l.sides kept) }
        requires kept { AtOpenLeaf self.old.tree leaf (λ l. IsKept (history self.old prices.now) l.sides kept.payload kept.value) }
        requires left { AtOpenLeaf self.old.tree leaf (λ l. IsStopAt self.old leaf l.sides left) }
        requires none { self.old.reserve ≡ None }
        ensures search { IsSearch self.new prices.now }
        ensures fixed { StayFixed (in_hand self.old) (in_hand self.new) }
        ensures ended { HasEnded (in_hand self.old) (in_hand self.new) (ending_in left) }
        ensures tree { self.new.tree ≡ with_kept leaf kept self.old.tree }
        ensures left { self.new.left ≡ Some left }
    {
        self.tree.put(leaf, kept.payload, kept.value);
        self.left = Some(left);
    }

    // Does what was planned at an open leaf. Without memory all stays.
    pub(crate) fn apply(
        &mut self,
        alloc: Global,
        prices: &Prices,
        leaf: u32,
        planned: Planned,
    ) -> Result<Step, NoMemory>
        requires search { IsSearch self.old prices.now }
        requires going { self.old.left ≡ None }
        requires planned { IsMove self.old prices.now leaf planned.kept planned.planned }
        requires least { IsBestOpen self.old.tree leaf }
        ensures search { OnOk result (IsSearch self.new prices.now) }
        ensures fixed { StayFixed (in_hand self.old) (in_hand self.new) }
        ensures step { IfOk result (IsStep (in_hand self.old) (in_hand self.new)) }
        ensures order { IfOk result (IsInOrder prices.now.unit (in_hand self.old) (in_hand self.new)) }
        ensures left { OnOk result (IfSome self.new.left (λ left. planned.planned ≡ Stop left)) }
        ensures err { OnErr result (in_hand self.new ≡ in_hand self.old) }
    {
        let kept = planned.kept;
        match planned.planned {
            Move::Close => {
                self.close(prices, leaf, kept);
                Ok(Step::Closed)
            }
            Move::Better { cheaper } => {
                self.keep(prices, leaf, kept);
                self.take(prices, cheaper);
                Ok(Step::Better)
            }
            Move::TakeReserve => {
                self.keep(prices, leaf, kept);
                self.take_reserve(prices);
                Ok(Step::Better)
            }
            Move::Refine { note, refined } => {
                self.refine(prices, NextRound { note, refined })?;
                self.keep(prices, leaf, kept);
                Ok(Step::Round)
            }
            Move::Divide { division } => {
                self.divide(alloc, prices, leaf, kept, division)?;
                Ok(Step::Branch)
            }
            Move::Stop { left } => {
                let ending = ending_of(&left);
                self.stop(prices, leaf, kept, left);
                Ok(Step::Done { ending })
            }
        }
    }
}
