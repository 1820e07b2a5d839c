//! A search goes on by one step.
ghost use Rattle.std.specs.Prelude.{◌≡◌, ◌<◌, ⊤, false, true, None, Ok, IfOk, IfSome, IsSomeAnd, OnErr, OnOk};
ghost use Rattle.fp_ends.specs.Deadlines.{IsLater, has_shown};
ghost use Rattle.fp_tree.specs.Nodes.{IsBestOpen, closed_of, leaf_at, leaf_count};
ghost use Rattle.fp_session.specs.Moves.{IsMove, IsTimelyMove};
ghost use Rattle.fp_session.specs.Order.{IsInOrder, KeepLeast};
ghost use Rattle.fp_session.specs.declared.steps.Step.TheVariants.{Done};
ghost use Rattle.fp_duals_leaves.specs.Prices.{HaveGrown};
ghost use Rattle.fp_session.specs.Searches.{IsSearch, in_hand};
ghost use Rattle.fp_session_history.specs.Solutions.{IsTimely};
ghost use Rattle.fp_session.specs.StepCauses.{ending_of as ending_in};
ghost use Rattle.fp_session.specs.Preparations.{work_left};
ghost use Rattle.fp_session.specs.Steps.{HasGoneOn, IsStep, StayFixed};

use crate::NoMemory;
use crate::applying::ending_of;
use crate::moves::Move;
use crate::planning::{Planned, next_move};
use crate::preparations::prepare;
use crate::searches::Search;
use crate::steps::Step;
use fp_duals_leaves::Prices;
use fp_ends::{Clock, ClockDeadline, Resources, have_passed};
use fp_session_history::{Ending, Left};
use fp_tree::leaves_cover_all;
use std::alloc::Global;

// Whether a step is going to end a search for want of time.
fn is_given_up(planned: &Move) -> bool
    ensures { result ≡ false → IsTimelyMove false planned.now }
{
    match planned {
        Move::Stop { left } => matches!(left, Left::Unsettled { .. }),
        Move::Close
        | Move::Better { .. }
        | Move::TakeReserve
        | Move::Refine { .. }
        | Move::Divide { .. } => false,
    }
}

// What a step is going to do at an open leaf in the time that there is. Where it gave up, and the
// clock doesn't show that the time is over, it is planned once more without a deadline. Also without
// memory the prices have only grown.
fn planned_in_time<C: Clock>(
    alloc: Global,
    clock: &mut C,
    seconds: Option<u32>,
    search: &Search,
    number: u32,
    prices: &mut Prices,
) -> Result<Planned, NoMemory>
    requires search { IsSearch search.now prices.old }
    requires going { search.now.left ≡ None }
    requires leaf { number < leaf_count search.now.tree }
    requires still_open { IsSomeAnd (leaf_at search.now.tree number) (λ l. closed_of l.node ≡ false) }
    ensures grown { HaveGrown search.now.instance search.now.windows prices.old prices.new }
    ensures planned { IfOk result
        (λ p. IsMove search.now prices.new number p.kept p.planned) }
    ensures timely { IfOk result
        (λ p. IsTimelyMove (has_shown seconds (C.moment clock.new) (C.faults clock.old) (C.faults clock.new)) p.planned) }
    ensures later { IsLater (C.moment clock.old) (C.moment clock.new) (C.faults clock.old) (C.faults clock.new) }
{
    let deadline = ClockDeadline::new(&*clock, seconds);
    let within = Resources { alloc, deadline };
    let planned = next_move(&within, search, number, prices)?;
    if !is_given_up(&planned.planned) || have_passed(clock, seconds) {
        return Ok(planned);
    }
    next_move(&Resources::endless(alloc), search, number, prices)
}

// One step at the best open leaf. Without memory the prices may have grown, and all else is as before.
fn attempt<C: Clock>(
    alloc: Global,
    clock: &mut C,
    seconds: Option<u32>,
    search: &mut Search,
    prices: &mut Prices,
    leaf: u32,
) -> Result<Step, NoMemory>
    requires search { IsSearch search.old prices.old }
    requires going { search.old.left ≡ None }
    requires least { IsBestOpen search.old.tree leaf }
    ensures grown { HaveGrown search.old.instance search.old.windows prices.old prices.new }
    ensures search { OnOk result (IsSearch search.new prices.new) }
    ensures fixed { StayFixed (in_hand search.old) (in_hand search.new) }
    ensures step { IfOk result (IsStep (in_hand search.old) (in_hand search.new)) }
    ensures order { IfOk result (IsInOrder prices.old.unit (in_hand search.old) (in_hand search.new)) }
    ensures timed { IfSome search.new.left (IsTimely (has_shown seconds (C.moment clock.new) (C.faults clock.old) (C.faults clock.new))) }
    ensures later { IsLater (C.moment clock.old) (C.moment clock.new) (C.faults clock.old) (C.faults clock.new) }
    ensures err { OnErr result (in_hand search.new ≡ in_hand search.old) }
{
    let planned = planned_in_time(alloc, clock, seconds, search, leaf, prices)?;
    search.apply(alloc, prices, leaf, planned)
}

// One step of a search that hasn't ended. Without memory all is as before.
fn advance_open<C: Clock>(
    alloc: Global,
    clock: &mut C,
    seconds: Option<u32>,
    search: &mut Search,
    prices: &mut Prices,
) -> Result<Step, NoMemory>
    requires search { IsSearch search.old prices.old }
    requires going { search.old.left ≡ None }
    ensures search { IsSearch search.new prices.new }
    ensures fixed { StayFixed (in_hand search.old) (in_hand search.new) }
    ensures step { IfOk result (IsStep (in_hand search.old) (in_hand search.new)) }
    ensures order { IfOk result (IsInOrder prices.old.unit (in_hand search.old) (in_hand search.new)) }
    ensures timed { IfSome search.new.left (IsTimely (has_shown seconds (C.moment clock.new) (C.faults clock.old) (C.faults clock.new))) }
    ensures later { IsLater (C.moment clock.old) (C.moment clock.new) (C.faults clock.old) (C.faults clock.new) }
    ensures hand { OnErr result (in_hand search.new ≡ in_hand search.old) }
    ensures unit { prices.new.unit ≡ prices.old.unit }
    ensures prices { OnErr result (prices.new ≡ prices.old) }
{
    match search.tree.best_open() {
        Some(leaf) => {
            let count = prices.count();
            match attempt(alloc, clock, seconds, search, prices, leaf) {
                Ok(step) => Ok(step),
                Err(error) => {
                    prices.cut(count);
                    Err(error)
                }
            }
        }
        None => {
            // No plan is cheaper than the incumbent then, so none waits in reserve.
            leaves_cover_all(&search.tree);
            search.left = Some(Left::Nothing);
            Ok(Step::Done {
                ending: Ending::Optimal,
            })
        }
    }
}

// One step. A search that has ended stays as it is, and so does one without memory.
pub(crate) fn advance<C: Clock>(
    alloc: Global,
    clock: &mut C,
    seconds: Option<u32>,
    search: &mut Search,
    prices: &mut Prices,
) -> Result<Step, NoMemory>
    requires search { IsSearch search.old prices.old }
    ensures search { IsSearch search.new prices.new }
    ensures fixed { StayFixed (in_hand search.old) (in_hand search.new) }
    ensures step { IfOk result (IsStep (in_hand search.old) (in_hand search.new)) }
    ensures order { IfOk result (λ step. search.old.left ≡ None → IsInOrder prices.old.unit (in_hand search.old) (in_hand search.new) step) }
    ensures least { IfOk result (λ step. search.old.left ≡ None → IsSomeAnd prices.old.unit (λ unit. ⊤) → KeepLeast search.old.tree search.new.tree) }
    ensures timed { search.old.left ≡ None → IfSome search.new.left (IsTimely (has_shown seconds (C.moment clock.new) (C.faults clock.old) (C.faults clock.new))) }
    ensures later { IsLater (C.moment clock.old) (C.moment clock.new) (C.faults clock.old) (C.faults clock.new) }
    ensures answer { IfSome search.old.left (λ left. result ≡ Ok (Done (ending_in left))) }
    ensures ended { IfSome search.old.left (λ left. in_hand search.new ≡ in_hand search.old) }
    ensures kept { IfSome search.old.left (λ left. prices.new ≡ prices.old) }
    ensures hand { OnErr result (in_hand search.new ≡ in_hand search.old) }
    ensures unit { prices.new.unit ≡ prices.old.unit }
    ensures prices { OnErr result (prices.new ≡ prices.old) }
{
    match &search.left {
        Some(left) => Ok(Step::Done {
            ending: ending_of(left),
        }),
        None => advance_open(alloc, clock, seconds, search, prices),
    }
}

// Does what is next: what is done before a step, or else a step. Without memory all is as before.
pub(crate) fn go_on<C: Clock>(
    alloc: Global,
    clock: &mut C,
    seconds: Option<u32>,
    search: &mut Search,
    prices: &mut Prices,
) -> Result<(), NoMemory>
    requires search { IsSearch search.old prices.old }
    requires going { search.old.left ≡ None }
    ensures search { IsSearch search.new prices.new }
    ensures fixed { StayFixed (in_hand search.old) (in_hand search.new) }
    ensures onward { OnOk result (HasGoneOn (in_hand search.old) (in_hand search.new)) }
    ensures fewer { OnOk result (work_left (in_hand search.new) < work_left (in_hand search.old)) }
    ensures unit { prices.new.unit ≡ prices.old.unit }
    ensures timed { IfSome search.new.left (IsTimely (has_shown seconds (C.moment clock.new) (C.faults clock.old) (C.faults clock.new))) }
    ensures later { IsLater (C.moment clock.old) (C.moment clock.new) (C.faults clock.old) (C.faults clock.new) }
    ensures hand { OnErr result (in_hand search.new ≡ in_hand search.old) }
    ensures prices { OnErr result (prices.new ≡ prices.old) }
{
    let did = prepare(alloc, &*clock, seconds, search, prices)?;
    if did {
        return Ok(());
    }
    advance_open(alloc, clock, seconds, search, prices)?;
    Ok(())
}

// Goes on until the search has ended.
pub(crate) fn finish<C: Clock>(
    alloc: Global,
    clock: &mut C,
    seconds: Option<u32>,
    search: &mut Search,
    prices: &mut Prices,
) -> Result<(), NoMemory>
    requires search { IsSearch search.old prices.old }
    ensures search { IsSearch search.new prices.new }
    ensures fixed { StayFixed (in_hand search.old) (in_hand search.new) }
    ensures onward { OnOk result (HasGoneOn (in_hand search.old) (in_hand search.new)) }
    ensures unit { prices.new.unit ≡ prices.old.unit }
    ensures timed { search.old.left ≡ None → IfSome search.new.left (IsTimely (has_shown seconds (C.moment clock.new) (C.faults clock.old) (C.faults clock.new))) }
    ensures later { IsLater (C.moment clock.old) (C.moment clock.new) (C.faults clock.old) (C.faults clock.new) }
    ensures ended { OnOk result (IsSomeAnd search.new.left (λ left. ⊤)) }
{
    while search.left.is_none() {
        go_on(alloc, clock, seconds, search, prices)?;
    }
    Ok(())
}
