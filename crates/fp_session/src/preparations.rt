//! What is done before a step, in this order: prices for the root, and between them looks for a cheaper
//! plan, which waits in reserve. So whatever a search may spend, it first does what it does with nothing to
//! spend, and a search for spans first does what one without them does, but for tables among many shipments.
ghost use Rattle.std.specs.Prelude.{◌≡◌, ◌<◌, ◌≤◌, ◌⊎◌, IfOk, IfSome, None, OnErr, Some, false, true};
ghost use Rattle.fp_duals_leaves.specs.Prices.{HaveGrown};
ghost use Rattle.fp_session.specs.Preparations.{ComesOfPreparing, IsPrepared, preparations_left};
ghost use Rattle.fp_session.specs.declared.preparations.Preparation.TheVariants as preparation;
ghost use Rattle.fp_session.specs.Searches.{IsCheaper, IsSearch, cheapest_cost, in_hand};
ghost use Rattle.fp_session.specs.StepCauses.{with_reserve};

use crate::NoMemory;
use crate::root_prices::{Raised, priced_by_spans, priced_by_tables};
use crate::searches::Search;
use fp_duals_leaves::Prices;
use fp_ends::{Clock, ClockDeadline, Deadline, Resources};
use fp_model::Instance;
use fp_session_looks::{Cheaper, Look, look_from};
use std::alloc::Global;

// What is done before a step. All but the look at a plan that was found are done once, before the first.
#[derive(Clone, Copy, Debug, PartialEq, Eq)]
pub(crate) enum Preparation {
    // A short look, so that a cheap plan is known early.
    FirstLook,
    // Prices of the root by tables.
    Tables,
    // Several short looks.
    WideLook,
    // Prices of the root by spans, where these are sought.
    Spans,
    // A few long looks.
    DeepLook,
    // A look at the incumbent, which a relaxed plan gave.
    FoundLook,
    // A look after some rounds and splits.
    LaterLook,
    Nothing,
}

// Among at most so many shipments a look takes as long as many rounds of a series.
const FEW_SHIPMENTS: usize = 100;

// How much work lies between two looks, in rounds: among fewer shipments, where a round takes less time, there
// is more; and where rounds come in series, of which each takes little time beside a look, more still.
fn work_between_looks(instance: &Instance, has_series: bool) -> usize
    ensures { 1 ≤ result }
{
    let shipments = instance.shipments().len().max(1);
    let work = match (has_series, shipments <= FEW_SHIPMENTS) {
        (true, true) => 800 / shipments,
        (true, false) => 6,
        (false, _) => 400 / shipments,
    };
    work.max(1)
}

impl Preparation {
    // What is done after it.
    fn next(self) -> Preparation
        ensures { (self ≡ preparation.Nothing) ⊎ (preparations_left result < preparations_left self) }
    {
        match self {
            Preparation::FirstLook => Preparation::Tables,
            Preparation::Tables => Preparation::WideLook,
            Preparation::WideLook => Preparation::Spans,
            Preparation::Spans => Preparation::DeepLook,
            Preparation::DeepLook
            | Preparation::FoundLook
            | Preparation::LaterLook
            | Preparation::Nothing => Preparation::Nothing,
        }
    }

    // What is done next where a relaxed plan gave the incumbent.
    pub(crate) fn after_plan(self) -> Preparation {
        match self {
            Preparation::LaterLook | Preparation::Nothing => Preparation::FoundLook,
            other => other,
        }
    }

    // What is done next after more work than `before`, in rounds.
    pub(crate) fn after_work(
        self,
        before: usize,
        now: usize,
        instance: &Instance,
        has_series: bool,
    ) -> Preparation {
        let every = work_between_looks(instance, has_series);
        if self == Preparation::Nothing && before / every < now / every {
            Preparation::LaterLook
        } else {
            self
        }
    }
}

// What came of a preparation: what is kept of an open leaf, and a cheaper plan, where there is one.
#[derive(Drop)]
pub(crate) struct Prepared {
    pub leaf: Option<Raised>,
    pub cheaper: Option<Cheaper>,
}

// Nothing came of a preparation.
pub(crate) const NOTHING: Prepared = Prepared {
    leaf: None,
    cheaper: None,
};

// What a look finds from the cheapest plan in hand, or from the incumbent where that was just found. The
// prices serve the contract alone, here and below.
fn looked<D: Deadline>(
    resources: &Resources<D>,
    search: &Search,
    at: Look,
    prices: &Prices,
) -> Result<Option<Cheaper>, NoMemory>
    requires { IsSearch search.now prices.now }
    ensures { IfOk result (λ found. IfSome found (IsCheaper search.now)) }
{
    let (instance, windows) = (&search.instance, &search.windows);
    let draw = (search.trace.len() as u32).saturating_add(search.tree.splits());
    match &search.reserve {
        Some(reserve) if search.preparation != Preparation::FoundLook => look_from(
            resources,
            instance,
            windows,
            &reserve.plan,
            reserve.cost,
            at,
            draw,
        ),
        _ => look_from(
            resources,
            instance,
            windows,
            &search.incumbent,
            search.cost,
            at,
            draw,
        ),
    }
}

// What is done next before a step.
#[tactic(auto, using(fp_duals_leaves::proofs::GrownPrices::HaveGrown_none))]
fn done_before_step<D: Deadline>(
    resources: &Resources<D>,
    search: &Search,
    prices: &mut Prices,
) -> Result<Prepared, NoMemory>
    requires search { IsSearch search.now prices.old }
    requires going { search.now.left ≡ None }
    ensures grown { HaveGrown search.now.instance search.now.windows prices.old prices.new }
    ensures comes { IfOk result (ComesOfPreparing search.now prices.new) }
{
    let instance = &search.instance;
    let at = match search.preparation {
        Preparation::FirstLook => Look::first(instance),
        Preparation::WideLook => Look::wide(instance),
        Preparation::DeepLook => Look::deep(instance),
        Preparation::FoundLook => Look::found(instance),
        Preparation::LaterLook => Look::later(instance),
        Preparation::Tables => return priced_by_tables(resources, search, prices),
        Preparation::Spans => return priced_by_spans(resources, search, prices),
        Preparation::Nothing => return Ok(NOTHING),
    };
    let cheaper = looked(resources, search, at, prices)?;
    Ok(Prepared {
        leaf: None,
        cheaper,
    })
}

// The cheaper of a plan in reserve, if there is one, and another: the first where they cost the same.
fn cheaper_of(reserve: Option<Cheaper>, other: Cheaper) -> Cheaper
    ensures one { (reserve ≡ Some result) ⊎ (result ≡ other) }
    ensures less { result.cost ≤ cheapest_cost other.cost reserve }
{
    match reserve {
        Some(plan) if plan.cost <= other.cost => plan,
        _ => other,
    }
}

impl Search {
    // A cheaper plan waits in reserve, unless one does that costs no more.
    fn hold(&mut self, prices: &Prices, cheaper: Cheaper)
        requires search { IsSearch self.old prices.now }
        requires going { self.old.left ≡ None }
        requires cheaper { IsCheaper self.old cheaper }
        ensures search { IsSearch self.new prices.now }
        ensures held { self.new ≡ with_reserve self.old self.new.reserve self.old.preparation }
        ensures cheapest { cheapest_cost self.new.cost self.new.reserve ≤ cheapest_cost self.old.cost self.old.reserve }
    {
        self.reserve = Some(cheaper_of(self.reserve.take(), cheaper));
    }

    // Keeps what came of a preparation.
    fn keep_prepared(&mut self, prices: &Prices, found: Prepared)
        requires search { IsSearch self.old prices.now }
        requires going { self.old.left ≡ None }
        requires comes { ComesOfPreparing self.old prices.now found }
        ensures search { IsSearch self.new prices.now }
        ensures prepared { IsPrepared (in_hand self.old) (in_hand self.new) }
        ensures preparation { self.new.preparation ≡ self.old.preparation }
    {
        if let Some(raised) = found.leaf {
            self.keep(prices, raised.number, raised.kept);
        }
        if let Some(cheaper) = found.cheaper {
            self.hold(prices, cheaper);
        }
    }

    // Goes on to what is done next before a step.
    fn go_on(&mut self, prices: &Prices)
        requires search { IsSearch self.old prices.now }
        ensures search { IsSearch self.new prices.now }
        ensures same { self.new ≡ with_reserve self.old self.old.reserve self.new.preparation }
        ensures fewer { (self.old.preparation ≡ preparation.Nothing) ⊎ (preparations_left self.new.preparation < preparations_left self.old.preparation) }
    {
        self.preparation = self.preparation.next();
    }
}

// Does what is done next before a step, and tells whether there was something to do, and time for it.
// Without memory all is as before.
pub(crate) fn prepare<C: Clock>(
    alloc: Global,
    clock: &C,
    seconds: Option<u32>,
    search: &mut Search,
    prices: &mut Prices,
) -> Result<bool, NoMemory>
    requires search { IsSearch search.old prices.old }
    requires going { search.old.left ≡ None }
    ensures search { IsSearch search.new prices.new }
    ensures prepared { IsPrepared (in_hand search.old) (in_hand search.new) }
    ensures fewer { IfOk result (λ did. did ≡ true → preparations_left search.new.preparation < preparations_left search.old.preparation) }
    ensures none { IfOk result (λ did. did ≡ false → (in_hand search.new ≡ in_hand search.old) × (prices.new ≡ prices.old)) }
    ensures hand { OnErr result (in_hand search.new ≡ in_hand search.old) }
    ensures unit { prices.new.unit ≡ prices.old.unit }
    ensures prices { OnErr result (prices.new ≡ prices.old) }
{
    let deadline = ClockDeadline::new(clock, seconds);
    let resources = Resources { alloc, deadline };
    if search.preparation == Preparation::Nothing || resources.is_over() {
        return Ok(false);
    }
    let count = prices.count();
    match done_before_step(&resources, search, prices) {
        Ok(found) => {
            search.keep_prepared(prices, found);
            search.go_on(prices);
            Ok(true)
        }
        Err(error) => {
            prices.cut(count);
            Err(error)
        }
    }
}
