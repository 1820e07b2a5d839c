//! What a step is going to do at an open leaf.
ghost use Rattle.std.specs.Prelude.{ℕ, ◌≡◌, ◌<◌, ◌≤◌, Option, None, IfOk, IfSome, IsTrue, ◌↔◌, IsSomeAnd, false, length};
ghost use Rattle.fp_base_lists.specs.Distinct.{AreDistinct};
ghost use Rattle.fp_model.specs.Costs.{cost as cost_of};
ghost use Rattle.fp_model.specs.Routes.{ArcsExist};
ghost use Rattle.fp_flatnet.specs.Tables.{windows_in};
ghost use Rattle.fp_relaxmodel.specs.Relaxed.{HasRoutes, IsRelaxedPlan};
ghost use Rattle.fp_relaxmodel.specs.Terminals.{terminals_on};
ghost use Rattle.fp_tree.specs.declared.layout.TheConstants.{MOST_SPLITS};
ghost use Rattle.fp_tree.specs.Nodes.{closed_of, leaf_at, leaf_count, split_count};
ghost use Rattle.fp_session_history.specs.Notes.{worth_of};
ghost use Rattle.fp_session_history.specs.Solutions.{AreWalksUnder};
ghost use Rattle.fp_session.specs.Dividing.{IsSeveral};
ghost use Rattle.fp_session.specs.Moves.{AreNoLess, AtOpenLeaf, IsDivision, IsLate, IsMove, IsOpenMove, IsTimelyMove, LeavesNoLess, points_now};
ghost use Rattle.fp_session.specs.Nodes.{IsKept, IsKeptAs};
ghost use Rattle.fp_session.specs.Outcomes.{IsFound};
ghost use Rattle.fp_duals_leaves.specs.Prices.{HaveGrown};
ghost use Rattle.fp_session.specs.Searches.{IsSearch, history, setting_of};

use crate::NoMemory;
use crate::choices::choice;
use crate::dividing::{Several, division, first_several};
use crate::improving::chosen;
use crate::kept::Kept;
use crate::leaves::{kept_at, sides_at};
use crate::moves::{Division, Move};
use crate::outcomes::Outcome;
use crate::searches::Search;
use crate::series::{are_fruitful, series_move};
use crate::timing::{Timing, timed};
use crate::walks::{cheaper_walks, walks_by_price, walks_to_split_by};
use crate::worths::{is_dear, is_dear_to_reserve};
use fp_duals_leaves::Prices;
use fp_duals_nets::LentNets;
use fp_ends::{Deadline, Resources};
use fp_prices::{Leaf, RoundNetwork};
use fp_relaxmodel::{RelaxedPlan, TimedWalk};
use fp_session_clashes::are_cheaper;
use fp_session_history::Left;
use std::alloc::Global;

// What a step is going to do, with what it keeps of its leaf.
#[derive(Drop)]
pub(crate) struct Planned {
    pub kept: Kept,
    pub planned: Move,
}

// What was found of a leaf: what is kept of it, its walks by the spans of its price or by tables, and
// those by tables where the others are by spans.
#[derive(Drop)]
struct Found {
    kept: Kept,
    relaxed: RelaxedPlan,
    by_tables: Option<Vec<TimedWalk>>,
}

// What a step is going to do where a relaxed plan under the sides of a leaf costs less than the
// incumbent. In place of an end it takes the plan in reserve.
fn timed_move<D: Deadline>(
    resources: &Resources<D>,
    search: &Search,
    leaf: &Leaf,
    number: u32,
    relaxed: RelaxedPlan,
    prices: &Prices,
) -> Result<Move, NoMemory>
    requires search { IsSearch search.now prices.now }
    requires relaxed { IsRelaxedPlan search.now.instance (windows_in search.now.windows)
        (points_now search.now) relaxed }
    requires under { AreWalksUnder search.now.instance search.now.windows (points_now search.now)
        leaf.now.sides relaxed }
    requires cheaper { cost_of search.now.instance relaxed < search.now.cost }
    ensures open_move { IfOk result (IsOpenMove search.now prices.now number leaf.now.sides) }
    ensures no_less { (unit : Option ℕ) → (above : Kept) → IfOk result (LeavesNoLess unit above) }
{
    match timed(resources, search, prices, relaxed)? {
        Timing::Better { cheaper } => Ok(Move::Better { cheaper }),
        Timing::Refine { round } => Ok(Move::Refine {
            note: round.note,
            refined: round.refined,
        }),
        Timing::Spent { relaxed } => {
            if search.reserve.is_some() {
                return Ok(Move::TakeReserve);
            }
            Ok(Move::Stop {
                left: Left::Timing {
                    leaf: number,
                    relaxed,
                },
            })
        }
    }
}

// How a leaf is divided in which a shipment has several ways to go, and of whose walks no cheaper plan
// can come, where a branch is left.
#[tactic(auto, using(fp_duals_leaves::proofs::GrownPrices::HaveGrown_none))]
fn several_move<D: Deadline>(
    resources: &Resources<D>,
    search: &Search,
    leaf: &Leaf,
    nets: &mut LentNets,
    kept: Kept,
    walks: &[TimedWalk],
    prices: &mut Prices,
) -> Result<Division, NoMemory>
    requires search { IsSearch search.now prices.old }
    requires going { search.now.left ≡ None }
    requires setting { leaf.now.setting ≡ setting_of search.now }
    requires several { (several : Several) × IsSeveral leaf.now several }
    requires deep { length leaf.now.sides ≤ MOST_SPLITS }
    requires kept { IsKept (history search.now prices.old) leaf.now.sides kept.payload kept.value }
    requires some { kept.payload.empty ≡ false }
    ensures grown { HaveGrown search.now.instance search.now.windows prices.old prices.new }
    ensures division { IfOk result (IsDivision (history search.now prices.new) leaf.now.sides) }
    ensures no_less { IfOk result (AreNoLess prices.old.unit kept) }
{
    let price = kept.payload.valuation.price;
    let chosen = choice(resources, search, leaf, nets, price, walks, prices)?;
    division(resources, search, leaf, chosen, kept, prices)
}

// Whether a branch is left.
fn has_branches(search: &Search) -> bool
    ensures { IsTrue result ↔ (split_count search.now.tree < search.now.budget.branches) }
{
    search.tree.splits() < search.budget.branches
}

// What a step is going to do at an open leaf that is worth less than the incumbent costs, where these
// are walks under its sides. It is split by them, or by its walks by tables, where these are others;
// but only where a cheaper plan can't come of them: such walks call for a round. Before a split or an
// end it takes the plan in reserve.
#[tactic(auto, using(fp_duals_leaves::proofs::GrownPrices::HaveGrown_none))]
fn move_by<D: Deadline>(
    resources: &Resources<D>,
    search: &Search,
    leaf: &Leaf,
    nets: &mut LentNets,
    number: u32,
    found: Found,
    prices: &mut Prices,
) -> Result<Move, NoMemory>
    requires search { IsSearch search.now prices.old }
    requires going { search.now.left ≡ None }
    requires setting { leaf.now.setting ≡ setting_of search.now }
    requires leaf { number < leaf_count search.now.tree }
    requires found { IsFound (history search.now prices.old) leaf.now.sides found.kept found.relaxed }
    requires below { worth_of (history search.now prices.old) found.kept.value < search.now.cost }
    requires deep { length leaf.now.sides ≤ MOST_SPLITS }
    ensures grown { HaveGrown search.now.instance search.now.windows prices.old prices.new }
    ensures planned { IfOk result (IsOpenMove search.now prices.new number leaf.now.sides) }
    ensures no_less { IfOk result (LeavesNoLess prices.old.unit found.kept) }
{
    let Found {
        kept,
        relaxed,
        by_tables,
    } = found;
    let least = &relaxed.walks;
    let fruitful = are_fruitful(search, kept_at(search, number), kept);
    if let Some(cheaper) = cheaper_walks(resources, search, leaf, nets, least, fruitful, prices)? {
        match timed_move(resources, search, leaf, number, cheaper, prices)? {
            // No round is left, but a branch is.
            Move::Stop { .. } if has_branches(search) => {}
            planned => return Ok(planned),
        }
    }
    if are_cheaper(&search.instance, &relaxed, search.cost) {
        return timed_move(resources, search, leaf, number, relaxed, prices);
    }
    if search.reserve.is_some() {
        return Ok(Move::TakeReserve);
    }
    let shipments = search.instance.shipments().len() as u32;
    match first_several(resources.alloc, leaf, shipments)? {
        // Where no shipment has several ways to go, the walks are routes and cost less.
        None => unreachable!(),
        Some(several) => {
            if search.tree.splits() >= search.budget.branches {
                return Ok(Move::Stop {
                    left: Left::Several {
                        leaf: number,
                        shipment: several.shipment,
                    },
                });
            }
            let walks = walks_to_split_by(&search.instance, &relaxed, by_tables.as_deref());
            let division = several_move(resources, search, leaf, nets, kept, walks, prices)?;
            Ok(Move::Divide { division })
        }
    }
}

// What was found of a leaf of which this is kept, whose walks by tables are these: by its walks by
// spans, where there are such.
fn found_at(
    alloc: Global,
    search: &Search,
    leaf: &Leaf,
    nets: &mut LentNets,
    kept: Kept,
    walks: Vec<TimedWalk>,
    prices: &Prices,
) -> Result<Found, NoMemory>
    requires search { IsSearch search.now prices.now }
    requires setting { leaf.now.setting ≡ setting_of search.now }
    requires found { IsFound (history search.now prices.now) leaf.now.sides kept walks.items }
    ensures kept { IfOk result (λ found. found.kept ≡ kept) }
    ensures found { IfOk result (λ found.
        IsFound (history search.now prices.now) leaf.now.sides found.kept found.relaxed) }
{
    let price = kept.payload.valuation.price;
    match walks_by_price(alloc, search, leaf, nets, price, prices)? {
        Some(by_spans) => Ok(Found {
            kept,
            relaxed: RelaxedPlan { walks: by_spans },
            by_tables: Some(walks),
        }),
        None => Ok(Found {
            kept,
            relaxed: RelaxedPlan { walks },
            by_tables: None,
        }),
    }
}

// Whether a step is going to split its leaf.
fn is_division(planned: &Move) -> bool {
    matches!(planned, Move::Divide { .. })
}

// What a step is going to do at an open leaf where the time is over: it takes the plan in reserve, or ends
// the search.
fn late(search: &Search, number: u32) -> Move
    ensures { IsLate search.now number result }
{
    match &search.reserve {
        Some(_) => Move::TakeReserve,
        None => Move::Stop {
            left: Left::Unsettled { leaf: number },
        },
    }
}

// What a step is going to do at an open leaf of which this was kept and which isn't known to be
// empty, and what it keeps of it.
#[tactic(auto, using(fp_duals_leaves::proofs::GrownPrices::HaveGrown_none, fp_flatnet::proofs::WindowTimes::BelongsTo_fits))]
fn open_move<D: Deadline>(
    resources: &Resources<D>,
    search: &Search,
    number: u32,
    old: Kept,
    prices: &mut Prices,
) -> Result<Planned, NoMemory>
    requires search { IsSearch search.now prices.old }
    requires going { search.now.left ≡ None }
    requires leaf { number < leaf_count search.now.tree }
    requires old { AtOpenLeaf search.now.tree number (λ l. IsKeptAs l old) }
    requires some { old.payload.empty ≡ false }
    ensures grown { HaveGrown search.now.instance search.now.windows prices.old prices.new }
    ensures planned { IfOk result
        (λ p. IsMove search.now prices.new number p.kept p.planned) }
    ensures timely { IfOk result (λ p. IsTimelyMove (D.ends resources.now.deadline) p.planned) }
{
    let network = search.network.copy(resources.alloc)?;
    let round = RoundNetwork::over(resources.alloc, &search.instance, network)?;
    let sides = sides_at(resources.alloc, search, number)?;
    let leaf = Leaf::of(resources.alloc, &round, &search.windows, &sides)?;
    if let Some(planned) = series_move(resources, search, &leaf, number, old, prices)? {
        return Ok(planned);
    }
    let mut nets = LentNets::new();
    match chosen(resources, search, &leaf, &mut nets, old, prices)? {
        Outcome::Empty { kept } => Ok(Planned {
            kept,
            planned: Move::Close,
        }),
        Outcome::Open { kept, walks } => {
            if is_dear(search, prices, kept.value) {
                return Ok(Planned {
                    kept,
                    planned: Move::Close,
                });
            }
            if resources.is_over() {
                return Ok(Planned {
                    kept,
                    planned: late(search, number),
                });
            }
            let found = found_at(
                resources.alloc,
                search,
                &leaf,
                &mut nets,
                kept,
                walks,
                prices,
            )?;
            let planned = move_by(resources, search, &leaf, &mut nets, number, found, prices)?;
            // A split that was worked out in haste may leave leaves that are worth less, where spans aren't sought.
            if is_division(&planned) && resources.is_over() {
                return Ok(Planned {
                    kept,
                    planned: late(search, number),
                });
            }
            Ok(Planned { kept, planned })
        }
    }
}

// What a step is going to do at an open leaf without a further look at it, where that is known: it takes
// the plan in reserve where the leaf is worth as much as that costs; and where the time is over, it
// closes the leaf, or ends the search, of which a leaf has to be known over the points as of the last
// round.
fn known_move<D: Deadline>(
    resources: &Resources<D>,
    search: &Search,
    number: u32,
    old: Kept,
    prices: &Prices,
) -> Option<Planned>
    requires search { IsSearch search.now prices.now }
    requires old { AtOpenLeaf search.now.tree number (λ l. IsKeptAs l old) }
    requires some { old.payload.empty ≡ false }
    ensures planned { IfSome result (λ p. IsMove search.now prices.now number p.kept p.planned) }
    ensures timely { IfSome result (λ p. IsTimelyMove (D.ends resources.now.deadline) p.planned) }
{
    if is_dear_to_reserve(search, prices, old.value) {
        return Some(Planned {
            kept: old,
            planned: Move::TakeReserve,
        });
    }
    if !resources.is_over() {
        return None;
    }
    if is_dear(search, prices, old.value) {
        return Some(Planned {
            kept: old,
            planned: Move::Close,
        });
    }
    if (old.payload.valuation.price.round as usize) < search.trace.len() {
        return None;
    }
    Some(Planned {
        kept: old,
        planned: late(search, number),
    })
}

// What a step is going to do at an open leaf, and what it keeps of it. Where the time is over it ends
// the search, unless it finds the leaf settled. Also without memory the prices have only grown.
#[tactic(auto, using(fp_duals_leaves::proofs::GrownPrices::HaveGrown_none))]
pub(crate) fn next_move<D: Deadline>(
    resources: &Resources<D>,
    search: &Search,
    number: u32,
    prices: &mut Prices,
) -> Result<Planned, NoMemory>
    requires search { IsSearch search.now prices.old }
    requires going { search.now.left ≡ None }
    requires leaf { number < leaf_count search.now.tree }
    requires still_open { IsSomeAnd (leaf_at search.now.tree number) (λ l. closed_of l.node ≡ false) }
    ensures grown { HaveGrown search.now.instance search.now.windows prices.old prices.new }
    ensures planned { IfOk result
        (λ p. IsMove search.now prices.new number p.kept p.planned) }
    ensures timely { IfOk result (λ p. IsTimelyMove (D.ends resources.now.deadline) p.planned) }
{
    let old = kept_at(search, number);
    if old.payload.empty {
        return Ok(Planned {
            kept: old,
            planned: Move::Close,
        });
    }
    if let Some(planned) = known_move(resources, search, number, old, prices) {
        return Ok(planned);
    }
    open_move(resources, search, number, old, prices)
}
