//! Rounds in series: one after the other, without prices between them. The walks of the last round are laid
//! over the network that it made, and call for another round where they still are allowed, cost less than
//! the incumbent and can't be timed. So a search for prices, which takes long, is made once for many
//! points.
ghost use Rattle.std.specs.Prelude.{◌≡◌, IfOk, IfSome, IsSomeAnd, false};
ghost use Rattle.fp_tree.specs.Nodes.{leaf_at};
ghost use Rattle.fp_session.specs.Moves.{AtOpenLeaf, IsMove, IsTimelyMove};
ghost use Rattle.fp_session.specs.Nodes.{IsKeptAs};
ghost use Rattle.fp_session.specs.Searches.{IsSearch, setting_of};

use crate::NoMemory;
use crate::kept::Kept;
use crate::moves::Move;
use crate::planning::Planned;
use crate::searches::Search;
use crate::timing::{Timing, timed};
use crate::walks::cheaper_of;
use crate::worths::is_dear;
use fp_duals_leaves::Prices;
use fp_ends::{ClockDeadline, Deadline, Resources, StillClock};
use fp_prices::Leaf;
use fp_session_clashes::laid_walks;

// At most so many rounds follow one another without prices between them.
const LONGEST: usize = 32;

// A series of rounds that raises what a leaf is worth by less than this part of what the incumbent costs
// was fruitless.
const LEAST_GAIN: u128 = 10_000;

// How many rounds came since a leaf was priced; none where it never was.
fn rounds_since(search: &Search, kept: Kept) -> usize {
    match kept.payload.improved {
        Some(priced) => search.trace.len().saturating_sub(priced as usize),
        None => 0,
    }
}

// Whether rounds are still sought by a leaf of which this was kept before, and this is kept now: the ones
// since it was priced before raised what it's worth by enough, if there were such.
pub(crate) fn are_fruitful(search: &Search, before: Kept, now: Kept) -> bool {
    let cost = search
        .cost
        .saturating_mul(u128::from(search.instance.scale()));
    let gain = now.value.saturating_sub(before.value);
    rounds_since(search, before) == 0 || gain >= cost / LEAST_GAIN
}

// Whether a series of rounds may go on at a leaf of which this was kept.
fn goes_on(search: &Search, old: Kept, prices: &Prices) -> bool {
    let rounds = rounds_since(search, old);
    prices.unit().is_some()
        && 0 < rounds
        && rounds < LONGEST
        && search.trace.len() < search.budget.rounds as usize
}

// What a step is going to do at an open leaf of which this was kept, while a series of rounds goes on there:
// it adds one more, or takes a cheaper plan, for which no local search is made: a series is to take little
// time. Nothing where it ends.
pub(crate) fn series_move<D: Deadline>(
    resources: &Resources<D>,
    search: &Search,
    leaf: &Leaf,
    number: u32,
    old: Kept,
    prices: &Prices,
) -> Result<Option<Planned>, NoMemory>
    requires search { IsSearch search.now prices.now }
    requires setting { leaf.now.setting ≡ setting_of search.now }
    requires old { AtOpenLeaf search.now.tree number (λ l. IsKeptAs l old) }
    requires some { old.payload.empty ≡ false }
    requires sides { IsSomeAnd (leaf_at search.now.tree number) (λ l. l.sides ≡ leaf.now.sides) }
    ensures planned { IfOk result
        (λ found. IfSome found (λ p. IsMove search.now prices.now number p.kept p.planned)) }
    ensures timely { IfOk result
        (λ found. IfSome found (λ p. IsTimelyMove (D.ends resources.now.deadline) p.planned)) }
{
    if resources.is_over() || !goes_on(search, old, prices) {
        return Ok(None);
    }
    if is_dear(search, prices, old.value) {
        return Ok(None);
    }
    let Some(note) = search.trace.last() else {
        return Ok(None);
    };
    let walks = laid_walks(resources.alloc, leaf, &note.relaxed.walks)?;
    let Some(relaxed) = cheaper_of(search, leaf, walks, prices) else {
        return Ok(None);
    };
    let still = StillClock::new();
    let hasty = Resources {
        alloc: resources.alloc,
        deadline: ClockDeadline::new(&still, Some(0)),
    };
    match timed(&hasty, search, prices, relaxed)? {
        Timing::Better { cheaper } => Ok(Some(Planned {
            kept: old,
            planned: Move::Better { cheaper },
        })),
        Timing::Refine { round } => Ok(Some(Planned {
            kept: old,
            planned: Move::Refine {
                note: round.note,
                refined: round.refined,
            },
        })),
        Timing::Spent { .. } => Ok(None),
    }
}
