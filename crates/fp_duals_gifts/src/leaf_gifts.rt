//! The gifts that are sought at a leaf with sides by trucks.
ghost use Rattle.std.specs.Prelude.{◌≡◌};

use crate::NoMemory;
use fp_duals_layouts::{Layout, Run, RunGift, SpanPrices};
use fp_duals_nets::MoneyUnit;
use fp_model::limits::LATEST;
use fp_prices::Leaf;
use fp_prices_gifts::{Gift, gift_number, gift_value};
use fp_tree::Side;
use std::alloc::Global;

// The run of a side by trucks.
fn run_of(side: &Side) -> Option<Run> {
    match side {
        Side::AtMost {
            arc,
            point,
            until,
            ..
        }
        | Side::MoreThan {
            arc,
            point,
            until,
            ..
        } => Some(Run {
            arc: *arc,
            point: *point,
            until: *until,
        }),
        _ => None,
    }
}

// Whether a run is a whole arc.
fn is_arc(run: &Run) -> bool {
    run.point == 0 && run.until > LATEST
}

// A gift without an amount.
fn gift_of(run: Run, least: bool) -> Gift
    ensures { result ≡ record { arc = run.arc; point = run.point; until = run.until; least = least; amount = 0 } }
{
    Gift {
        arc: run.arc,
        point: run.point,
        until: run.until,
        least,
        amount: 0,
    }
}

// For how many trucks a gift without an amount is given at a leaf, if the leaf can be priced by it and
// a span can hold for its run.
fn number_of(leaf: &Leaf, run: &Run, least: bool) -> Option<u64> {
    let round = leaf.round();
    let instance = round.instance();
    if (run.arc as usize) >= instance.arcs().len() || run.until > LATEST + 1 {
        return None;
    }
    let gift = gift_of(*run, least);
    gift_value(instance, round.network(), leaf.sides(), &[gift], 0)?;
    gift_number(leaf.sides(), gift)
}

// Whether some gift of a list is of a run.
fn has_run(list: &[RunGift], run: &Run) -> bool {
    for gift in list {
        if gift.run == *run {
            return true;
        }
    }
    false
}

/// The gifts that are sought at a leaf: for each run of a side by trucks one of each kind for which the
/// sides tell a number of trucks, where the run ends at points. Where `arcs`, only those of whole arcs.
/// `NoMemory` only where no memory is found.
pub fn sought_gifts(alloc: Global, leaf: &Leaf, arcs: bool) -> Result<Vec<RunGift>, NoMemory> {
    let mut list = Vec::new(alloc);
    for side in leaf.sides() {
        let Some(run) = run_of(side) else {
            continue;
        };
        if has_run(&list, &run) || arcs && !is_arc(&run) {
            continue;
        }
        for least in [true, false] {
            if let Some(trucks) = number_of(leaf, &run, least) {
                list.push(RunGift { run, least, trucks })?;
            }
        }
    }
    Ok(list)
}

// The amount of a gift of a list that is of a run and a kind.
fn amount_in(gifts: &[Gift], run: &Run, least: bool) -> u128 {
    for gift in gifts {
        let same = Run {
            arc: gift.arc,
            point: gift.point,
            until: gift.until,
        };
        if same == *run && gift.least == least {
            return gift.amount;
        }
    }
    0
}

/// Gives the gifts of a layout the amounts that they have in a list, within their limits. What they leave
/// the spans is found by [`spread`](SpanPrices::spread).
pub fn put_gifts(layout: &Layout, gifts: &[Gift], unit: MoneyUnit, prices: &mut SpanPrices) {
    for (laid, amount) in layout.gifts.iter().zip(prices.amounts.iter_mut()) {
        let RunGift { run, least, .. } = laid.gift;
        *amount = unit.inner(amount_in(gifts, &run, least)).min(laid.most);
    }
}
