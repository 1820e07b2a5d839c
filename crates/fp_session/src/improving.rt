//! A leaf's price is improved at the present round.
ghost use Rattle.std.specs.Prelude.{◌≡◌, ◌≤◌, IfOk, false};
ghost use Rattle.fp_prices.specs.Tables.{HasKind};
ghost use Rattle.fp_session.specs.Nodes.{IsKept};
ghost use Rattle.fp_duals_leaves.specs.Prices.{HaveGrown};
ghost use Rattle.fp_session.specs.Outcomes.{IsGreater, IsOutcome, empty_kept, noted_kept, priced_kept};
ghost use Rattle.fp_session.specs.Searches.{IsSearch, history, setting_of};

use crate::NoMemory;
use crate::kept::Kept;
use crate::outcomes::Outcome;
use crate::payloads::Payload;
use crate::searches::Search;
use fp_certificate_lines::Valuation;
use fp_duals_leaves::{Improvement, PriceEffort, Prices, improve};
use fp_duals_nets::LentNets;
use fp_ends::{Deadline, Resources};
use fp_prices::{Leaf, LeafPrice};

// What is kept of a leaf that is empty by the heads and the ways that walks go by under a price.
pub(crate) fn emptied(price: LeafPrice) -> Kept
    ensures { result ≡ empty_kept price }
{
    Kept {
        payload: Payload {
            valuation: Valuation { price, sides: None },
            empty: true,
            incumbent: 0,
            improved: None,
        },
        value: 0,
    }
}

// What is kept of a leaf that has this value by a price.
pub(crate) fn priced(price: LeafPrice, value: u128) -> Kept
    ensures { result ≡ priced_kept price value }
{
    Kept {
        payload: Payload {
            valuation: Valuation { price, sides: None },
            empty: false,
            incumbent: 0,
            improved: None,
        },
        value,
    }
}

// What is kept of a leaf of which this was kept, where another price gives this value: the other
// price only where its value is greater.
pub(crate) fn greater(old: Kept, price: LeafPrice, value: u128) -> Kept
    ensures { IsGreater old price value result }
{
    if value > old.value {
        priced(price, value)
    } else {
        old
    }
}

// What is kept of a leaf of which this was kept before, after its price was improved as of the last
// round, from a price that it inherits. The new price is kept only where its value is greater.
pub(crate) fn improved<D: Deadline>(
    resources: &Resources<D>,
    search: &Search,
    leaf: &Leaf,
    nets: &mut LentNets,
    old: Kept,
    inherited: LeafPrice,
    effort: &PriceEffort,
    prices: &mut Prices,
) -> Result<Outcome, NoMemory>
    requires search { IsSearch search.now prices.old }
    requires setting { leaf.now.setting ≡ setting_of search.now }
    requires kept { IsKept (history search.now prices.old) leaf.now.sides old.payload old.value }
    requires some { old.payload.empty ≡ false }
    requires kind { HasKind prices.old.tables inherited.kind }
    ensures grown { HaveGrown search.now.instance search.now.windows prices.old prices.new }
    ensures outcome { IfOk result
        (IsOutcome (history search.now prices.new) leaf.now.sides old) }
{
    let round = search.trace.len() as u32;
    match improve(resources, leaf, nets, round, inherited, effort, prices)? {
        Improvement::Empty { price } => Ok(Outcome::Empty {
            kept: emptied(price),
        }),
        Improvement::Priced {
            price,
            value,
            walks,
        } => Ok(Outcome::Open {
            kept: greater(old, price, value),
            walks,
        }),
    }
}

// What is kept of a leaf, with a note as of which round its price was improved, if it was.
pub(crate) fn noted(kept: Kept, improved: Option<u32>) -> Kept
    ensures { result ≡ noted_kept improved kept }
{
    let payload = Payload {
        improved,
        ..kept.payload
    };
    Kept { payload, ..kept }
}

// The effort at a leaf that a step has chosen. One that was improved before over the same points keeps
// its price, and its walks alone are found again; so it is where the time is over. The root goes on from
// the spans that it got before, where these are sought.
fn effort_at(
    leaf: &Leaf,
    improved: Option<u32>,
    round: u32,
    has_spans: bool,
    is_over: bool,
) -> PriceEffort {
    if improved == Some(round) || is_over {
        PriceEffort::NONE
    } else if !leaf.sides().is_empty() {
        PriceEffort::CHOSEN
    } else if has_spans && improved.is_some() {
        PriceEffort::AGAIN
    } else {
        PriceEffort::ROOT
    }
}

// What is kept of a leaf that a step has chosen, of which this was kept before.
pub(crate) fn chosen<D: Deadline>(
    resources: &Resources<D>,
    search: &Search,
    leaf: &Leaf,
    nets: &mut LentNets,
    old: Kept,
    prices: &mut Prices,
) -> Result<Outcome, NoMemory>
    requires search { IsSearch search.now prices.old }
    requires setting { leaf.now.setting ≡ setting_of search.now }
    requires kept { IsKept (history search.now prices.old) leaf.now.sides old.payload old.value }
    requires some { old.payload.empty ≡ false }
    ensures grown { HaveGrown search.now.instance search.now.windows prices.old prices.new }
    ensures outcome { IfOk result
        (IsOutcome (history search.now prices.new) leaf.now.sides old) }
{
    let round = search.trace.len() as u32;
    let inherited = old.payload.valuation.price;
    let has_spans = prices.unit().is_some();
    let effort = &effort_at(
        leaf,
        old.payload.improved,
        round,
        has_spans,
        resources.is_over(),
    );
    match improved(
        resources, search, leaf, nets, old, inherited, effort, prices,
    )? {
        Outcome::Empty { kept } => Ok(Outcome::Empty { kept }),
        Outcome::Open { kept, walks } => Ok(Outcome::Open {
            kept: noted(kept, Some(round)),
            walks,
        }),
    }
}
