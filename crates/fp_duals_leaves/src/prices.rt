//! The prices of a search.
ghost use Rattle.std.specs.Prelude.{◌≡◌, ◌+◌, ◌++◌, ◌<◌, ◌≤◌, MatchBool, MatchOption, IfOk, OnErr, false, [], ◌∷◌, length};
ghost use Rattle.fp_flatnet.specs.Tables.{windows_in};
ghost use Rattle.fp_longestarcs.specs.Networks.{points_in};
ghost use Rattle.fp_prices.specs.Tables.{HasKind};
ghost use Rattle.fp_duals.specs.declared.limits.TheConstants.{MOST_PRICE_LINES};
ghost use Rattle.fp_duals.specs.PriceLines.{AreWithinLimits};
ghost use Rattle.fp_duals.specs.PriceTables.{ArePriceTables};
ghost use Rattle.fp_prices_gifts.specs.GiftKinds.{gifts_beside as gifts_beside_kind};
ghost use Rattle.fp_prices_spans.specs.SpanKinds.{spans_beside as spans_beside_kind};
ghost use Rattle.fp_duals_leaves.specs.PriceLines.{AreFewLines, gift_lines, price_lines, span_lines};
ghost use Rattle.fp_duals_leaves.specs.Prices.{ArePrices, HaveGrown, empty_prices, first_prices, with_more};
ghost use Rattle.fp_duals_leaves.specs.Pricing.{IsImprovedByTables};

use crate::NoMemory;
use fp_duals::{Effort, Improved, Tables, improve_leaf};
use fp_duals_nets::LentNets;
use fp_duals_spans::StartPrices;
use fp_ends::{Deadline, Resources};
use fp_model::Instance;
use fp_prices::{Kind, Leaf, LeafPrice, Table};
use fp_prices_gifts::{Gift, TableGifts, gifts_beside};
use fp_prices_spans::{Span, TableSpans, spans_beside};
use fp_timenodes::Place;
use std::alloc::Global;
use std::marker::Model;

/// Tables of prices, the spans and the gifts beside each, and the unit by which what leaves are worth
/// is rounded up. A search that seeks spans has a unit.
///
/// They have at most 500,000 price lines in all, so that the certificate of a run can be handled:
/// the tables, their shares, the spans, the weights of shares and of spans, the groups of spans, and
/// the gifts.
#[derive(Drop)]
pub struct Prices {
    tables: Tables,
    spans: Vec<TableSpans>,
    gifts: Vec<TableGifts>,
    // How many lines the spans have in all, with their weights and groups, and the gifts.
    beside_lines: u32,
    unit: Option<u128>,
    // Where least walks clashed in the last search for spans: heuristics alone read them.
    clashes: Vec<Place>,
}

impl Model for Prices {
    ghost use Rattle.fp_duals_leaves.specs.PriceLines.{AreCountedPrices};
    ghost use Rattle.fp_duals_leaves.specs.Prices.{PriceLists};

    ghost Value = { PriceLists };

    ghost view = { λ x. record { tables = x.tables; spans = x.spans.items; gifts = x.gifts.items; unit = x.unit } };

    ghost invariant = { λ x. AreCountedPrices x.tables x.spans.items x.gifts.items x.beside_lines };
}

// The lines of spans that have few enough.
fn lines_of(spans: &[Span]) -> u32
    requires { span_lines spans.now ≤ MOST_PRICE_LINES }
    ensures { result ≡ span_lines spans.now }
{
    let mut lines = 0;
    for span in spans {
        lines += 1 + span.weights.len() as u32 + span.groups.len() as u32;
    }
    lines
}

// The lines of spans, where they are at most so many.
fn lines_within(spans: &[Span], most: u32) -> Option<u32>
    ensures { MatchOption result (most < span_lines spans.now)
        (λ lines. (lines ≡ span_lines spans.now) × (lines ≤ most)) }
{
    let mut left = u64::from(most);
    for span in spans {
        let beside = span.weights.len() as u64 + span.groups.len() as u64;
        if beside >= left {
            return None;
        }
        left -= beside + 1;
    }
    Some(most - left as u32)
}

// The lines of spans and gifts, where they are at most so many.
fn beside_within(spans: &[Span], gifts: &[Gift], most: u32) -> Option<u32>
    ensures { MatchOption result (most < span_lines spans.now + gift_lines gifts.now)
        (λ lines. (lines ≡ span_lines spans.now + gift_lines gifts.now) × (lines ≤ most)) }
{
    if gifts.len() > most as usize {
        return None;
    }
    let given = gifts.len() as u32;
    match lines_within(spans, most - given) {
        Some(lines) => Some(lines + given),
        None => None,
    }
}

// Adds spans and gifts that stand beside one table; without memory the lists are as before.
fn push_beside(
    all_spans: &mut Vec<TableSpans>,
    all_gifts: &mut Vec<TableGifts>,
    spans: Vec<Span>,
    gifts: Vec<Gift>,
) -> Result<(), NoMemory>
    ensures spans { IfOk result
        (λ done. all_spans.new.items ≡ all_spans.old.items ++ (spans.items ∷ [])) }
    ensures gifts { IfOk result
        (λ done. all_gifts.new.items ≡ all_gifts.old.items ++ (gifts.items ∷ [])) }
    ensures spans_err { OnErr result (all_spans.new.items ≡ all_spans.old.items) }
    ensures gifts_err { OnErr result (all_gifts.new.items ≡ all_gifts.old.items) }
{
    all_spans.push(TableSpans { spans })?;
    if let Err(error) = all_gifts.push(TableGifts { gifts }) {
        let _beside = all_spans.pop();
        return Err(error.into());
    }
    Ok(())
}

impl Prices {
    /// Prices without tables.
    pub fn new(alloc: Global, unit: Option<u128>) -> Prices
        ensures { result ≡ empty_prices unit }
    {
        Prices {
            tables: Tables::new(alloc),
            spans: Vec::new(alloc),
            gifts: Vec::new(alloc),
            beside_lines: 0,
            unit,
            clashes: Vec::new(alloc),
        }
    }

    /// Places of points without which least walks clashed in the last search that found spans, those that
    /// cost most first. Nothing is promised of them.
    pub fn clashes(&self) -> &[Place] {
        &self.clashes
    }

    /// The tables.
    pub fn tables(&self) -> &[Table]
        ensures same { result.now ≡ self.now.tables }
        ensures within { AreWithinLimits self.now.tables }
        ensures few { AreFewLines self.now.tables self.now.spans self.now.gifts }
    {
        self.tables.list()
    }

    /// The spans beside the table that a kind names.
    pub(crate) fn spans_beside(&self, kind: Kind) -> &[Span]
        ensures { result.now ≡ spans_beside_kind self.now.spans kind }
    {
        spans_beside(&self.spans, kind)
    }

    /// The gifts beside the table that a kind names.
    pub(crate) fn gifts_beside(&self, kind: Kind) -> &[Gift]
        ensures { result.now ≡ gifts_beside_kind self.now.gifts kind }
    {
        gifts_beside(&self.gifts, kind)
    }

    /// The prices from which a search goes on at a price: with the spans and the gifts beside its table.
    pub(crate) fn start_at(&self, price: LeafPrice) -> StartPrices<'_>
        ensures tables { result.tables.now ≡ self.now.tables }
        ensures kind { result.kind ≡ price.kind }
    {
        StartPrices {
            tables: self.tables(),
            kind: price.kind,
            forced: price.forced,
            spans: self.spans_beside(price.kind),
            gifts: self.gifts_beside(price.kind),
        }
    }

    /// The unit, if there is one.
    pub fn unit(&self) -> Option<u128>
        ensures { result ≡ self.now.unit }
    {
        self.unit
    }

    /// How many price lines may still be added.
    fn left(&self) -> u32
        ensures { result + price_lines self.now.tables self.now.spans self.now.gifts ≡ MOST_PRICE_LINES }
    {
        self.tables.left() - self.beside_lines
    }

    /// How many tables there are.
    pub fn count(&self) -> u32
        ensures { result ≡ length self.now.tables }
    {
        self.tables.list().len() as u32
    }

    /// The tables, the spans and the gifts beside each and the unit, handed out.
    pub fn into_parts(self) -> (Vec<Table>, Vec<TableSpans>, Vec<TableGifts>, Option<u128>)
        ensures tables { result.0.items ≡ self.tables }
        ensures spans { result.1.items ≡ self.spans }
        ensures gifts { result.2.items ≡ self.gifts }
        ensures unit { result.3 ≡ self.unit }
        ensures within { AreWithinLimits self.tables }
        ensures few { AreFewLines self.tables self.spans self.gifts }
    {
        let _within = self.tables.list();
        (self.tables.into_list(), self.spans, self.gifts, self.unit)
    }

    /// Keeps exactly the first so many tables, with the spans and the gifts beside them.
    pub fn cut(&mut self, count: u32)
        requires { count ≤ length self.old.tables }
        ensures { self.new ≡ first_prices count self.old }
    {
        self.tables.cut(count);
        while self.spans.len() > count as usize {
            let beside = self.spans.pop().unwrap();
            let given = self.gifts.pop().unwrap();
            self.beside_lines -= lines_of(&beside.spans);
            self.beside_lines -= given.gifts.len() as u32;
        }
    }

    // The prices that a leaf inherits, where neither spans nor gifts stand beside their table, and
    // linear ones elsewhere: spans and gifts say nothing to tables.
    fn without_spans(&self, inherited: LeafPrice) -> LeafPrice
        ensures kind { spans_beside_kind self.now.spans result.kind ≡ [] }
        ensures ungiven { gifts_beside_kind self.now.gifts result.kind ≡ [] }
        ensures has { HasKind self.now.tables inherited.kind → HasKind self.now.tables result.kind }
    {
        let kind = inherited.kind;
        if self.spans_beside(kind).is_empty() && self.gifts_beside(kind).is_empty() {
            inherited
        } else {
            LeafPrice {
                kind: Kind::Linear,
                ..inherited
            }
        }
    }

    /// Improves a leaf's price by tables alone. A table that comes has neither spans nor gifts beside
    /// it, and no more price lines than are left.
    pub(crate) fn improve<D: Deadline>(
        &mut self,
        resources: &Resources<D>,
        leaf: &Leaf,
        nets: &mut LentNets,
        round: u32,
        inherited: LeafPrice,
        effort: &Effort,
    ) -> Result<Improved, NoMemory>
        requires prices { ArePrices leaf.now.setting.problem leaf.now.setting.windows self.old }
        requires kind { HasKind self.old.tables inherited.kind }
        ensures improved { IfOk result
            (IsImprovedByTables leaf.now.setting.problem (windows_in leaf.now.setting.windows)
            (points_in leaf.now.setting.network) leaf.now.sides self.new round) }
        ensures grown { HaveGrown leaf.now.setting.problem leaf.now.setting.windows
            self.old self.new }
    {
        let count = self.count();
        let plain = self.without_spans(inherited);
        let room = self.left();
        let tables = &mut self.tables;
        let improved = improve_leaf(resources, leaf, nets, round, plain, effort, room, tables)?;
        if self.tables.list().len() <= self.spans.len() {
            return Ok(improved);
        }
        let spans = Vec::new(resources.alloc);
        let gifts = Vec::new(resources.alloc);
        if let Err(error) = push_beside(&mut self.spans, &mut self.gifts, spans, gifts) {
            self.tables.cut(count);
            return Err(error);
        }
        Ok(improved)
    }

    /// Adds a table of the instance with neither spans nor gifts beside it, and tells whether it did: not
    /// where it isn't one by which leaves may be priced, nor where it would be more price lines than are
    /// left.
    pub(crate) fn push_table(
        &mut self,
        alloc: Global,
        instance: &Instance,
        table: Table,
    ) -> Result<bool, NoMemory>
        requires tables { ArePriceTables instance.now self.old.tables }
        requires beside { length self.old.spans ≡ length self.old.tables }
        ensures added { IfOk result (λ added. MatchBool added
            (self.new ≡ with_more self.old (table ∷ []) ([] ∷ []) ([] ∷ [])) (self.new ≡ self.old)) }
        ensures tables { ArePriceTables instance.now self.new.tables }
        ensures err { OnErr result (self.new ≡ self.old) }
    {
        let room = self.left();
        let count = self.count();
        if !self.tables.push_fit(instance, table, room)? {
            return Ok(false);
        }
        let spans = Vec::new(alloc);
        let gifts = Vec::new(alloc);
        if let Err(error) = push_beside(&mut self.spans, &mut self.gifts, spans, gifts) {
            self.tables.cut(count);
            return Err(error);
        }
        Ok(true)
    }

    /// Adds a table without shares, with spans and gifts beside it, and tells whether it did: not where
    /// they would be more price lines than are left.
    pub(crate) fn push_spans(
        &mut self,
        alloc: Global,
        spans: Vec<Span>,
        gifts: Vec<Gift>,
        clashes: Vec<Place>,
    ) -> Result<bool, NoMemory>
        ensures added { IfOk result (λ added. MatchBool added
            (self.new ≡ with_more self.old ([] ∷ []) (spans.items ∷ []) (gifts.items ∷ []))
            (self.new ≡ self.old)) }
        ensures full { IfOk result (λ added. added ≡ false
            → MOST_PRICE_LINES < price_lines self.old.tables self.old.spans self.old.gifts
            + 1 + span_lines spans.items + gift_lines gifts.items) }
        ensures err { OnErr result (self.new ≡ self.old) }
    {
        let left = self.left();
        if left == 0 {
            return Ok(false);
        }
        let Some(lines) = beside_within(&spans, &gifts, left - 1) else {
            return Ok(false);
        };
        let count = self.count();
        if !self.tables.push_empty(alloc)? {
            return Ok(false);
        }
        if let Err(error) = push_beside(&mut self.spans, &mut self.gifts, spans, gifts) {
            self.tables.cut(count);
            return Err(error);
        }
        self.beside_lines += lines;
        self.clashes = clashes;
        Ok(true)
    }
}
