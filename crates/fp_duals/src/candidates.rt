//! The search for a table that is better than all six starting prices.
ghost use Rattle.std.specs.Prelude.{◌≡◌, ◌+◌, ◌<◌, ◌≤◌, ◌⊎◌, IfOk, IfSome};
ghost use Rattle.fp_prices.specs.Tables.{AreTables};
ghost use Rattle.fp_duals.specs.declared.limits.TheConstants.{MOST_PRICE_LINES};
ghost use Rattle.fp_duals.specs.Candidates.{IsBetter, IsCandidate, IsNoBetter};
ghost use Rattle.fp_duals.specs.PriceLines.{line_count, line_total};
ghost use Rattle.fp_duals.specs.PriceTables.{IsFitTable};

use crate::NoMemory;
use crate::run_tables::Tables;
use crate::searches::Search;
use crate::starts::Start;
use crate::table_tests::is_fit;
use fp_ends::{Deadline, Resources};
use fp_prices::{Kind, Leaf, LeafBound, Table};
use std::alloc::Global;

/// A table that may be added, and the prices of a leaf by it.
#[derive(Drop)]
pub(crate) struct Candidate {
    pub(crate) table: Table,
    pub(crate) start: Start,
}

// The prices of a leaf by a fit table, in a mode. The tables are as before.
fn prices_by(
    alloc: Global,
    leaf: &Leaf,
    tables: &mut Tables,
    table: Table,
    lines: u32,
    forced: bool,
) -> Result<Option<Candidate>, NoMemory>
    requires tables { AreTables leaf.now.setting.problem tables.old }
    requires fit { IsFitTable leaf.now.setting.problem lines table }
    requires lines { lines + line_total tables.old ≤ MOST_PRICE_LINES }
    ensures same { tables.new ≡ tables.old }
    ensures candidate { IfOk result (λ found. IfSome found (IsCandidate leaf.now tables.old)) }
    ensures lines { IfOk result (λ found. IfSome found (λ c. line_count c.table ≤ lines)) }
{
    let id = tables.list().len() as u32 + 1;
    let kind = Kind::Table { id };
    tables.push(table)?;
    let bound = leaf.bound(alloc, tables.list(), kind, forced);
    let table = tables.pop();
    match bound? {
        LeafBound::Value { value } => Ok(Some(Candidate {
            table,
            start: Start {
                kind,
                forced,
                value,
            },
        })),
        LeafBound::Empty { .. } => Ok(None),
    }
}

// A table in a mode, of at most so many price lines, which are left, by which the leaf is worth more
// than by a start. The tables are as before.
fn better_in_mode<D: Deadline>(
    resources: &Resources<D>,
    leaf: &Leaf,
    search: &mut Search,
    lines: u32,
    tables: &mut Tables,
    start: Start,
    forced: bool,
) -> Result<Option<Candidate>, NoMemory>
    requires tables { AreTables leaf.now.setting.problem tables.old }
    requires lines { lines + line_total tables.old ≤ MOST_PRICE_LINES }
    ensures same { tables.new ≡ tables.old }
    ensures better { IfOk result (λ found. IfSome found (IsBetter leaf.now tables.old lines start)) }
{
    let Some(table) = search.table(resources, tables.list(), start, forced, lines)? else {
        return Ok(None);
    };
    if !is_fit(leaf.round().instance(), &table, lines) {
        return Ok(None);
    }
    match prices_by(resources.alloc, leaf, tables, table, lines, forced)? {
        Some(found) if search.is_worth(found.start.value, start.value) => Ok(Some(found)),
        _ => Ok(None),
    }
}

// The one by which the leaf is worth more, where there are two.
fn better_of(first: Option<Candidate>, second: Option<Candidate>) -> Option<Candidate>
    ensures one { (result ≡ first) ⊎ (result ≡ second) }
    ensures first { IsNoBetter first result }
    ensures second { IsNoBetter second result }
{
    match (first, second) {
        (Some(one), Some(other)) => {
            if other.start.value > one.start.value {
                Some(other)
            } else {
                Some(one)
            }
        }
        (None, other) => other,
        (one, None) => one,
    }
}

/// A table of at most so many price lines by which a leaf is worth more than by a start, in one of
/// the two modes. The tables are as before.
pub(crate) fn better_table<D: Deadline>(
    resources: &Resources<D>,
    leaf: &Leaf,
    search: &mut Search,
    room: u32,
    tables: &mut Tables,
    start: Start,
) -> Result<Option<Candidate>, NoMemory>
    requires tables { AreTables leaf.now.setting.problem tables.old }
    ensures same { tables.new ≡ tables.old }
    ensures better { IfOk result (λ found. IfSome found (IsBetter leaf.now tables.old room start)) }
{
    let lines = search.lines(tables.left().min(room));
    let same = better_in_mode(resources, leaf, search, lines, tables, start, start.forced)?;
    if !search.modes_differ() {
        return Ok(same);
    }
    let other = better_in_mode(resources, leaf, search, lines, tables, start, !start.forced)?;
    Ok(better_of(same, other))
}
