//! Lines `table,ID` and `table,ID,moments`, each followed by its shares, and by the spans and the
//! gifts beside it.
ghost use Rattle.std.specs.Prelude.{◌≡◌, ◌++◌, [], All, false, slice_index_or, OnOk};
ghost use Rattle.fp_records.specs.Text.{line_of, lines_of};
ghost use Rattle.fp_certificate_lines.specs.Ranges.{GiftExists, ShareExists, SpanExists};
ghost use Rattle.fp_certificate_lines.specs.Rows.{table_fields, table_rows, tables_rows, with_moments};

use crate::NoMemory;
use crate::lines::gifts::write_gifts;
use crate::lines::shares::write_shares;
use crate::lines::spans::write_spans;
use fp_model::Instance;
use fp_prices::Table;
use fp_prices_gifts::{Gift, TableGifts};
use fp_prices_spans::{Span, TableSpans};
use fp_records::Line;

// Adds the field of a table by moments to a line that has been begun, where it is one.
fn write_moments(line: &mut Line, by_moments: bool) -> Result<(), NoMemory>
    ensures { OnOk result (line.new ≡ with_moments line.old by_moments) }
{
    if by_moments {
        line.word(b"moments")?;
    }
    Ok(())
}

// Adds `table,ID` or `table,ID,moments`.
fn write_id(line: &mut Line, id: u128, by_moments: bool) -> Result<(), NoMemory>
    requires begun { line.old.begun ≡ false }
    ensures text { OnOk result (line.new.text ≡ line.old.text ++ line_of (table_fields id by_moments)) }
    ensures ended { OnOk result (line.new.begun ≡ false) }
{
    line.word(b"table")?;
    line.number(id)?;
    write_moments(line, by_moments)?;
    line.end()
}

// Adds the line of a table, followed by its shares, and by the spans and the gifts beside it.
fn write_table(
    line: &mut Line,
    instance: &Instance,
    id: u128,
    by_moments: bool,
    table: &Table,
    spans: &[Span],
    gifts: &[Gift],
) -> Result<(), NoMemory>
    requires begun { line.old.begun ≡ false }
    requires shares { All (ShareExists instance.now) table.now }
    requires spans { All (SpanExists instance.now) spans.now }
    requires gifts { All (GiftExists instance.now) gifts.now }
    ensures text { OnOk result (line.new.text ≡ line.old.text ++ lines_of (table_rows instance.now id by_moments table.now spans.now gifts.now)) }
    ensures ended { OnOk result (line.new.begun ≡ false) }
{
    write_id(line, id, by_moments)?;
    write_shares(line, instance, &table.shares)?;
    write_spans(line, instance, spans)?;
    write_gifts(line, instance, gifts)
}

// The spans beside the table at a place, where there is a list for it.
fn spans_at(spans: &[TableSpans], place: usize) -> &[Span]
    ensures { result.now ≡ slice_index_or spans.now place [] }
{
    match spans.get(place) {
        Some(beside) => &beside.spans,
        None => &[],
    }
}

// The gifts beside the table at a place, where there is a list for it.
fn gifts_at(gifts: &[TableGifts], place: usize) -> &[Gift]
    ensures { result.now ≡ slice_index_or gifts.now place [] }
{
    match gifts.get(place) {
        Some(beside) => &beside.gifts,
        None => &[],
    }
}

// Whether the table at a place is by moments, where it is told.
fn moments_at(moments: &[bool], place: usize) -> bool
    ensures { result ≡ slice_index_or moments.now place false }
{
    match moments.get(place) {
        Some(by_moments) => *by_moments,
        None => false,
    }
}

/// Adds the lines of tables, numbered from 1, each followed by its shares, and by the spans and the
/// gifts beside it.
pub fn write_tables(
    line: &mut Line,
    instance: &Instance,
    tables: &[Table],
    spans: &[TableSpans],
    gifts: &[TableGifts],
    moments: &[bool],
) -> Result<(), NoMemory>
    requires begun { line.old.begun ≡ false }
    requires shares { All (All (ShareExists instance.now)) tables.now }
    requires spans { All (All (SpanExists instance.now)) spans.now }
    requires gifts { All (All (GiftExists instance.now)) gifts.now }
    ensures text { OnOk result (line.new.text ≡ line.old.text ++ lines_of (tables_rows instance.now spans.now gifts.now moments.now 1 tables.now)) }
    ensures ended { OnOk result (line.new.begun ≡ false) }
{
    for (place, table) in tables.iter().enumerate() {
        let held = spans_at(spans, place);
        let given = gifts_at(gifts, place);
        let by_moments = moments_at(moments, place);
        let id = place as u128 + 1;
        write_table(line, instance, id, by_moments, table, held, given)?;
    }
    Ok(())
}
