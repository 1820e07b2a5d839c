//! Spans beside tables of prices.
ghost use Rattle.std.specs.Prelude.{◌≡◌, ◌≤◌};
ghost use Rattle.fp_prices_spans.specs.SpanKinds.{spans_beside};

use crate::spans::Span;
use fp_prices::Kind;
use std::marker::Model;

/// The spans beside one table of prices. Contracts see their list.
#[derive(Drop)]
pub struct TableSpans {
    pub spans: Vec<Span>,
}

impl Model for TableSpans {
    ghost use Rattle.std.specs.Prelude.{List};
    ghost use Rattle.fp_prices_spans.specs.Spans.{ClassSpan};

    ghost Value = { List ClassSpan };

    ghost view = { λ t. t.spans.items };
}

/// The spans beside the table that a kind of prices names: of the lists, which are for the tables 1,
/// 2 and so on, the one for that table. None beside linear and even prices, and where there is no
/// list for the table.
pub fn spans_beside(spans: &[TableSpans], kind: Kind) -> &[Span]
    ensures { result.now ≡ spans_beside spans.now kind }
{
    match kind {
        Kind::Linear | Kind::Even => &[],
        Kind::Table { id } => match spans.get((id as usize).saturating_sub(1)) {
            Some(beside) => &beside.spans,
            None => &[],
        },
    }
}
