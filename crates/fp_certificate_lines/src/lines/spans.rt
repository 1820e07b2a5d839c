//! Lines `span,FROM,TO,POINT,UNTIL,MONEY,CHARGE`, each followed by its weights and then its groups.
ghost use Rattle.std.specs.Prelude.{◌≡◌, ◌++◌, ◌<◌, All, false, length, map, OnOk};
ghost use Rattle.std.specs.List.{flat_map};
ghost use Rattle.fp_records.specs.Text.{line_of, lines_of};
ghost use Rattle.fp_certificate_lines.specs.Ranges.{SpanExists};
ghost use Rattle.fp_certificate_lines.specs.Rows.{span_fields, span_rows};

use crate::NoMemory;
use crate::lines::groups::write_groups;
use crate::lines::names::write_ends;
use crate::lines::weights::write_weights;
use fp_model::Instance;
use fp_prices_spans::Span;
use fp_records::Line;

// Adds the line of a span, without its weights and groups.
fn write_run(line: &mut Line, instance: &Instance, span: &Span) -> Result<(), NoMemory>
    requires begun { line.old.begun ≡ false }
    requires exists { span.now.arc < length instance.now.arcs }
    ensures text { OnOk result (line.new.text ≡ line.old.text ++ line_of (span_fields instance.now span.now)) }
    ensures ended { OnOk result (line.new.begun ≡ false) }
{
    line.word(b"span")?;
    write_ends(line, instance, span.arc)?;
    line.number(u128::from(span.point))?;
    line.number(u128::from(span.until))?;
    line.number(span.money)?;
    line.number(span.charge)?;
    line.end()
}

// Adds the line of a span, followed by its weights and its groups.
fn write_span(line: &mut Line, instance: &Instance, span: &Span) -> Result<(), NoMemory>
    requires begun { line.old.begun ≡ false }
    requires exists { SpanExists instance.now span.now }
    ensures text { OnOk result (line.new.text ≡ line.old.text ++ lines_of (span_rows instance.now span.now)) }
    ensures ended { OnOk result (line.new.begun ≡ false) }
{
    write_run(line, instance, span)?;
    write_weights(line, instance, &span.weights)?;
    write_groups(line, &span.groups)
}

/// Adds the lines of spans, each followed by its weights and its groups.
pub fn write_spans(line: &mut Line, instance: &Instance, spans: &[Span]) -> Result<(), NoMemory>
    requires begun { line.old.begun ≡ false }
    requires exist { All (SpanExists instance.now) spans.now }
    ensures text { OnOk result (line.new.text ≡ line.old.text ++ lines_of (flat_map (span_rows instance.now) spans.now)) }
    ensures ended { OnOk result (line.new.begun ≡ false) }
{
    for span in spans {
        write_span(line, instance, span)?;
    }
    Ok(())
}
