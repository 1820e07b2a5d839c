//! Where what follows an instance begins, and whether it tells a day that is under way.
ghost use Rattle.std.specs.Prelude.{◌≡◌, ◌≤◌, length, not};
ghost use Rattle.std.specs.List.{list_any, prefix_len};
ghost use Rattle.fp_reader.specs.Input.{is_answer};
ghost use Rattle.fp_app_tails.specs.Tails.{begins_tail as begins_tail_of, tells_more as tells_more_of};

use fp_records::Record;
use fp_records_fields::fields::{has_fields, is_of_kind};

// Whether a record is one of a kept leg, or of the present.
fn begins_tail(line: &Record) -> bool
    ensures { result ≡ begins_tail_of line.now }
{
    is_of_kind(line, b"kept") || is_of_kind(line, b"now")
}

// Whether a record tells the present, or when a kept leg arrives.
fn tells_more(line: &Record) -> bool
    ensures { result ≡ tells_more_of line.now }
{
    is_of_kind(line, b"now") || (is_of_kind(line, b"kept") && has_fields(line, 6))
}

/// How many records stand before the first of a kept leg or of the present.
pub fn tail_place(lines: &[Record]) -> usize
    ensures place { result ≡ prefix_len (λ fields. not (begins_tail_of fields)) lines.now }
    ensures within { result ≤ length lines.now }
{
    for (place, line) in lines.iter().enumerate() {
        if begins_tail(line) {
            return place;
        }
    }
    lines.len()
}

// Whether one of the records tells more than a kept leg.
pub(crate) fn tells_day(lines: &[Record]) -> bool
    ensures { result ≡ list_any tells_more_of lines.now }
{
    lines.iter().any(|line| tells_more(line))
}

/// How many records stand before the first `answer`.
pub fn answer_place(lines: &[Record]) -> usize
    ensures place { result ≡ prefix_len (λ fields. not (is_answer fields)) lines.now }
    ensures within { result ≤ length lines.now }
{
    for (place, line) in lines.iter().enumerate() {
        if is_of_kind(line, b"answer") {
            return place;
        }
    }
    lines.len()
}
