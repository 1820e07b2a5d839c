//! The fields of a record.
ghost use Rattle.std.specs.Prelude.{◌≡◌, ◌==◌, length};
ghost use Rattle.fp_records_fields.specs.Fields.{field, has_name, has_number, has_word, is_kind};

use crate::digits::is_number;
use fp_model::is_name;
use fp_records::Record;

/// The field at a place, empty where there is none.
pub fn field_at(line: &Record, place: usize) -> &[u8]
    ensures { result.now ≡ field line.now place }
{
    if place < line.len() {
        line.field(place)
    } else {
        &[]
    }
}

/// Whether the record has so many fields.
pub fn has_fields(line: &Record, count: usize) -> bool
    ensures { result ≡ (length line.now == count) }
{
    line.len() == count
}

/// Whether the record's first field is the word.
pub fn is_of_kind(line: &Record, word: &[u8]) -> bool
    ensures { result ≡ is_kind word.now line.now }
{
    field_at(line, 0) == word
}

/// Whether the field at a place is the word.
pub fn has_word(line: &Record, place: usize, word: &[u8]) -> bool
    ensures { result ≡ has_word word.now line.now place }
{
    field_at(line, place) == word
}

/// Whether the field at a place may be a name.
pub fn has_name(line: &Record, place: usize) -> bool
    ensures { result ≡ has_name line.now place }
{
    is_name(field_at(line, place))
}

/// Whether the field at a place is a number.
pub fn has_number(line: &Record, place: usize) -> bool
    ensures { result ≡ has_number line.now place }
{
    is_number(field_at(line, place))
}
