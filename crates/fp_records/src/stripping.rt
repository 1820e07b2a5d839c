//! What is kept of a record: its fields without blanks at their ends, up to the last that is not
//! empty then.

ghost use Rattle.std.specs.Prelude.{◌≡◌, ◌<◌, ◌≤◌, length, slice_get, Some};
ghost use Rattle.std.specs.List.{prefix_len, suffix_len};
ghost use Rattle.csv.specs.Records.{fields_of};
ghost use Rattle.fp_records.specs.Fields.{is_blank, kept_count, stripped};

use csv::ByteRecord;

fn is_space_or_tab(byte: u8) -> bool
    ensures { result ≡ is_blank byte }
{
    byte == b' ' || byte == b'\t'
}

// How many blanks a field starts with.
fn front_blanks(field: &[u8]) -> usize
    ensures count { result ≡ prefix_len is_blank field.now }
    ensures bound { result ≤ length field.now }
{
    field.iter().take_while(|b| is_space_or_tab(**b)).count()
}

// How many blanks a field ends with.
fn back_blanks(field: &[u8]) -> usize
    ensures count { result ≡ suffix_len is_blank field.now }
    ensures bound { result ≤ length field.now }
{
    field
        .iter()
        .rev()
        .take_while(|b| is_space_or_tab(**b))
        .count()
}

/// The field with no blank at either end.
pub(crate) fn strip(field: &[u8]) -> &[u8]
    ensures { result.now ≡ stripped field.now }
{
    let rest = &field[front_blanks(field)..];
    &rest[..rest.len() - back_blanks(rest)]
}

/// The field at a place.
pub(crate) fn field_of(row: &ByteRecord, at: usize) -> &[u8]
    requires { at < length (fields_of row.now) }
    ensures { slice_get (fields_of row.now) at ≡ Some result.now }
{
    match row.get(at) {
        Some(field) => field,
        None => &[],
    }
}

/// How many fields are kept of a record: those up to the last with something besides blanks.
pub(crate) fn kept_len(row: &ByteRecord) -> usize
    ensures count { result ≡ kept_count (fields_of row.now) }
    ensures bound { result ≤ length (fields_of row.now) }
{
    let len = row.len();
    'fields: for k in 0..len {
        if !strip(field_of(row, len - k - 1)).is_empty() {
            return len - k;
        }
    }
    0
}
