//! The fields of a record.

ghost use Rattle.std.specs.Prelude.{◌≡◌, ◌+◌, ◌<◌, ◌≤◌, length, take, drop, MatchOption};
ghost use Rattle.std.specs.Io.BufRead.{strip_last};
ghost use Rattle.legumeyet_columns.specs.Marks.{without_mark};
ghost use Rattle.legumeyet_columns.specs.Places.{field_length, plain_length};
ghost use Rattle.legumeyet_columns.specs.Records.{body_of};
ghost use Rattle.legumeyet_columns.specs.declared.dialect.Place.TheVariants.{Front};

use crate::dialect::{Dialect, Place};
use crate::texts::is_in_quotes;

// How many bytes are in front of the first delimiter.
fn plain_length(dialect: Dialect, bytes: &[u8]) -> usize
    ensures value { result ≡ plain_length dialect bytes.now }
    ensures bound { result ≤ length bytes.now }
{
    for (index, byte) in bytes.iter().enumerate() {
        if *byte == dialect.delimiter {
            return index;
        }
    }
    bytes.len()
}

// How many bytes are in front of the first delimiter that ends a field, by the place of each.
fn placed_length(dialect: Dialect, bytes: &[u8]) -> usize
    ensures value { result ≡ field_length dialect Front bytes.now }
    ensures bound { result ≤ length bytes.now }
{
    let mut place = Place::Front;
    for (index, byte) in bytes.iter().enumerate() {
        if dialect.ends_field(place, *byte) {
            return index;
        }
        place = dialect.after(place, *byte);
    }
    bytes.len()
}

// The same, by the delimiters alone where the field is not in quotes.
fn field_length(dialect: Dialect, bytes: &[u8]) -> usize
    ensures value { result ≡ field_length dialect Front bytes.now }
    ensures bound { result ≤ length bytes.now }
{
    if is_in_quotes(dialect, bytes) {
        placed_length(dialect, bytes)
    } else {
        plain_length(dialect, bytes)
    }
}

/// The first field of a record, as it stands, and what follows its delimiter where it has one: `1` and `2,3` of `1,2,3`.
///
/// It does not allocate.
pub fn split_field(dialect: Dialect, row: &[u8]) -> (&[u8], Option<&[u8]>)
    ensures field { result.0.now ≡ take (field_length dialect Front row.now) row.now }
    ensures rest { MatchOption result.1
        (field_length dialect Front row.now ≡ length row.now)
        (λ rest. (field_length dialect Front row.now < length row.now)
        × (rest.now ≡ drop (field_length dialect Front row.now + 1) row.now)) }
{
    let end = field_length(dialect, row);
    if end < row.len() {
        (&row[..end], Some(&row[end + 1..]))
    } else {
        (row, None)
    }
}

// A text without its last byte, where that is this one.
fn without_last(byte: u8, text: &[u8]) -> &[u8]
    ensures value { result.now ≡ strip_last byte text.now }
{
    match text.split_last() {
        Some((last, rest)) if *last == byte => rest,
        _ => text,
    }
}

/// A record without the end of its line: `1,2` of `1,2`, a carriage return and a line feed. It does not allocate.
pub fn body_of(row: &[u8]) -> &[u8]
    ensures value { result.now ≡ body_of row.now }
{
    match row.split_last() {
        Some((b'\n', rest)) => without_last(b'\r', rest),
        _ => row,
    }
}

/// A text without the byte order mark in front of it, where it has one. It does not allocate.
pub fn without_mark(text: &[u8]) -> &[u8]
    ensures value { result.now ≡ without_mark text.now }
{
    match text {
        [0xEF, 0xBB, 0xBF, rest @ ..] => rest,
        _ => text,
    }
}

// What is after so many bytes.
pub fn tail(bytes: &[u8], start: usize) -> &[u8]
    requires bound { start ≤ length bytes.now }
    ensures value { result.now ≡ drop start bytes.now }
{
    &bytes[start..]
}
