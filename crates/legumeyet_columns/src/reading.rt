//! Records read one by one.

ghost use Rattle.std.specs.Prelude.{◌≡◌, ◌≢◌, ◌+◌, ◌<◌, ◌≤◌, ℕ, List, Some, ◌++◌, true, false, IfOk, IfSome, OnOk, drop, length, take};
ghost use Rattle.std.specs.Io.BufRead.{drop_through, take_through};
ghost use Rattle.std.specs.Io.KnownBytes.{IsAtEnd};
ghost use Rattle.std.specs.Io.Buffered.{reader_remaining};
ghost use Rattle.memchr.specs.Find.{IsFirstByte, is_byte};
ghost use Rattle.legumeyet_columns.specs.Marks.{mark_of, without_mark};
ghost use Rattle.legumeyet_columns.specs.Places.{after_all, after_record, first_record, is_quoted, left_after, rest_of};
ghost use Rattle.legumeyet_columns.specs.RowsWritten.{is_open};
ghost use Rattle.legumeyet_columns.specs.declared.dialect.Place.TheVariants.{Front};

use crate::dialect::{Dialect, Place};
use crate::fields::{tail, without_mark};
use memchr::{memchr, memchr2};
use std::io::{self, BufRead, BufReader, Read};

// What was read.
#[derive(Clone, Copy, Debug, PartialEq, Eq)]
pub enum Found {
    /// Nothing: the input has ended.
    End,
    /// A record, with the end of its line where it has one.
    Record,
    /// What is left of the input: a quote in it does not end.
    Open,
    /// The beginning of a record with more bytes than [`LONGEST`], in which a quote has not ended yet.
    Long,
}

/// How many bytes a record may have before a line feed in quotes is no longer read over: 16 MiB.
pub const LONGEST: usize = 16_777_216;

// How many bytes there are.
fn count_of(row: &Vec<u8>) -> usize
    ensures value { result ≡ length row.now.items }
{
    row.len()
}

// Reads a line after what `row` has, and returns how many bytes it has.
fn read_line<R: Read>(reader: &mut BufReader<R>, row: &mut Vec<u8>) -> io::Result<usize>
    ensures line { OnOk result ((bytes : List ℕ) → reader_remaining R.remaining reader.old ≡ Some bytes
        → (row.new.items ≡ row.old.items ++ take_through 10 bytes)
        × (reader_remaining R.remaining reader.new ≡ Some (drop_through 10 bytes))) }
    ensures count { IfOk result (λ count. length row.new.items ≡ length row.old.items + count) }
    ensures over { IfOk result (λ count. count ≡ 0 → IsAtEnd (reader_remaining R.remaining reader.old)) }
{
    reader.read_until(b'\n', row)
}

// Reads the lines that belong to the record, of which `row` has the first ones, after which the place is this one.
fn read_rest<R: Read>(
    dialect: Dialect,
    place: Place,
    reader: &mut BufReader<R>,
    row: &mut Vec<u8>,
) -> io::Result<Found>
    ensures bytes { IfOk result (λ found. found ≢ Found.Long
        → (bytes : List ℕ) → reader_remaining R.remaining reader.old ≡ Some bytes
        → (row.new.items ≡ row.old.items ++ rest_of dialect place bytes)
        × (reader_remaining R.remaining reader.new ≡ Some (left_after dialect place bytes))) }
    ensures found { IfOk result (λ found. found ≢ Found.End) }
    ensures some { OnOk result (length row.old.items ≤ length row.new.items) }
{
    let mut place = place;
    'line: while place.is_quoted() {
        let start = count_of(row);
        if start > LONGEST {
            return Ok(Found::Long);
        }
        if read_line(reader, row)? == 0 {
            return Ok(Found::Open);
        }
        place = dialect.after_all(place, tail(row, start));
    }
    Ok(Found::Record)
}

// Where the line feed of the first line of bytes is, where they have one and the line is a record.
fn closing_feed(dialect: Dialect, bytes: &[u8]) -> Option<usize>
    ensures feed { IfSome result (λ at. IsFirstByte (is_byte 10) bytes.now (Some at)) }
    ensures closed { IfSome result (λ at. is_open dialect (take (at + 1) bytes.now) ≡ false) }
{
    let at = memchr2(b'\n', b'"', bytes)?;
    if bytes[at] == b'\n' {
        return Some(at);
    }
    let at = memchr(b'\n', bytes)?;
    if dialect.place_after(&bytes[..at + 1]).is_quoted() {
        return None;
    }
    Some(at)
}

// The first record of bytes, where it is a line of them.
pub(crate) fn ready_record(dialect: Dialect, bytes: &[u8]) -> Option<&[u8]>
    ensures record { IfSome result (λ row. (more : List ℕ) → row.now ≡ first_record dialect Front (bytes.now ++ more)) }
    ensures left { IfSome result (λ row. (more : List ℕ)
        → after_record dialect Front (bytes.now ++ more) ≡ drop (length row.now) (bytes.now ++ more)) }
    ensures some { IfSome result (λ row. 0 < length row.now) }
    ensures bound { IfSome result (λ row. length row.now ≤ length bytes.now) }
    ensures closed { IfSome result (λ row. is_open dialect row.now ≡ false) }
{
    let at = closing_feed(dialect, bytes)?;
    Some(&bytes[..at + 1])
}

/// Reads a record into `row`, with the end of its line: `1,2` and a line feed.
///
/// Allocates. `io::Error`: a read failed, or out of memory.
pub fn read_record<R: Read>(
    dialect: Dialect,
    reader: &mut BufReader<R>,
    row: &mut Vec<u8>,
) -> io::Result<Found>
    ensures bytes { IfOk result (λ found. found ≢ Found.Long
        → (bytes : List ℕ) → reader_remaining R.remaining reader.old ≡ Some bytes
        → (row.new.items ≡ first_record dialect Front bytes)
        × (reader_remaining R.remaining reader.new ≡ Some (after_record dialect Front bytes))) }
    ensures over { IfOk result (λ found. found ≡ Found.End → IsAtEnd (reader_remaining R.remaining reader.old)) }
    ensures some { IfOk result (λ found. found ≢ Found.End → 0 < length row.new.items) }
{
    row.clear();
    if read_line(reader, row)? == 0 {
        return Ok(Found::End);
    }
    let place = dialect.place_after(row);
    let found = read_rest(dialect, place, reader, row)?;
    Ok(found)
}

/// Reads the first record of a text, with the byte order mark in front of it where it has one, which is no part of it.
///
/// Allocates. `io::Error`: a read failed, or out of memory.
pub fn read_first_record<R: Read>(
    dialect: Dialect,
    reader: &mut BufReader<R>,
    row: &mut Vec<u8>,
) -> io::Result<Found>
    ensures bytes { IfOk result (λ found. found ≢ Found.Long
        → (bytes : List ℕ) → reader_remaining R.remaining reader.old ≡ Some bytes
        → (row.new.items ≡ mark_of bytes ++ first_record dialect Front (without_mark bytes))
        × (reader_remaining R.remaining reader.new ≡ Some (after_record dialect Front (without_mark bytes)))) }
    ensures over { IfOk result (λ found. found ≡ Found.End → IsAtEnd (reader_remaining R.remaining reader.old)) }
    ensures some { IfOk result (λ found. found ≢ Found.End → 0 < length row.new.items) }
{
    row.clear();
    if read_line(reader, row)? == 0 {
        return Ok(Found::End);
    }
    let place = dialect.place_after(without_mark(row));
    let found = read_rest(dialect, place, reader, row)?;
    Ok(found)
}
