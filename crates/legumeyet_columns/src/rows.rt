//! Records read, each with its number for what is told of it.

ghost use Rattle.std.specs.Prelude.{◌≡◌, ◌<◌, ◌++◌, ℕ, List, Some, true, false, IfOk, length};
ghost use Rattle.std.specs.Io.Buffered.{reader_remaining};
ghost use Rattle.std.specs.Io.KnownBytes.{IsAtEnd};
ghost use Rattle.legumeyet_columns.specs.Marks.{mark_of, without_mark};
ghost use Rattle.legumeyet_columns.specs.Places.{after_record, first_record};
ghost use Rattle.legumeyet_columns.specs.RowsFound.{found_row};
ghost use Rattle.legumeyet_columns.specs.declared.dialect.Place.TheVariants.{Front};

use crate::dialect::Dialect;
use crate::fault::TableFault;
use crate::reading::{Found, read_first_record, read_record};
use std::io::{BufReader, Read};

// Whether a record is there, of this number.
fn found_row(number: u64, found: Found) -> Result<bool, TableFault>
    ensures value { result ≡ found_row number found }
{
    match found {
        Found::End => Ok(false),
        Found::Record => Ok(true),
        Found::Open => Ok(true),
        Found::Long => Err(TableFault::Long(number)),
    }
}

/// Reads a record into `row`, with the end of its line, and returns whether there was one: `1,2` and a line feed. It has this
/// number.
///
/// Allocates. `TableFault`: a read failed, or out of memory, or a quote in it does not end.
pub fn read_row<R: Read>(
    dialect: Dialect,
    number: u64,
    reader: &mut BufReader<R>,
    row: &mut Vec<u8>,
) -> Result<bool, TableFault>
    ensures over { IfOk result (λ is_there. is_there ≡ false → IsAtEnd (reader_remaining R.remaining reader.old)) }
    ensures bytes { IfOk result (λ is_there. is_there ≡ true
        → (bytes : List ℕ) → reader_remaining R.remaining reader.old ≡ Some bytes
        → (row.new.items ≡ first_record dialect Front bytes)
        × (reader_remaining R.remaining reader.new ≡ Some (after_record dialect Front bytes))) }
    ensures some { IfOk result (λ is_there. is_there ≡ true → 0 < length row.new.items) }
{
    match read_record(dialect, reader, row) {
        Ok(found) => found_row(number, found),
        Err(error) => Err(TableFault::Read(error)),
    }
}

/// Reads the first record of a text, with the byte order mark in front of it where it has one, which is no part of it, and
/// returns whether there was one.
///
/// Allocates. `TableFault`: a read failed, or out of memory, or a quote in it does not end.
pub fn read_first_row<R: Read>(
    dialect: Dialect,
    reader: &mut BufReader<R>,
    row: &mut Vec<u8>,
) -> Result<bool, TableFault>
    ensures over { IfOk result (λ is_there. is_there ≡ false → IsAtEnd (reader_remaining R.remaining reader.old)) }
    ensures bytes { IfOk result (λ is_there. is_there ≡ true
        → (bytes : List ℕ) → reader_remaining R.remaining reader.old ≡ Some bytes
        → (row.new.items ≡ mark_of bytes ++ first_record dialect Front (without_mark bytes))
        × (reader_remaining R.remaining reader.new ≡ Some (after_record dialect Front (without_mark bytes)))) }
    ensures some { IfOk result (λ is_there. is_there ≡ true → 0 < length row.new.items) }
{
    match read_first_record(dialect, reader, row) {
        Ok(found) => found_row(1, found),
        Err(error) => Err(TableFault::Read(error)),
    }
}
