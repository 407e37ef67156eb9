//! Tables written, record by record.

ghost use Rattle.std.specs.Prelude.{◌≡◌, ℕ, List, Some, None, IfOk, IfSome, OnOk};
ghost use Rattle.std.specs.Io.Buffered.{reader_remaining};
ghost use Rattle.std.specs.Io.KnownBytes.{Appends, IsAtEnd, Keeps};
ghost use Rattle.legumeyet_columns.specs.RowsWritten.{WritesFirst, table_refused, table_written};

use crate::asked::TableAsked;
use crate::buffers::Buffers;
use crate::fault::TableFault;
use crate::field_sayer::FieldSayer;
use crate::reading::ready_record;
use crate::row_writing::{either, is_last, put_known_row, put_row};
use crate::rows::read_row;
use std::alloc::Global;
use std::io::{self, BufRead, BufReader, Read, Write};

// Writes out what is written so far: what is to come may be long in coming.
fn flush<W: Write>(out: &mut W) -> Result<(), TableFault>
    ensures same { OnOk result (Keeps (W.contents out.old) (W.contents out.new)) }
{
    match out.flush() {
        Ok(()) => Ok(()),
        Err(error) => Err(TableFault::Write(error)),
    }
}

// Writes what is written for the next record, and returns whether something of it is refused; `None` where there is none.
// Where the reader's buffer has not all of it, what was written before is written out first.
fn put_next<S: FieldSayer, R: Read, W: Write>(
    alloc: Global,
    asked: &TableAsked,
    sayer: &S,
    number: u64,
    reader: &mut BufReader<R>,
    buffers: &mut Buffers,
    out: &mut W,
) -> Result<Option<bool>, TableFault>
    ensures row { IfOk result (λ done. IfSome done (λ refused. (bytes : List ℕ)
        → reader_remaining R.remaining reader.old ≡ Some bytes
        → WritesFirst asked.now (S.is_chosen sayer.now) (S.said sayer.now) (S.misses sayer.now) bytes refused
        (W.contents out.old) (W.contents out.new) (reader_remaining R.remaining reader.new))) }
    ensures over { IfOk result (λ done. done ≡ None → IsAtEnd (reader_remaining R.remaining reader.old)
        × Keeps (W.contents out.old) (W.contents out.new)) }
{
    if let Some(row) = ready_record(asked.dialect, reader.buffer()) {
        let length = row.len();
        let is_refused = put_known_row(alloc, asked, sayer, number, row, false, buffers, out)?;
        reader.consume(length);
        return Ok(Some(is_refused));
    }
    flush(out)?;
    let mut row = Vec::new(alloc);
    if !read_row(asked.dialect, number, reader, &mut row)? {
        return Ok(None);
    }
    let is_refused = put_row(alloc, asked, sayer, number, row.as_slice(), buffers, out)?;
    Ok(Some(is_refused))
}

/// Writes what is written for the records that a reader has, and returns whether something is refused. The first of them has
/// this number.
///
/// Each is written out as soon as it is there. Allocates. `TableFault`: why not all are written.
pub fn put_rows<S: FieldSayer, R: Read, W: Write>(
    alloc: Global,
    asked: &TableAsked,
    sayer: &S,
    first: u64,
    reader: &mut BufReader<R>,
    out: &mut W,
) -> Result<bool, TableFault>
    ensures output { (input : List ℕ) → reader_remaining R.remaining reader.old ≡ Some input
        → OnOk result (Appends (W.contents out.old) (W.contents out.new)
        (table_written asked.now (S.is_chosen sayer.now) (S.said sayer.now) (S.misses sayer.now) input)) }
    ensures refused { (input : List ℕ) → reader_remaining R.remaining reader.old ≡ Some input
        → IfOk result (λ refused. refused
        ≡ table_refused asked.now (S.is_chosen sayer.now) (S.said sayer.now) (S.misses sayer.now) input) }
{
    let mut buffers = Buffers::new(alloc);
    let mut number = first;
    let mut is_refused = false;
    for _turn in 0..u64::MAX {
        let next = put_next(alloc, asked, sayer, number, reader, &mut buffers, out)?;
        let Some(is_row_refused) = next else {
            return Ok(is_refused);
        };
        is_refused = either(is_refused, is_row_refused);
        if is_last(asked.on_refusal, is_row_refused) {
            return Ok(is_refused);
        }
        number = number.saturating_add(1);
    }
    Err(TableFault::Read(io::Error::other("too many records")))
}
