//! Records written.

ghost use Rattle.std.specs.Prelude.{◌≡◌, ◌++◌, ◌||◌, IfOk, OnOk, length};
ghost use Rattle.std.specs.Io.KnownBytes.{Appends};
ghost use Rattle.legumeyet_columns.specs.FieldsWritten.{any_refused, field_written};
ghost use Rattle.legumeyet_columns.specs.Places.{fields_of};
ghost use Rattle.legumeyet_columns.specs.Records.{joined, record_written, written_from, body_of};
ghost use Rattle.legumeyet_columns.specs.RowsWritten.{is_last, is_left_out, is_open, row_refused, row_written};

use crate::asked::{OnRefusal, TableAsked};
use crate::buffers::{Buffers, Texts};
use crate::dialect::Dialect;
use crate::fault::TableFault;
use crate::field_sayer::FieldSayer;
use crate::field_writing::put_field;
use crate::fields::{body_of, split_field, tail};
use std::alloc::{AllocError, Global};
use std::io::Write;

// Whether one or the other is so.
pub fn either(one: bool, other: bool) -> bool
    ensures value { result ≡ (one || other) }
{
    one || other
}

// Whether a quote in a record does not end.
fn is_open(dialect: Dialect, row: &[u8]) -> bool
    ensures value { result ≡ is_open dialect row.now }
{
    dialect.place_after(row).is_quoted()
}

// How many fields a record has, or so many first ones that no other is chosen; and whether one is refused.
#[derive(Clone, Copy)]
struct Fields {
    count: usize,
    is_refused: bool,
}

// Puts the fields of a record without the end of its line.
fn put_fields<S: FieldSayer>(
    alloc: Global,
    asked: &TableAsked,
    sayer: &S,
    number: u64,
    body: &[u8],
    texts: &mut Texts,
    out: &mut Vec<u8>,
) -> Result<Fields, AllocError>
    ensures text { OnOk result (out.new.items ≡ out.old.items ++ joined asked.now.dialect.delimiter
        (written_from (field_written asked.now (S.is_chosen sayer.now) (S.said sayer.now)) 0
        (fields_of asked.now.dialect body.now))) }
    ensures refused { IfOk result (λ fields. fields.is_refused
        ≡ any_refused asked.now (S.is_chosen sayer.now) (S.said sayer.now) 0 (fields_of asked.now.dialect body.now)) }
    ensures misses { IfOk result (λ fields. S.misses sayer.now fields.count
        ≡ S.misses sayer.now (length (fields_of asked.now.dialect body.now))) }
{
    let mut left = body;
    let mut index = 0usize;
    let mut is_refused = false;
    'field: loop {
        if !sayer.misses(index) {
            out.extend_from_slice(left)?;
            return Ok(Fields {
                count: index,
                is_refused,
            });
        }
        let (field, rest) = split_field(asked.dialect, left);
        let is_this_refused = put_field(alloc, asked, sayer, number, index, field, texts, out)?;
        is_refused = either(is_refused, is_this_refused);
        let Some(rest) = rest else {
            return Ok(Fields {
                count: index.saturating_add(1),
                is_refused,
            });
        };
        out.push(asked.dialect.delimiter)?;
        left = rest;
        index += 1;
    }
}

// Tells what is refused of a record with these fields, and returns whether something is.
fn tell_refused<S: FieldSayer>(sayer: &S, number: u64, fields: Fields, unended: bool) -> bool
    ensures value { result ≡ ((unended || fields.is_refused) || S.misses sayer.now fields.count) }
{
    let is_missing = sayer.misses(fields.count);
    if is_missing {
        sayer.tell_missing(number, fields.count);
    }
    if unended {
        sayer.tell_open(number);
    }
    unended || fields.is_refused || is_missing
}

// Puts a record, in which a quote does not end or all do, and returns whether something of it is refused.
fn put_record<S: FieldSayer>(
    alloc: Global,
    asked: &TableAsked,
    sayer: &S,
    number: u64,
    row: &[u8],
    unended: bool,
    texts: &mut Texts,
    out: &mut Vec<u8>,
) -> Result<bool, AllocError>
    requires { unended ≡ is_open asked.now.dialect row.now }
    ensures text { OnOk result (out.new.items ≡ out.old.items ++ record_written asked.now.dialect
        (field_written asked.now (S.is_chosen sayer.now) (S.said sayer.now)) row.now) }
    ensures refused { IfOk result (λ refused. refused
        ≡ row_refused asked.now (S.is_chosen sayer.now) (S.said sayer.now) (S.misses sayer.now) row.now) }
{
    let body = body_of(row);
    let fields = put_fields(alloc, asked, sayer, number, body, texts, out)?;
    out.extend_from_slice(tail(row, body.len()))?;
    Ok(tell_refused(sayer, number, fields, unended))
}

// Whether a record in which something is refused is left out.
fn is_left_out(on_refusal: OnRefusal, is_refused: bool) -> bool
    ensures value { result ≡ is_left_out on_refusal is_refused }
{
    match on_refusal {
        OnRefusal::Empty | OnRefusal::Keep => false,
        OnRefusal::Skip | OnRefusal::Abort => is_refused,
    }
}

/// Whether nothing is written after a record in which something is refused, or nothing is. It does not allocate.
pub fn is_last(on_refusal: OnRefusal, is_refused: bool) -> bool
    ensures value { result ≡ is_last on_refusal is_refused }
{
    match on_refusal {
        OnRefusal::Empty | OnRefusal::Keep | OnRefusal::Skip => false,
        OnRefusal::Abort => is_refused,
    }
}

// Writes what is written for a record, of which it is known whether a quote in it does not end, and returns whether
// something of it is refused.
pub(crate) fn put_known_row<S: FieldSayer, W: Write>(
    alloc: Global,
    asked: &TableAsked,
    sayer: &S,
    number: u64,
    row: &[u8],
    unended: bool,
    buffers: &mut Buffers,
    out: &mut W,
) -> Result<bool, TableFault>
    requires { unended ≡ is_open asked.now.dialect row.now }
    ensures output { OnOk result (Appends (W.contents out.old) (W.contents out.new)
        (row_written asked.now (S.is_chosen sayer.now) (S.said sayer.now) (S.misses sayer.now) row.now)) }
    ensures refused { IfOk result (λ refused. refused
        ≡ row_refused asked.now (S.is_chosen sayer.now) (S.said sayer.now) (S.misses sayer.now) row.now) }
{
    let line = &mut buffers.line;
    line.clear();
    let Ok(is_refused) = put_record(
        alloc,
        asked,
        sayer,
        number,
        row,
        unended,
        &mut buffers.texts,
        line,
    ) else {
        return Err(TableFault::Memory);
    };
    if is_left_out(asked.on_refusal, is_refused) {
        return Ok(is_refused);
    }
    match out.write_all(line.as_slice()) {
        Ok(()) => Ok(is_refused),
        Err(error) => Err(TableFault::Write(error)),
    }
}

/// Writes what is written for a record, and returns whether something of it is refused: a quote in it does not end, a chosen
/// field is refused or is not there.
///
/// Allocates, where the buffers lack room. `TableFault`: the writer failed, or out of memory.
pub fn put_row<S: FieldSayer, W: Write>(
    alloc: Global,
    asked: &TableAsked,
    sayer: &S,
    number: u64,
    row: &[u8],
    buffers: &mut Buffers,
    out: &mut W,
) -> Result<bool, TableFault>
    ensures output { OnOk result (Appends (W.contents out.old) (W.contents out.new)
        (row_written asked.now (S.is_chosen sayer.now) (S.said sayer.now) (S.misses sayer.now) row.now)) }
    ensures refused { IfOk result (λ refused. refused
        ≡ row_refused asked.now (S.is_chosen sayer.now) (S.said sayer.now) (S.misses sayer.now) row.now) }
{
    let unended = is_open(asked.dialect, row);
    put_known_row(alloc, asked, sayer, number, row, unended, buffers, out)
}
