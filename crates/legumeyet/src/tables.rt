//! The table of standard input, with the chosen fields written anew.

use crate::asking::word;
use crate::column_words::{
    FieldWord, TWICE, field_said, index_said, is_named, numbers_of, table_said,
};
use crate::columns::{Column, Columns};
use crate::fault::CallFault;
use crate::report::{tell_field_word, tell_long};
use crate::sayers::sayer_of;
use clap::ArgMatches;
use legumeyet_columns::{
    Buffers, Dialect, TableAsked, TableFault, body_of, is_in_quotes, is_last, put_row, put_rows,
    read_first_row, read_row, split_field, unquoted, without_mark,
};
use legumeyet_options::{KeptSayer, NumbersAsked};
use locale_numbers_book::Book;
use std::alloc::Global;
use std::io::{BufReader, Read, Write};

// Whether a field of the header has this name.
fn has_name(alloc: Global, dialect: Dialect, field: &[u8], name: &str) -> Result<bool, CallFault> {
    if !is_in_quotes(dialect, field) {
        return Ok(field == name.as_bytes());
    }
    match unquoted(alloc, field) {
        Ok(Some(text)) => Ok(text.as_slice() == name.as_bytes()),
        Ok(None) => Ok(false),
        Err(_) => Err(CallFault::MEMORY),
    }
}

// The index of the first field of a header that has this name.
fn index_named(
    alloc: Global,
    dialect: Dialect,
    header: &[u8],
    name: &str,
) -> Result<Option<usize>, CallFault> {
    let mut left = header;
    let mut index = 0usize;
    'field: loop {
        let (field, rest) = split_field(dialect, left);
        if has_name(alloc, dialect, field, name)? {
            return Ok(Some(index));
        }
        let Some(rest) = rest else {
            return Ok(None);
        };
        left = rest;
        index = index.saturating_add(1);
    }
}

// A table, and what is asked of it.
#[derive(Clone, Copy)]
struct Table<'m, 'a> {
    rt: &'m HostRuntime,
    book: &'m Book,
    matches: &'m ArgMatches<'a>,
    tag: &'m str,
    numbers: &'m NumbersAsked,
    asked: TableAsked,
}

// The index of a field that is chosen; `None` where no field of the header has its name.
fn index_of(
    table: &Table<'_, '_>,
    header: Option<&[u8]>,
    field: &FieldWord<'_>,
) -> Result<Option<usize>, CallFault> {
    if !is_named(field) {
        return Ok(index_said(field));
    }
    match header {
        Some(header) => index_named(table.rt.alloc(), table.asked.dialect, header, field.name),
        None => Ok(None),
    }
}

// Whether the field of this index is chosen.
fn is_chosen(columns: &[Column<'_>], index: usize) -> bool {
    for column in columns {
        if column.index == index {
            return true;
        }
    }
    false
}

// Puts a field that is chosen, with what says its texts, after others; or returns why it is wrong.
fn put_column<'m>(
    table: &Table<'m, '_>,
    header: Option<&[u8]>,
    word: &str,
    columns: &mut Vec<Column<'m>>,
) -> Result<Option<&'static str>, CallFault> {
    let field = field_said(word);
    let Some(index) = index_of(table, header, &field)? else {
        return Ok(Some("the header has no field of this name"));
    };
    if is_chosen(columns.as_slice(), index) {
        return Ok(Some(TWICE));
    }
    let Ok(asked) = numbers_of(table.matches, table.numbers, &field) else {
        return Ok(Some("this is no skeleton"));
    };
    let sayer = sayer_of(table.rt.alloc(), table.book, table.tag, &asked)?;
    let sayer = KeptSayer::new(sayer);
    match columns.push(Column { index, sayer }) {
        Ok(()) => Ok(None),
        Err(_) => Err(CallFault::MEMORY),
    }
}

// Puts the fields that are chosen, and returns whether all are right; else that is told.
fn put_columns<'m>(
    table: &Table<'m, '_>,
    header: Option<&[u8]>,
    words: &[&str],
    columns: &mut Vec<Column<'m>>,
) -> Result<bool, CallFault> {
    for word in words {
        if let Some(why) = put_column(table, header, word, columns)? {
            tell_field_word(table.rt, word, why);
            return Ok(false);
        }
    }
    Ok(true)
}

// How many first records are a header: what `--header` says, else one where a field is chosen by its name.
fn headers_said(matches: &ArgMatches<'_>, words: &[&str]) -> u16 {
    match matches.get_str("header") {
        Some(word) => word.parse::<u16>().unwrap_or(0),
        None if words.iter().any(|word| is_named(&field_said(word))) => 1,
        None => 0,
    }
}

// Writes bytes as they are.
fn put_bytes<W: Write>(bytes: &[u8], out: &mut W) -> Result<(), TableFault> {
    match out.write_all(bytes) {
        Ok(()) => Ok(()),
        Err(error) => Err(TableFault::Write(error)),
    }
}

// Writes a table without a header, of which this is the first record, and returns whether something is refused.
fn put_plain<R: Read, W: Write>(
    asked: &TableAsked,
    sayer: &Columns<'_, '_>,
    first: &[u8],
    reader: &mut BufReader<R>,
    out: &mut W,
) -> Result<bool, TableFault> {
    let alloc = sayer.rt.alloc();
    let mut buffers = Buffers::new(alloc);
    let is_refused = put_row(alloc, asked, sayer, 1, first, &mut buffers, out)?;
    if is_last(asked.on_refusal, is_refused) {
        return Ok(is_refused);
    }
    let are_others = put_rows(alloc, asked, sayer, 2, reader, out)?;
    Ok(is_refused || are_others)
}

// Writes so many records of a header as they are, but the first, and those after them, and returns whether something is
// refused.
fn put_headed<R: Read, W: Write>(
    asked: &TableAsked,
    sayer: &Columns<'_, '_>,
    headers: u16,
    reader: &mut BufReader<R>,
    out: &mut W,
) -> Result<bool, TableFault> {
    let alloc = sayer.rt.alloc();
    let mut row = Vec::new(alloc);
    for before in 1..headers {
        let number = u64::from(before).saturating_add(1);
        if !read_row(asked.dialect, number, reader, &mut row)? {
            return Ok(false);
        }
        put_bytes(row.as_slice(), out)?;
    }
    let first = u64::from(headers).saturating_add(1);
    put_rows(alloc, asked, sayer, first, reader, out)
}

const MARK: &[u8] = b"\xEF\xBB\xBF";

// Writes the byte order mark where this record has one in front of it.
fn put_mark<W: Write>(row: &[u8], out: &mut W) -> Result<(), TableFault> {
    if without_mark(row).len() < row.len() {
        put_bytes(MARK, out)?;
    }
    Ok(())
}

// What says the texts of these fields.
fn sayer_by<'m, 'a>(
    rt: &'m HostRuntime,
    tag: &'m str,
    round: &'m str,
    columns: &'m [Column<'a>],
) -> Columns<'m, 'a> {
    Columns {
        rt,
        tag,
        round,
        columns,
    }
}

// Writes a table by what says its texts, of which this is the first record, and returns whether something is refused.
fn put_said_by<R: Read, W: Write>(
    asked: &TableAsked,
    sayer: &Columns<'_, '_>,
    headers: u16,
    row: &[u8],
    reader: &mut BufReader<R>,
    out: &mut W,
) -> Result<bool, TableFault> {
    put_mark(row, out)?;
    let first = without_mark(row);
    if headers == 0 {
        return put_plain(asked, sayer, first, reader, out);
    }
    put_bytes(first, out)?;
    put_headed(asked, sayer, headers, reader, out)
}

// The first record, where it is a header.
fn header_of(headers: u16, row: &[u8]) -> Option<&[u8]> {
    if headers == 0 {
        None
    } else {
        Some(body_of(without_mark(row)))
    }
}

// The status of a table of which so much is written.
fn status_of(rt: &HostRuntime, done: Result<bool, TableFault>) -> Result<u8, CallFault> {
    match done {
        Ok(is_refused) => Ok(u8::from(is_refused)),
        Err(TableFault::Read(error)) => Err(CallFault::of_read(error)),
        Err(TableFault::Write(error)) => Err(CallFault::Write(error)),
        Err(TableFault::Memory) => Err(CallFault::MEMORY),
        Err(TableFault::Long(number)) => Ok(tell_long(rt, number)),
    }
}

// Writes a table with these fields chosen, of which this is the first record, and returns whether something is refused.
fn put_chosen<R: Read, W: Write>(
    rt: &HostRuntime,
    tag: &str,
    round: &str,
    columns: &[Column<'_>],
    asked: &TableAsked,
    headers: u16,
    row: &[u8],
    reader: &mut BufReader<R>,
    out: &mut W,
) -> Result<bool, TableFault> {
    let sayer = sayer_by(rt, tag, round, columns);
    put_said_by(asked, &sayer, headers, row, reader, out)
}

// Writes a table of which this is the first record, with the byte order mark in front of it where there is one, and returns
// the status.
fn put_begun<R: Read, W: Write>(
    table: &Table<'_, '_>,
    row: &[u8],
    reader: &mut BufReader<R>,
    out: &mut W,
) -> Result<u8, CallFault> {
    let Some(words) = table.matches.get_strs("field") else {
        return Ok(0);
    };
    let headers = headers_said(table.matches, words);
    let mut columns = Vec::new(table.rt.alloc());
    if !put_columns(table, header_of(headers, row), words, &mut columns)? {
        return Ok(2);
    }
    let round = word(table.matches, "round", "-");
    let done = put_chosen(
        table.rt,
        table.tag,
        round,
        columns.as_slice(),
        &table.asked,
        headers,
        row,
        reader,
        out,
    );
    status_of(table.rt, done)
}

// Writes the table that a reader has, and returns the status.
fn put_read<R: Read, W: Write>(
    table: &Table<'_, '_>,
    reader: &mut BufReader<R>,
    out: &mut W,
) -> Result<u8, CallFault> {
    let mut row = Vec::new(table.rt.alloc());
    match read_first_row(table.asked.dialect, reader, &mut row) {
        Ok(true) => put_begun(table, row.as_slice(), reader, out),
        other => status_of(table.rt, other),
    }
}

/// Writes the table of standard input, with the fields that the words choose written anew, and returns the status: 1 where
/// something is refused.
pub fn put_table<W: Write>(
    rt: &HostRuntime,
    book: &Book,
    matches: &ArgMatches<'_>,
    tag: &str,
    numbers: &NumbersAsked,
    out: &mut W,
) -> Result<u8, CallFault> {
    let Some(asked) = table_said(matches) else {
        return Ok(2);
    };
    let Ok(mut reader) = BufReader::new(rt.alloc(), rt.stdin()) else {
        return Err(CallFault::MEMORY);
    };
    let table = Table {
        rt,
        book,
        matches,
        tag,
        numbers,
        asked,
    };
    put_read(&table, &mut reader, out)
}
