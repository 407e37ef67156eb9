//! Which call a row asks for.

use crate::answers::{book_bytes, book_of, put_answer, put_beginnings, put_verdict};
use crate::repeated::repeated;
use crate::{
    faults, formatters, one_by_one, plain, repeated, runs, sent_back, shouter, starts, tracked,
    world,
};
use locale_numbers::Book;
use rows::{Stop, Table, unescaped};
use std::alloc::Global;
use std::rt::Files;

/// The table of the calls of `locale_numbers`, and the files that are there.
#[derive(Drop)]
pub struct Calls<'r, F> {
    pub files: &'r F,
    pub alloc: Global,
}

impl<F: Files> Table for Calls<'_, F> {
    fn answer(&self, row: &str, out: &mut String) -> Result<(), Stop> {
        let fields: Vec<&str> = row.split('\t').collect(self.alloc)?;
        let answered = answer_fields(self.files, fields.as_slice(), out);
        drop(fields);
        answered
    }
}

// The answer of a row taken apart, whose last field is read as bytes.
fn answer_fields<F: Files>(files: &F, fields: &[&str], out: &mut String) -> Result<(), Stop> {
    let Some((call, passed)) = fields.split_first() else {
        return Err(Stop::Unknown);
    };
    let last = passed.last().unwrap_or(call);
    let bytes = bytes_of(*out.allocator(), call, last)?;
    let answered = answer_by(files, call, passed, bytes.as_slice(), out);
    drop(bytes);
    answered
}

// The bytes that the last field of a call stands for.
fn bytes_of(alloc: Global, call: &str, field: &str) -> Result<Vec<u8>, Stop> {
    match call {
        "from_json" | "from_json_beginnings" => book_bytes(alloc, field),
        "run_long" => repeated(alloc, field),
        _ => unescaped(alloc, field),
    }
}

// The answer of a call, whose last field stands for bytes.
fn answer_by<F: Files>(
    files: &F,
    call: &str,
    passed: &[&str],
    bytes: &[u8],
    out: &mut String,
) -> Result<(), Stop> {
    match call {
        "program" => starts::answer(files, passed, bytes, out),
        "read_words" => starts::put_words(passed, out),
        "run_with" => shouter::answer(passed, bytes, out),
        "from_json" if passed.len() == 1 => put_verdict(bytes, out),
        "from_json_beginnings" if passed.len() == 1 => put_beginnings(bytes, out),
        "tracked_read" if passed.is_empty() => tracked::read(out),
        "tracked_write" if passed.len() == 1 => tracked::write(bytes, out),
        "world_text" if passed.is_empty() => world::put_digest(out),
        "tracked_flush" => tracked::flush(passed, out),
        "answer_sized" => plain::answer_sized(passed, out),
        "check" => plain::check(passed, out),
        "BookError" | "RunError" | "ProgramFault" | "ByteReadFault" | "ByteWriteFault" => {
            faults::answer(call, passed, out)
        }
        _ => answer_under(call, passed, bytes, out),
    }
}

/// The answer of a call under the book that the first field names, or says.
pub fn answer_under(
    call: &str,
    fields: &[&str],
    bytes: &[u8],
    out: &mut String,
) -> Result<(), Stop> {
    let Some((book, passed)) = fields.split_first() else {
        return Err(Stop::Unknown);
    };
    let book = book_of(*out.allocator(), book)?;
    let answered = answer_of_book(&book, call, passed, bytes, out);
    drop(book);
    answered
}

fn answer_of_book(
    book: &Book,
    call: &str,
    passed: &[&str],
    bytes: &[u8],
    out: &mut String,
) -> Result<(), Stop> {
    match passed {
        [_] if call == "answer" => put_answer(book, bytes, out),
        [_] if call == "sent_back" => sent_back::answer(book, bytes, out),
        [capacity, _] if call == "answers" || call == "answers_without_units" => {
            one_by_one::answer(book, call, capacity, bytes, out)
        }
        [input, _] if call == "run_long" => repeated::answer(book, input, bytes, out),
        [tag, number] if call.ends_with("formatter") => {
            formatters::answer(book, call, tag, number, out)
        }
        _ => runs::answer(book, call, passed, bytes, out),
    }
}
