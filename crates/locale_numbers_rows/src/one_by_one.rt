//! Lines that are answered one by one, by formatters that are kept.

use locale_numbers::{Answers, Book, NumberTables, Tables, WithoutUnits};
use rows::{Stop, escaped, number_of, put_text};
use std::num::NonZeroUsize;

// Writes the answers to lines, each with a line feed.
fn put_lines<T: Tables>(
    answers: &mut Answers<'_, T>,
    lines: &[u8],
    out: &mut String,
) -> Result<(), Stop> {
    for line in lines.split(|byte| *byte == b'\n') {
        answers.answer_onto(line, out)?;
        put_text(out, "\n")?;
    }
    Ok(())
}

// Writes how many formatters were made for lines, and their answers in quotes.
fn put_answers<T: Tables>(
    answers: &mut Answers<'_, T>,
    lines: &[u8],
    out: &mut String,
) -> Result<(), Stop> {
    let mut held = String::new(*out.allocator());
    let put = put_lines(answers, lines, &mut held);
    let text = held.into_bytes();
    let put = match put {
        Ok(()) => put_counted(answers.made(), text.as_slice(), out),
        Err(stop) => Err(stop),
    };
    drop(text);
    put
}

// Writes a count, and a text in quotes.
fn put_counted(made: u64, text: &[u8], out: &mut String) -> Result<(), Stop> {
    write!(out, "made {made}, \"")?;
    escaped(out, text)?;
    put_text(out, "\"")
}

// Writes what lines get by tables, with so many formatters kept.
fn put_by<T: Tables>(
    tables: &T,
    capacity: NonZeroUsize,
    lines: &[u8],
    out: &mut String,
) -> Result<(), Stop> {
    let mut answers = Answers::new(*out.allocator(), tables, capacity.get())?;
    let put = put_answers(&mut answers, lines, out);
    drop(answers);
    put
}

// The same by tables that are left without units.
fn put_without_units<T: NumberTables>(
    tables: &T,
    capacity: NonZeroUsize,
    lines: &[u8],
    out: &mut String,
) -> Result<(), Stop> {
    let tables = WithoutUnits { tables };
    let put = put_by(&tables, capacity, lines, out);
    drop(tables);
    put
}

/// Writes how many formatters were made for lines, and their answers, by the tables of a book or by those without its
/// units.
pub fn answer(
    book: &Book,
    call: &str,
    capacity: &str,
    lines: &[u8],
    out: &mut String,
) -> Result<(), Stop> {
    let capacity = number_of(capacity)?;
    if call == "answers" {
        put_by(book, capacity, lines, out)
    } else {
        put_without_units(book, capacity, lines, out)
    }
}
