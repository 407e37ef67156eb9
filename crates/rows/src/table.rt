//! Rows, and their answers after them.

use crate::stop::Stop;
use std::alloc::{AllocError, Global};
use std::io;

/// A table of rows without their answers, and how a row is answered.
pub trait Table {
    /// Writes the answer of a row after the text: the row `Decimal`, `one` with a tab between is answered by `1`.
    fn answer(&self, row: &str, out: &mut String) -> Result<(), Stop>;
}

// Puts the number of a refusal in the place of a text.
fn put_number(number: u8, out: &mut String) -> Result<(), AllocError> {
    out.clear();
    write!(out, "error {number}")
}

// Puts that a row is not understood in the place of a text.
fn put_unknown(out: &mut String) -> Result<(), AllocError> {
    out.clear();
    out.push('?')
}

// Puts what a row without an answer is answered by in the place of a text, where it was not written yet.
fn put_stop(stop: Stop, out: &mut String) -> Result<(), AllocError> {
    match stop {
        Stop::Refused(number) => put_number(number, out),
        Stop::Written => Ok(()),
        Stop::Unknown => put_unknown(out),
        Stop::Memory => Err(AllocError),
    }
}

// Puts the answer of a row in the place of a text.
fn replace<T: Table>(table: &T, row: &str, out: &mut String) -> Result<(), AllocError> {
    out.clear();
    match table.answer(row, out) {
        Ok(()) => Ok(()),
        Err(stop) => put_stop(stop, out),
    }
}

// Prints the rows, by a text that holds one answer after another.
fn print_by<R: Print, T: Table>(
    rt: &R,
    rows: &str,
    table: &T,
    answer: &mut String,
) -> io::Result<()> {
    for row in rows.lines() {
        if row.starts_with('#') {
            println!(rt; "{row}")?;
        } else {
            replace(table, row, answer)?;
            println!(rt; "{row}\t{}", answer.as_str())?;
        }
    }
    Ok(())
}

/// Prints each line of a text with a tab and its answer after it; one that begins with `#` is a heading, and has none.
pub fn print_answers<R: Print, T: Table>(
    rt: &R,
    alloc: Global,
    rows: &str,
    table: &T,
) -> io::Result<()> {
    let mut answer = String::new(alloc);
    let printed = print_by(rt, rows, table, &mut answer);
    drop(answer);
    printed
}
