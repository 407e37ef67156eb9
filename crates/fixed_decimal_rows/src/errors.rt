//! The numbers and the words of errors, and the increment that is where none is named.

use fixed_decimal::{CallsError, ConcatenateError, LimitError, ParseError, RoundingIncrement};
use rows::{Stop, put_debug};
use std::fmt::Display;

// Writes the number of an error, and its words.
fn put_error<E: Display>(out: &mut String, number: u8, error: &E) -> Result<(), Stop> {
    write!(out, "{number}: {error}")?;
    Ok(())
}

// The answer for a case of `ParseError`.
fn parse_error(case: &str, out: &mut String) -> Result<(), Stop> {
    let error = match case {
        "Limit" => ParseError::Limit,
        "Syntax" => ParseError::Syntax,
        "Memory" => ParseError::Memory,
        _ => return Err(Stop::Unknown),
    };
    put_error(out, error.number(), &error)
}

// The answer for a case of `ConcatenateError`, whatever it hands back.
fn concatenate_error(case: &str, out: &mut String) -> Result<(), Stop> {
    let error = match case {
        "Overlap" => ConcatenateError::Overlap(0u8),
        "Memory" => ConcatenateError::Memory(0u8),
        _ => return Err(Stop::Unknown),
    };
    put_error(out, error.number(), &error)
}

// The answer for a case of `CallsError`.
fn calls_error(case: &str, out: &mut String) -> Result<(), Stop> {
    let error = match case {
        "Parse" => CallsError::Parse,
        "Write" => CallsError::Write,
        "Memory" => CallsError::Memory,
        _ => return Err(Stop::Unknown),
    };
    put_error(out, error.number(), &error)
}

/// The answer for an error by its type and its case; `LimitError` has one case.
pub fn answer(error: &str, fields: &[&str], out: &mut String) -> Result<(), Stop> {
    let case = match fields.first() {
        Some(case) => *case,
        None => "",
    };
    match error {
        "ParseError" => parse_error(case, out),
        "ConcatenateError" => concatenate_error(case, out),
        "CallsError" => calls_error(case, out),
        "LimitError" if case.is_empty() => put_error(out, LimitError.number(), &LimitError),
        "RoundingIncrement" if case == "default" => put_debug(out, &RoundingIncrement::default()),
        _ => Err(Stop::Unknown),
    }
}
