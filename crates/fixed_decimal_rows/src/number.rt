//! The answer of a row of calls on a number, whatever its type.

use crate::step::{Step, long_text};
use fixed_decimal::ParseError;
use rows::{Stop, number_of, put, put_in_room, put_last_written, put_written, unescaped};
use std::alloc::{AllocError, Global};
use std::fmt::Display;
use std::mem;
use writeable::Writeable;

/// A type of numbers, with what a row can ask of it.
pub trait Number: Display + Drop + PartialEq + Sized + Writeable {
    /// `try_from_str` of the type.
    fn read(alloc: Global, text: &str) -> Result<Self, ParseError>;

    /// `try_from_utf8` of the type; none where the type has no such call.
    fn read_utf8(_alloc: Global, _bytes: &[u8]) -> Option<Result<Self, ParseError>> {
        None
    }

    /// The number that another call makes.
    fn make(alloc: Global, step: Step<'_>) -> Result<Self, Stop>;

    /// `try_clone` of the type.
    fn copy(&self) -> Result<Self, AllocError>;

    /// Makes a call that changes the number; false where the type has no such call.
    fn change(&mut self, _step: Step<'_>) -> Result<bool, Stop> {
        Ok(false)
    }

    /// Writes what a call tells that only the type has; false where the type has no such call.
    fn tell(&self, _step: Step<'_>, _out: &mut String) -> Result<bool, Stop> {
        Ok(false)
    }

    /// Writes the answer of a call that only the type has, and that consumes the number.
    fn finish(self, _step: Step<'_>, _out: &mut String) -> Result<(), Stop> {
        drop(self);
        Err(Stop::Unknown)
    }
}

/// The number that was read, or the number of the refusal.
pub fn parsed<T>(read: Result<T, ParseError>) -> Result<T, Stop> {
    match read {
        Ok(value) => Ok(value),
        Err(ParseError::Memory) => Err(Stop::Memory),
        Err(refused) => Err(Stop::Refused(refused.number())),
    }
}

// The number of the text of bytes, by `try_from_str`.
fn read_bytes<N: Number>(alloc: Global, bytes: &[u8]) -> Result<N, Stop> {
    match str::from_utf8(bytes) {
        Ok(text) => parsed(N::read(alloc, text)),
        Err(_) => Err(Stop::Unknown),
    }
}

// The number that the bytes of a text spell, by `try_from_str`.
fn read_escaped<N: Number>(alloc: Global, text: &str) -> Result<N, Stop> {
    let bytes = unescaped(alloc, text)?;
    let number = read_bytes(alloc, bytes.as_slice());
    drop(bytes);
    number
}

// The number that the bytes of a text spell, by `try_from_utf8`.
fn read_utf8<N: Number>(alloc: Global, text: &str) -> Result<N, Stop> {
    let bytes = unescaped(alloc, text)?;
    let read = N::read_utf8(alloc, bytes.as_slice());
    drop(bytes);
    match read {
        Some(read) => parsed(read),
        None => Err(Stop::Unknown),
    }
}

// The number that a long text spells, by `try_from_str`.
fn read_long<N: Number>(alloc: Global, word: &str) -> Result<N, Stop> {
    let text = long_text(alloc, word)?;
    let number = N::read(alloc, text.as_str());
    drop(text);
    parsed(number)
}

// The number that a row begins with.
fn started<N: Number>(alloc: Global, step: Step<'_>) -> Result<N, Stop> {
    match step.name {
        "try_from_str" => read_escaped(alloc, step.passed),
        "try_from_utf8" => read_utf8(alloc, step.passed),
        "try_from_long_str" => read_long(alloc, step.passed),
        _ => N::make(alloc, step),
    }
}

// Makes a call that changes the number, or puts its copy in its place; false where there is no such call.
fn changed<N: Number>(number: &mut N, step: Step<'_>) -> Result<bool, Stop> {
    if step.name != "try_clone" {
        return number.change(step);
    }
    let copy = number.copy()?;
    drop(mem::replace(number, copy));
    Ok(true)
}

/// Writes the answer of a call that tells a value.
pub fn told<T: Display>(out: &mut String, value: &T) -> Result<bool, Stop> {
    put(out, value)?;
    Ok(true)
}

/// Writes the answer of a call that tells two ends.
pub fn ends<T: Display>(out: &mut String, low: &T, high: &T) -> Result<bool, Stop> {
    write!(out, "{low} to {high}")?;
    Ok(true)
}

// Writes the two ends of a length hint.
fn hint_of<N: Number>(number: &N, out: &mut String) -> Result<bool, Stop> {
    let hint = number.writeable_length_hint();
    match hint.high {
        Some(high) => ends(out, &hint.low, &high),
        None => told(out, &hint.low),
    }
}

// Whether the number is the one that a text spells.
fn is_that_of<N: Number>(alloc: Global, number: &N, text: &str) -> Result<bool, Stop> {
    let other = parsed(N::read(alloc, text))?;
    let is_same = *number == other;
    drop(other);
    Ok(is_same)
}

// Whether the number's text is this one.
fn has_text<N: Number>(alloc: Global, number: &N, text: &str) -> Result<bool, Stop> {
    let own = number.write_to_string(alloc)?;
    let is_same = own.as_str() == text;
    drop(own);
    Ok(is_same)
}

// Whether the number's text is a long one.
fn has_long_text<N: Number>(alloc: Global, number: &N, word: &str) -> Result<bool, Stop> {
    let text = long_text(alloc, word)?;
    let is_same = has_text(alloc, number, text.as_str());
    drop(text);
    is_same
}

// Writes what a sink with this room holds of the number.
fn held_in_room<N: Number>(number: &N, room: &str, out: &mut String) -> Result<bool, Stop> {
    put_in_room(out, number, number_of(room)?)?;
    Ok(true)
}

// Writes the answer of a call that changes nothing; false where it is none of these.
fn common_answer<N: Number>(
    alloc: Global,
    number: &N,
    step: Step<'_>,
    out: &mut String,
) -> Result<bool, Stop> {
    match step.name {
        "eq" => told(out, &is_that_of(alloc, number, step.passed)?),
        "has_long_text" => told(out, &has_long_text(alloc, number, step.passed)?),
        "to_string" => told(out, number),
        "writeable_length_hint" => hint_of(number, out),
        "write_to" => held_in_room(number, step.passed, out),
        _ => number.tell(step, out),
    }
}

// Writes the answer of a call that changes the number, its text, or of one that changes nothing; false where it is none
// of these.
fn plain_answer<N: Number>(
    alloc: Global,
    number: &mut N,
    step: Step<'_>,
    out: &mut String,
) -> Result<bool, Stop> {
    if changed(number, step)? {
        put_written(out, number)?;
        return Ok(true);
    }
    common_answer(alloc, number, step, out)
}

// Makes calls that each change the number.
fn change_all<N: Number>(number: &mut N, calls: &[&str]) -> Result<(), Stop> {
    for call in calls {
        if !changed(number, Step::of(call))? {
            return Err(Stop::Unknown);
        }
    }
    Ok(())
}

// Makes calls, of which the last one is answered: writes the answer, or returns false where the last call consumes the
// number.
fn answer_calls<N: Number>(
    alloc: Global,
    number: &mut N,
    calls: &[&str],
    last: Step<'_>,
    out: &mut String,
) -> Result<bool, Stop> {
    change_all(number, calls)?;
    plain_answer(alloc, number, last, out)
}

// Writes the answer of a row's calls on a number.
fn answer_on<N: Number>(
    alloc: Global,
    mut number: N,
    calls: &[&str],
    last: Step<'_>,
    out: &mut String,
) -> Result<(), Stop> {
    match answer_calls(alloc, &mut number, calls, last, out) {
        Ok(true) => {
            drop(number);
            Ok(())
        }
        Ok(false) => number.finish(last, out),
        Err(stop) => {
            drop(number);
            Err(stop)
        }
    }
}

/// Writes the answer of a row of calls: the first makes a number, each further one is made on what the one before it
/// left.
pub fn answer<N: Number>(alloc: Global, fields: &[&str], out: &mut String) -> Result<(), Stop> {
    let Some((start, calls)) = fields.split_first() else {
        return Err(Stop::Unknown);
    };
    let number: N = started(alloc, Step::of(start))?;
    match calls.split_last() {
        Some((end, calls)) => answer_on(alloc, number, calls, Step::of(end), out),
        None => put_last_written(out, number),
    }
}
