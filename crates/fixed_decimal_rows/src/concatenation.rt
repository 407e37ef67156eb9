//! Answers of concatenations, of both types of numbers.

use crate::number::parsed;
use crate::step::Step;
use fixed_decimal::{ConcatenateError, UnsignedDecimal};
use rows::{Stop, put_last_written};
use std::fmt::Display;
use writeable::Writeable;

/// A number that another can be put after.
pub trait Concatenate: Display + Drop + Sized + Writeable {
    /// `concatenate_end` of the type.
    fn put_end(&mut self, other: UnsignedDecimal) -> Result<(), ConcatenateError<UnsignedDecimal>>;

    /// `concatenated_end` of the type.
    fn with_end(
        self,
        other: UnsignedDecimal,
    ) -> Result<Self, ConcatenateError<(Self, UnsignedDecimal)>>;
}

// The answer where two numbers overlap: both, handed back or left.
fn overlap<N: Concatenate>(
    out: &mut String,
    first: N,
    second: UnsignedDecimal,
) -> Result<(), Stop> {
    let written = write!(out, "Overlap: {first} and {second}");
    drop(first);
    drop(second);
    Ok(written?)
}

// Lets both numbers go, and reports that memory was refused.
fn refused<N: Concatenate>(first: N, second: UnsignedDecimal) -> Result<(), Stop> {
    drop(first);
    drop(second);
    Err(Stop::Memory)
}

// The answer of `concatenate_end`, which left this number.
fn left<N: Concatenate>(
    out: &mut String,
    number: N,
    done: Result<(), ConcatenateError<UnsignedDecimal>>,
) -> Result<(), Stop> {
    match done {
        Ok(()) => put_last_written(out, number),
        Err(ConcatenateError::Overlap(back)) => overlap(out, number, back),
        Err(ConcatenateError::Memory(back)) => refused(number, back),
    }
}

// The answer of `concatenated_end`, which gave this sum.
fn given<N: Concatenate>(
    out: &mut String,
    sum: Result<N, ConcatenateError<(N, UnsignedDecimal)>>,
) -> Result<(), Stop> {
    match sum {
        Ok(sum) => put_last_written(out, sum),
        Err(ConcatenateError::Overlap((first, second))) => overlap(out, first, second),
        Err(ConcatenateError::Memory((first, second))) => refused(first, second),
    }
}

// Makes the call with another number.
fn made<N: Concatenate>(
    mut number: N,
    name: &str,
    other: UnsignedDecimal,
    out: &mut String,
) -> Result<(), Stop> {
    if name == "concatenated_end" {
        return given(out, number.with_end(other));
    }
    let done = number.put_end(other);
    left(out, number, done)
}

/// The answer of `concatenate_end` or `concatenated_end` with the number of a text.
pub fn answer<N: Concatenate>(number: N, step: Step<'_>, out: &mut String) -> Result<(), Stop> {
    match parsed(UnsignedDecimal::try_from_str(*out.allocator(), step.passed)) {
        Ok(other) => made(number, step.name, other, out),
        Err(stop) => {
            drop(number);
            Err(stop)
        }
    }
}
