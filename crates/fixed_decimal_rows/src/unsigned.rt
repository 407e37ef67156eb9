//! What a row can ask of a number without a sign.

use crate::concatenation::{self, Concatenate};
use crate::number::Number;
use crate::rounding::{Passed, Rounding};
use crate::step::Step;
use crate::{given, in_place, integers};
use fixed_decimal::{
    ConcatenateError, ParseError, SignedRoundingMode, UnsignedDecimal, UnsignedRoundingMode,
};
use rows::{Stop, put_last_written};
use std::alloc::{AllocError, Global};

// The number that a call leaves which is passed nothing.
fn trimmed(number: UnsignedDecimal, name: &str) -> Result<UnsignedDecimal, Stop> {
    match name {
        "trimmed_start" => Ok(number.trimmed_start()),
        "trimmed_end" => Ok(number.trimmed_end()),
        "trimmed_end_if_integer" => Ok(number.trimmed_end_if_integer()),
        _ => {
            drop(number);
            Err(Stop::Unknown)
        }
    }
}

// The number that a call leaves which is passed a position.
fn at_position(
    number: UnsignedDecimal,
    name: &str,
    position: i16,
) -> Result<UnsignedDecimal, Stop> {
    match name {
        "multiplied_pow10" => Ok(number.multiplied_pow10(position)),
        "padded_start" => Ok(number.padded_start(position)),
        "padded_end" => Ok(number.padded_end(position)),
        "with_max_position" => Ok(number.with_max_position(position)),
        "rounded" => Ok(number.rounded(position)),
        "expanded" => Ok(number.expanded(position)),
        "trunced" => Ok(number.trunced(position)),
        _ => {
            drop(number);
            Err(Stop::Unknown)
        }
    }
}

// The number that a call leaves which is passed a position, a mode by size, and an increment after it.
fn by_mode(
    number: UnsignedDecimal,
    name: &str,
    it: Rounding,
    mode: UnsignedRoundingMode,
) -> Result<UnsignedDecimal, Stop> {
    match name {
        "rounded_with_mode" => Ok(number.rounded_with_mode(it.position, mode)),
        "rounded_with_mode_and_increment" => {
            Ok(number.rounded_with_mode_and_increment(it.position, mode, it.increment)?)
        }
        _ => {
            drop(number);
            Err(Stop::Unknown)
        }
    }
}

// The same, of any mode.
fn by_rounding(number: UnsignedDecimal, name: &str, it: Rounding) -> Result<UnsignedDecimal, Stop> {
    match it.mode {
        SignedRoundingMode::Unsigned(mode) => by_mode(number, name, it, mode),
        _ => {
            drop(number);
            Err(Stop::Unknown)
        }
    }
}

// The number that a consuming call leaves.
fn left_by(number: UnsignedDecimal, name: &str, passed: Passed) -> Result<UnsignedDecimal, Stop> {
    match passed {
        Passed::Nothing => trimmed(number, name),
        Passed::Position(position) => at_position(number, name, position),
        Passed::Mode(rounding) => by_rounding(number, name, rounding),
    }
}

// The answer of a consuming call: the text of the number that it leaves.
fn consumed(number: UnsignedDecimal, step: Step<'_>, out: &mut String) -> Result<(), Stop> {
    match Passed::of(step.passed) {
        Ok(passed) => put_last_written(out, left_by(number, step.name, passed)?),
        Err(stop) => {
            drop(number);
            Err(stop)
        }
    }
}

impl Number for UnsignedDecimal {
    fn read(alloc: Global, text: &str) -> Result<UnsignedDecimal, ParseError> {
        UnsignedDecimal::try_from_str(alloc, text)
    }

    fn read_utf8(alloc: Global, bytes: &[u8]) -> Option<Result<UnsignedDecimal, ParseError>> {
        Some(UnsignedDecimal::try_from_utf8(alloc, bytes))
    }

    fn make(alloc: Global, step: Step<'_>) -> Result<UnsignedDecimal, Stop> {
        match step.name {
            "zero" => Ok(UnsignedDecimal::zero(alloc)),
            "one" => Ok(UnsignedDecimal::one(alloc)),
            "given_digits" => given::number(alloc, step.passed),
            _ => integers::unsigned(alloc, step),
        }
    }

    fn copy(&self) -> Result<UnsignedDecimal, AllocError> {
        self.try_clone()
    }

    fn change(&mut self, step: Step<'_>) -> Result<bool, Stop> {
        match step.name {
            "round_with_mode" | "round_with_mode_and_increment" => {
                in_place::round_by(self, step)?;
                Ok(true)
            }
            _ => Ok(in_place::round_plain(self, step) || in_place::adjust(self, step)),
        }
    }

    fn tell(&self, step: Step<'_>, out: &mut String) -> Result<bool, Stop> {
        in_place::tell(self, step, out)
    }

    fn finish(self, step: Step<'_>, out: &mut String) -> Result<(), Stop> {
        match step.name {
            "concatenate_end" | "concatenated_end" => concatenation::answer(self, step, out),
            _ => consumed(self, step, out),
        }
    }
}

impl Concatenate for UnsignedDecimal {
    fn put_end(&mut self, other: UnsignedDecimal) -> Result<(), ConcatenateError<UnsignedDecimal>> {
        self.concatenate_end(other)
    }

    fn with_end(
        self,
        other: UnsignedDecimal,
    ) -> Result<UnsignedDecimal, ConcatenateError<(UnsignedDecimal, UnsignedDecimal)>> {
        self.concatenated_end(other)
    }
}
