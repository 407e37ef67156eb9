//! What a row can ask of a number with a sign.

use crate::concatenation::{self, Concatenate};
use crate::number::{Number, parsed};
use crate::rounding::{Passed, Rounding};
use crate::step::Step;
use crate::words::{sign_display_of, sign_of};
use crate::{counted, in_place, integers};
use fixed_decimal::{ConcatenateError, Decimal, ParseError, Sign, SignDisplay, UnsignedDecimal};
use rows::{Stop, number_of, put_debug, put_last_written, split_word};
use std::alloc::{AllocError, Global};

// A decimal of a sign and an absolute value.
fn of_parts(alloc: Global, words: &str) -> Result<Decimal, Stop> {
    let (sign, absolute) = split_word(words);
    let sign = sign_of(sign)?;
    Ok(Decimal::new(
        sign,
        parsed(UnsignedDecimal::try_from_str(alloc, absolute))?,
    ))
}

// Rounds by a call that is passed only a position; false where it is not one.
fn round_plain(number: &mut Decimal, step: Step<'_>) -> bool {
    let Ok(position) = number_of::<i16>(step.passed) else {
        return false;
    };
    match step.name {
        "round" => number.round(position),
        "expand" => number.expand(position),
        "trunc" => number.trunc(position),
        "ceil" => number.ceil(position),
        "floor" => number.floor(position),
        _ => return false,
    }
    true
}

// Rounds by a call that is passed a mode too, and an increment if it is not `round_with_mode`.
fn round_by(number: &mut Decimal, step: Step<'_>) -> Result<(), Stop> {
    let it = Rounding::of(step.passed)?;
    match step.name {
        "round_with_mode" => number.round_with_mode(it.position, it.mode),
        "round_counted" => counted::round(number, it.position, it.mode, it.increment)?,
        _ => number.round_with_mode_and_increment(it.position, it.mode, it.increment)?,
    }
    Ok(())
}

// The number that a call leaves which is passed nothing.
fn trimmed(number: Decimal, name: &str) -> Result<Decimal, Stop> {
    match name {
        "trimmed_start" => Ok(number.trimmed_start()),
        "trimmed_end" => Ok(number.trimmed_end()),
        "trimmed_end_if_integer" => Ok(number.trimmed_end_if_integer()),
        _ => {
            drop(number);
            Err(Stop::Unknown)
        }
    }
}

// The number that a call leaves which is passed a position.
fn at_position(number: Decimal, name: &str, position: i16) -> Result<Decimal, Stop> {
    match name {
        "multiplied_pow10" => Ok(number.multiplied_pow10(position)),
        "padded_start" => Ok(number.padded_start(position)),
        "padded_end" => Ok(number.padded_end(position)),
        "with_max_position" => Ok(number.with_max_position(position)),
        "rounded" => Ok(number.rounded(position)),
        "expanded" => Ok(number.expanded(position)),
        "trunced" => Ok(number.trunced(position)),
        "ceiled" => Ok(number.ceiled(position)),
        "floored" => Ok(number.floored(position)),
        _ => {
            drop(number);
            Err(Stop::Unknown)
        }
    }
}

// The number that a call leaves which is passed a position, a mode, and an increment after it.
fn by_mode(number: Decimal, name: &str, it: Rounding) -> Result<Decimal, Stop> {
    match name {
        "rounded_with_mode" => Ok(number.rounded_with_mode(it.position, it.mode)),
        "rounded_with_mode_and_increment" => {
            Ok(number.rounded_with_mode_and_increment(it.position, it.mode, it.increment)?)
        }
        _ => {
            drop(number);
            Err(Stop::Unknown)
        }
    }
}

// What a consuming call is passed: a choice of sign, or words of another kind.
#[derive(Clone, Copy)]
enum Consuming<'a> {
    Sign(Sign),
    SignDisplay(SignDisplay),
    Other(&'a str, Passed),
}

// The consuming call that a step is.
fn consuming_of(step: Step<'_>) -> Result<Consuming<'_>, Stop> {
    match step.name {
        "with_sign" => Ok(Consuming::Sign(sign_of(step.passed)?)),
        "with_sign_display" => Ok(Consuming::SignDisplay(sign_display_of(step.passed)?)),
        name => Ok(Consuming::Other(name, Passed::of(step.passed)?)),
    }
}

// The number that a consuming call leaves.
fn left_by(number: Decimal, call: Consuming<'_>) -> Result<Decimal, Stop> {
    match call {
        Consuming::Sign(sign) => Ok(number.with_sign(sign)),
        Consuming::SignDisplay(display) => Ok(number.with_sign_display(display)),
        Consuming::Other(name, Passed::Nothing) => trimmed(number, name),
        Consuming::Other(name, Passed::Position(position)) => at_position(number, name, position),
        Consuming::Other(name, Passed::Mode(rounding)) => by_mode(number, name, rounding),
    }
}

// The answer of a consuming call: the text of the number that it leaves.
fn consumed(number: Decimal, step: Step<'_>, out: &mut String) -> Result<(), Stop> {
    match consuming_of(step) {
        Ok(call) => put_last_written(out, left_by(number, call)?),
        Err(stop) => {
            drop(number);
            Err(stop)
        }
    }
}

impl Number for Decimal {
    fn read(alloc: Global, text: &str) -> Result<Decimal, ParseError> {
        Decimal::try_from_str(alloc, text)
    }

    fn read_utf8(alloc: Global, bytes: &[u8]) -> Option<Result<Decimal, ParseError>> {
        Some(Decimal::try_from_utf8(alloc, bytes))
    }

    fn make(alloc: Global, step: Step<'_>) -> Result<Decimal, Stop> {
        match step.name {
            "zero" => Ok(Decimal::zero(alloc)),
            "one" => Ok(Decimal::one(alloc)),
            "new" => of_parts(alloc, step.passed),
            _ => integers::decimal(alloc, step),
        }
    }

    fn copy(&self) -> Result<Decimal, AllocError> {
        self.try_clone()
    }

    fn change(&mut self, step: Step<'_>) -> Result<bool, Stop> {
        match step.name {
            "set_sign" => self.set_sign(sign_of(step.passed)?),
            "apply_sign_display" => self.apply_sign_display(sign_display_of(step.passed)?),
            "round_with_mode" | "round_with_mode_and_increment" | "round_counted" => {
                round_by(self, step)?;
            }
            _ => return Ok(round_plain(self, step) || in_place::adjust(self, step)),
        }
        Ok(true)
    }

    fn tell(&self, step: Step<'_>, out: &mut String) -> Result<bool, Stop> {
        if step.name == "sign" {
            put_debug(out, &self.sign())?;
            return Ok(true);
        }
        in_place::tell(self, step, out)
    }

    fn finish(self, step: Step<'_>, out: &mut String) -> Result<(), Stop> {
        match step.name {
            "concatenate_end" | "concatenated_end" => concatenation::answer(self, step, out),
            _ => consumed(self, step, out),
        }
    }
}

impl Concatenate for Decimal {
    fn put_end(&mut self, other: UnsignedDecimal) -> Result<(), ConcatenateError<UnsignedDecimal>> {
        self.concatenate_end(other)
    }

    fn with_end(
        self,
        other: UnsignedDecimal,
    ) -> Result<Decimal, ConcatenateError<(Decimal, UnsignedDecimal)>> {
        self.concatenated_end(other)
    }
}
