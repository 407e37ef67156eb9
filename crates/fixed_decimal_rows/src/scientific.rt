//! What a row can ask of a scientific number.

use crate::number::{Number, parsed};
use crate::step::Step;
use fixed_decimal::{Decimal, FixedInteger, ParseError, ScientificDecimal};
use rows::{Stop, split_word};
use std::alloc::{AllocError, Global};

// A scientific number of its significand and its exponent.
fn of_parts(alloc: Global, words: &str) -> Result<ScientificDecimal, Stop> {
    let (significand, exponent) = split_word(words);
    let significand = parsed(Decimal::try_from_str(alloc, significand))?;
    match parsed(FixedInteger::try_from_str(alloc, exponent)) {
        Ok(exponent) => Ok(ScientificDecimal::from(significand, exponent)),
        Err(stop) => {
            drop(significand);
            Err(stop)
        }
    }
}

impl Number for ScientificDecimal {
    fn read(alloc: Global, text: &str) -> Result<ScientificDecimal, ParseError> {
        ScientificDecimal::try_from_str(alloc, text)
    }

    fn read_utf8(alloc: Global, bytes: &[u8]) -> Option<Result<ScientificDecimal, ParseError>> {
        Some(ScientificDecimal::try_from_utf8(alloc, bytes))
    }

    fn make(alloc: Global, step: Step<'_>) -> Result<ScientificDecimal, Stop> {
        match step.name {
            "from" => of_parts(alloc, step.passed),
            _ => Err(Stop::Unknown),
        }
    }

    fn copy(&self) -> Result<ScientificDecimal, AllocError> {
        self.try_clone()
    }
}
