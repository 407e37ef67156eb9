//! What a row can ask of a compact number.

use crate::number::{Number, parsed, told};
use crate::step::Step;
use fixed_decimal::{CompactDecimal, Decimal, ParseError};
use rows::{Stop, number_of, put_last_written, put_written, split_word};
use std::alloc::{AllocError, Global};

// A compact number of its significand and its exponent.
fn of_parts(alloc: Global, words: &str) -> Result<CompactDecimal, Stop> {
    let (significand, exponent) = split_word(words);
    let exponent = number_of::<u8>(exponent)?;
    let significand = parsed(Decimal::try_from_str(alloc, significand))?;
    Ok(CompactDecimal::from_significand_and_exponent(significand, exponent))
}

impl Number for CompactDecimal {
    fn read(alloc: Global, text: &str) -> Result<CompactDecimal, ParseError> {
        CompactDecimal::try_from_str(alloc, text)
    }

    fn make(alloc: Global, step: Step<'_>) -> Result<CompactDecimal, Stop> {
        match step.name {
            "from_significand_and_exponent" => of_parts(alloc, step.passed),
            _ => Err(Stop::Unknown),
        }
    }

    fn copy(&self) -> Result<CompactDecimal, AllocError> {
        self.try_clone()
    }

    fn tell(&self, step: Step<'_>, out: &mut String) -> Result<bool, Stop> {
        match step.name {
            "exponent" => told(out, &self.exponent()),
            "significand" => {
                put_written(out, self.significand())?;
                Ok(true)
            }
            _ => Ok(false),
        }
    }

    fn finish(self, step: Step<'_>, out: &mut String) -> Result<(), Stop> {
        if step.name == "into_significand" {
            put_last_written(out, self.into_significand())
        } else {
            drop(self);
            Err(Stop::Unknown)
        }
    }
}
