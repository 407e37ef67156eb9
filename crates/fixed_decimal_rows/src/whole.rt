//! What a row can ask of a whole number.

use crate::integers;
use crate::number::{Number, parsed};
use crate::step::Step;
use fixed_decimal::{Decimal, FixedInteger, ParseError};
use rows::{Stop, put_last_written};
use std::alloc::{AllocError, Global};

// The whole number that the decimal of a text becomes.
fn of_decimal(alloc: Global, text: &str) -> Result<FixedInteger, Stop> {
    match FixedInteger::try_from(parsed(Decimal::try_from_str(alloc, text))?) {
        Ok(whole) => Ok(whole),
        Err(refused) => Err(Stop::Refused(refused.number())),
    }
}

impl Number for FixedInteger {
    fn read(alloc: Global, text: &str) -> Result<FixedInteger, ParseError> {
        FixedInteger::try_from_str(alloc, text)
    }

    fn read_utf8(alloc: Global, bytes: &[u8]) -> Option<Result<FixedInteger, ParseError>> {
        Some(FixedInteger::try_from_utf8(alloc, bytes))
    }

    fn make(alloc: Global, step: Step<'_>) -> Result<FixedInteger, Stop> {
        match step.name {
            "try_from" => of_decimal(alloc, step.passed),
            _ => integers::whole(alloc, step),
        }
    }

    fn copy(&self) -> Result<FixedInteger, AllocError> {
        self.try_clone()
    }

    fn finish(self, step: Step<'_>, out: &mut String) -> Result<(), Stop> {
        if step.name == "into_decimal" {
            put_last_written(out, self.into_decimal())
        } else {
            drop(self);
            Err(Stop::Unknown)
        }
    }
}
