//! Decimals: put together, and rounded to a multiple of 25.

use crate::case::Case;
use crate::change::{Argument, Change, Receiver, answer as changed};
use crate::{counted, in_place};
use fixed_decimal::{
    ConcatenateError, Decimal, RoundingIncrement, SignedRoundingMode, UnsignedDecimal,
    UnsignedRoundingMode,
};
use rows::{Stop, number_of, put_last};
use std::alloc::{AllocError, Global};
use std::mem;

/// The answer of a call of these types.
pub fn answer(case: Case<'_>, out: &mut String) -> Result<(), Stop> {
    match case.call {
        "UnsignedDecimal::concatenate_end" => changed::<ConcatenateEnd>(case, out),
        "UnsignedDecimal::concatenated_end" => changed::<ConcatenatedEnd>(case, out),
        "Decimal::concatenated_end" => changed::<SignedConcatenatedEnd>(case, out),
        "UnsignedDecimal::round_with_mode_and_increment" => changed::<Round>(case, out),
        "Decimal::round_with_mode_and_increment" => changed::<SignedRound>(case, out),
        "Decimal::round_counted" => changed::<RoundCounted>(case, out),
        _ => in_place::answer(case, out),
    }
}

// ---- what a row spells

impl Receiver for UnsignedDecimal {
    fn read(alloc: Global, field: &str) -> Result<UnsignedDecimal, Stop> {
        match UnsignedDecimal::try_from_str(alloc, field) {
            Ok(number) => Ok(number),
            Err(_) => Err(Stop::Unknown),
        }
    }

    fn show(self, out: &mut String) -> Result<(), Stop> {
        put_last(out, self)
    }
}

impl Argument for UnsignedDecimal {
    fn read(alloc: Global, field: &str) -> Result<UnsignedDecimal, Stop> {
        <UnsignedDecimal as Receiver>::read(alloc, field)
    }
}

impl Receiver for Decimal {
    fn read(alloc: Global, field: &str) -> Result<Decimal, Stop> {
        match Decimal::try_from_str(alloc, field) {
            Ok(number) => Ok(number),
            Err(_) => Err(Stop::Unknown),
        }
    }

    fn show(self, out: &mut String) -> Result<(), Stop> {
        put_last(out, self)
    }
}

// A position.
impl Argument for i16 {
    fn read(_alloc: Global, field: &str) -> Result<i16, Stop> {
        number_of(field)
    }
}

// ---- put together

struct ConcatenateEnd;

impl Change for ConcatenateEnd {
    type Receiver = UnsignedDecimal;

    type Argument = UnsignedDecimal;

    fn make(
        _alloc: Global,
        number: &mut UnsignedDecimal,
        other: UnsignedDecimal,
    ) -> Result<(), AllocError> {
        match number.concatenate_end(other) {
            Ok(()) | Err(ConcatenateError::Overlap(_)) => Ok(()),
            Err(ConcatenateError::Memory(_)) => Err(AllocError),
        }
    }
}

// Puts the sum into the place of a number, or what was handed back.
fn put_sum<N: Drop>(
    number: &mut N,
    sum: Result<N, ConcatenateError<(N, UnsignedDecimal)>>,
) -> Result<(), AllocError> {
    match sum {
        Ok(sum) => {
            *number = sum;
            Ok(())
        }
        Err(ConcatenateError::Overlap((back, _))) => {
            *number = back;
            Ok(())
        }
        Err(ConcatenateError::Memory((back, _))) => {
            *number = back;
            Err(AllocError)
        }
    }
}

struct ConcatenatedEnd;

impl Change for ConcatenatedEnd {
    type Receiver = UnsignedDecimal;

    type Argument = UnsignedDecimal;

    fn make(
        alloc: Global,
        number: &mut UnsignedDecimal,
        other: UnsignedDecimal,
    ) -> Result<(), AllocError> {
        let zero = UnsignedDecimal::zero(alloc);
        let sum = mem::replace(number, zero).concatenated_end(other);
        put_sum(number, sum)
    }
}

struct SignedConcatenatedEnd;

impl Change for SignedConcatenatedEnd {
    type Receiver = Decimal;

    type Argument = UnsignedDecimal;

    fn make(alloc: Global, number: &mut Decimal, other: UnsignedDecimal) -> Result<(), AllocError> {
        let zero = Decimal::zero(alloc);
        let sum = mem::replace(number, zero).concatenated_end(other);
        put_sum(number, sum)
    }
}

// ---- rounded away from zero to a multiple of 25 at a position

struct Round;

impl Change for Round {
    type Receiver = UnsignedDecimal;

    type Argument = i16;

    fn make(_alloc: Global, number: &mut UnsignedDecimal, position: i16) -> Result<(), AllocError> {
        let mode = UnsignedRoundingMode::Expand;
        number.round_with_mode_and_increment(position, mode, RoundingIncrement::MultiplesOf25)
    }
}

struct SignedRound;

impl Change for SignedRound {
    type Receiver = Decimal;

    type Argument = i16;

    fn make(_alloc: Global, number: &mut Decimal, position: i16) -> Result<(), AllocError> {
        let mode = SignedRoundingMode::Unsigned(UnsignedRoundingMode::Expand);
        number.round_with_mode_and_increment(position, mode, RoundingIncrement::MultiplesOf25)
    }
}

struct RoundCounted;

impl Change for RoundCounted {
    type Receiver = Decimal;

    type Argument = i16;

    fn make(_alloc: Global, number: &mut Decimal, position: i16) -> Result<(), AllocError> {
        counted::round(number, position)
    }
}
