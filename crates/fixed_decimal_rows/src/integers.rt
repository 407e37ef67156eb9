//! Numbers of integers of each width.

use crate::step::Step;
use fixed_decimal::{Decimal, FixedInteger, UnsignedDecimal};
use rows::{Stop, number_of};
use std::alloc::Global;

/// The unsigned number of an integer.
pub fn unsigned(alloc: Global, step: Step<'_>) -> Result<UnsignedDecimal, Stop> {
    let made = match step.name {
        "from_u8" => UnsignedDecimal::from_u8(alloc, number_of(step.passed)?),
        "from_u16" => UnsignedDecimal::from_u16(alloc, number_of(step.passed)?),
        "from_u32" => UnsignedDecimal::from_u32(alloc, number_of(step.passed)?),
        "from_u64" => UnsignedDecimal::from_u64(alloc, number_of(step.passed)?),
        "from_usize" => UnsignedDecimal::from_usize(alloc, number_of(step.passed)?),
        "from_u128" => UnsignedDecimal::from_u128(alloc, number_of(step.passed)?),
        _ => return Err(Stop::Unknown),
    };
    Ok(made?)
}

// The decimal of an integer of a type with signs.
fn decimal_of_signed(alloc: Global, step: Step<'_>) -> Result<Decimal, Stop> {
    let made = match step.name {
        "from_i8" => Decimal::from_i8(alloc, number_of(step.passed)?),
        "from_i16" => Decimal::from_i16(alloc, number_of(step.passed)?),
        "from_i32" => Decimal::from_i32(alloc, number_of(step.passed)?),
        "from_i64" => Decimal::from_i64(alloc, number_of(step.passed)?),
        "from_isize" => Decimal::from_isize(alloc, number_of(step.passed)?),
        "from_i128" => Decimal::from_i128(alloc, number_of(step.passed)?),
        _ => return Err(Stop::Unknown),
    };
    Ok(made?)
}

/// The decimal of an integer.
pub fn decimal(alloc: Global, step: Step<'_>) -> Result<Decimal, Stop> {
    let made = match step.name {
        "from_u8" => Decimal::from_u8(alloc, number_of(step.passed)?),
        "from_u16" => Decimal::from_u16(alloc, number_of(step.passed)?),
        "from_u32" => Decimal::from_u32(alloc, number_of(step.passed)?),
        "from_u64" => Decimal::from_u64(alloc, number_of(step.passed)?),
        "from_usize" => Decimal::from_usize(alloc, number_of(step.passed)?),
        "from_u128" => Decimal::from_u128(alloc, number_of(step.passed)?),
        _ => return decimal_of_signed(alloc, step),
    };
    Ok(made?)
}

// The whole number of an integer of a type with signs.
fn whole_of_signed(alloc: Global, step: Step<'_>) -> Result<FixedInteger, Stop> {
    let made = match step.name {
        "from_i8" => FixedInteger::from_i8(alloc, number_of(step.passed)?),
        "from_i16" => FixedInteger::from_i16(alloc, number_of(step.passed)?),
        "from_i32" => FixedInteger::from_i32(alloc, number_of(step.passed)?),
        "from_i64" => FixedInteger::from_i64(alloc, number_of(step.passed)?),
        "from_isize" => FixedInteger::from_isize(alloc, number_of(step.passed)?),
        "from_i128" => FixedInteger::from_i128(alloc, number_of(step.passed)?),
        _ => return Err(Stop::Unknown),
    };
    Ok(made?)
}

/// The whole number of an integer.
pub fn whole(alloc: Global, step: Step<'_>) -> Result<FixedInteger, Stop> {
    let made = match step.name {
        "from_u8" => FixedInteger::from_u8(alloc, number_of(step.passed)?),
        "from_u16" => FixedInteger::from_u16(alloc, number_of(step.passed)?),
        "from_u32" => FixedInteger::from_u32(alloc, number_of(step.passed)?),
        "from_u64" => FixedInteger::from_u64(alloc, number_of(step.passed)?),
        "from_usize" => FixedInteger::from_usize(alloc, number_of(step.passed)?),
        "from_u128" => FixedInteger::from_u128(alloc, number_of(step.passed)?),
        _ => return whole_of_signed(alloc, step),
    };
    Ok(made?)
}
