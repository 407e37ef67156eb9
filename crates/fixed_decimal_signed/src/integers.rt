//! Decimals made from integers of each width, signed and unsigned.

ghost use Rattle.std.specs.Prelude.{◌≡◌, IfOk, IsOk, OnErr, pos, ◌<ℤ◌, ◌↔◌, IsTrue};
ghost use Rattle.fixed_decimal_unsigned.specs.DigitCount.{IsLong};
ghost use Rattle.fixed_decimal_signed.specs.WholeNumbers.{IsWhole, IsSignedWhole, sign_of, size_of};

use crate::decimal::Decimal;
use crate::sign::Sign;
use crate::signed::Signed;
use fixed_decimal_unsigned::UnsignedDecimal;
use std::alloc::{AllocError, Global};

// The sign of a whole number.
fn sign_below(integer: i128) -> Sign
    ensures { result ≡ sign_of integer }
{
    if integer < 0 {
        Sign::Negative
    } else {
        Sign::None
    }
}

// The size of a whole number.
fn size_without_sign(integer: i128) -> u128
    ensures { result ≡ size_of integer }
{
    integer.unsigned_abs()
}

// The whole number as a decimal.
fn from_signed(alloc: Global, integer: i128) -> Result<Decimal, AllocError>
    ensures value { IfOk result (λ v. IsSignedWhole integer v) }
    ensures room { OnErr result (IsLong (size_of integer)) }
{
    let sign = sign_below(integer);
    let absolute = UnsignedDecimal::from_u128(alloc, size_without_sign(integer))?;
    Ok(Signed { sign, absolute })
}

impl Signed<UnsignedDecimal> {
    /// The whole number `integer`, without a sign: 250 is shown as `250`. It does not allocate, and always succeeds.
    pub fn from_u8(alloc: Global, integer: u8) -> Result<Decimal, AllocError>
        ensures value { IfOk result (λ v. IsWhole integer v) }
        ensures succeeds { IsOk result }
    {
        Decimal::from_u16(alloc, u16::from(integer))
    }

    /// The whole number `integer`, without a sign: 250 is shown as `250`. It does not allocate, and always succeeds.
    pub fn from_u16(alloc: Global, integer: u16) -> Result<Decimal, AllocError>
        ensures value { IfOk result (λ v. IsWhole integer v) }
        ensures succeeds { IsOk result }
    {
        Decimal::from_u32(alloc, u32::from(integer))
    }

    /// The whole number `integer`, without a sign: 250 is shown as `250`.
    ///
    /// It allocates where it has more than sixteen digits without the zeros at its end. `AllocError`: out of memory,
    /// only there.
    pub fn from_u32(alloc: Global, integer: u32) -> Result<Decimal, AllocError>
        ensures value { IfOk result (λ v. IsWhole integer v) }
        ensures room { OnErr result (IsLong integer) }
    {
        Decimal::from_u64(alloc, u64::from(integer))
    }

    /// The whole number `integer`, without a sign: 250 is shown as `250`.
    ///
    /// It allocates where it has more than sixteen digits without the zeros at its end. `AllocError`: out of memory,
    /// only there.
    pub fn from_u64(alloc: Global, integer: u64) -> Result<Decimal, AllocError>
        ensures value { IfOk result (λ v. IsWhole integer v) }
        ensures room { OnErr result (IsLong integer) }
    {
        Decimal::from_u128(alloc, u128::from(integer))
    }

    /// The whole number `integer`, without a sign: 250 is shown as `250`.
    ///
    /// It allocates where it has more than sixteen digits without the zeros at its end. `AllocError`: out of memory,
    /// only there.
    pub fn from_usize(alloc: Global, integer: usize) -> Result<Decimal, AllocError>
        ensures value { IfOk result (λ v. IsWhole integer v) }
        ensures room { OnErr result (IsLong integer) }
    {
        Decimal::from_u64(alloc, integer as u64)
    }

    /// The whole number `integer`, without a sign: 250 is shown as `250`.
    ///
    /// It allocates where it has more than sixteen digits without the zeros at its end. `AllocError`: out of memory,
    /// only there.
    pub fn from_u128(alloc: Global, integer: u128) -> Result<Decimal, AllocError>
        ensures value { IfOk result (λ v. IsWhole integer v) }
        ensures room { OnErr result (IsLong integer) }
    {
        let absolute = UnsignedDecimal::from_u128(alloc, integer)?;
        Ok(Signed {
            sign: Sign::None,
            absolute,
        })
    }

    /// The whole number `integer`, with a minus below zero: -25 is shown as `-25`. It does not allocate, and always
    /// succeeds.
    pub fn from_i8(alloc: Global, integer: i8) -> Result<Decimal, AllocError>
        ensures value { IfOk result (λ v. IsSignedWhole integer v) }
        ensures succeeds { IsOk result }
    {
        Decimal::from_i16(alloc, integer as i16)
    }

    /// The whole number `integer`, with a minus below zero: -25 is shown as `-25`. It does not allocate, and always
    /// succeeds.
    pub fn from_i16(alloc: Global, integer: i16) -> Result<Decimal, AllocError>
        ensures value { IfOk result (λ v. IsSignedWhole integer v) }
        ensures succeeds { IsOk result }
    {
        Decimal::from_i32(alloc, integer as i32)
    }

    /// The whole number `integer`, with a minus below zero: -25 is shown as `-25`.
    ///
    /// It allocates where it has more than sixteen digits without the zeros at its end. `AllocError`: out of memory,
    /// only there.
    pub fn from_i32(alloc: Global, integer: i32) -> Result<Decimal, AllocError>
        ensures value { IfOk result (λ v. IsSignedWhole integer v) }
        ensures room { OnErr result (IsLong (size_of integer)) }
    {
        Decimal::from_i64(alloc, integer as i64)
    }

    /// The whole number `integer`, with a minus below zero: -25 is shown as `-25`.
    ///
    /// It allocates where it has more than sixteen digits without the zeros at its end. `AllocError`: out of memory,
    /// only there.
    pub fn from_i64(alloc: Global, integer: i64) -> Result<Decimal, AllocError>
        ensures value { IfOk result (λ v. IsSignedWhole integer v) }
        ensures room { OnErr result (IsLong (size_of integer)) }
    {
        from_signed(alloc, integer as i128)
    }

    /// The whole number `integer`, with a minus below zero: -25 is shown as `-25`.
    ///
    /// It allocates where it has more than sixteen digits without the zeros at its end. `AllocError`: out of memory,
    /// only there.
    pub fn from_isize(alloc: Global, integer: isize) -> Result<Decimal, AllocError>
        ensures value { IfOk result (λ v. IsSignedWhole integer v) }
        ensures room { OnErr result (IsLong (size_of integer)) }
    {
        Decimal::from_i128(alloc, integer as i128)
    }

    /// The whole number `integer`, with a minus below zero: -25 is shown as `-25`.
    ///
    /// It allocates where it has more than sixteen digits without the zeros at its end. `AllocError`: out of memory,
    /// only there.
    pub fn from_i128(alloc: Global, integer: i128) -> Result<Decimal, AllocError>
        ensures value { IfOk result (λ v. IsSignedWhole integer v) }
        ensures room { OnErr result (IsLong (size_of integer)) }
    {
        from_signed(alloc, integer)
    }
}
