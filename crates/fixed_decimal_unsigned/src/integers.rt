//! Numbers made from the unsigned integers of each width.

ghost use Rattle.std.specs.Prelude.{◌<◌, ◌^◌, IfOk, OnErr, IsOk};
ghost use Rattle.fixed_decimal_unsigned.specs.Integers.{IsInteger};
ghost use Rattle.fixed_decimal_unsigned.specs.DigitCount.{IsLong};

use crate::reading::{Ends, assembled};
use crate::unsigned_decimal::UnsignedDecimal;
use fixed_decimal_digits::{
    Digits, ONES, WORD_LIMIT, cut_word, push_number, strip_zeros, word_of_number,
};
use std::alloc::{AllocError, Global};

// The whole number as a decimal: it is not 0, and its digits fit in a word.
fn from_word(alloc: Global, number: u64) -> UnsignedDecimal
    requires some { 0 < number }
    requires fits { number < 10 ^ 16 }
    ensures { IsInteger number result }
{
    let cut = cut_word(word_of_number(number));
    let mut digits = Digits::new(alloc);
    digits.assign_word(cut.word, cut.count);
    let ends = Ends {
        first: (ONES as usize + cut.zeros + cut.count - 1) as u16,
        last: ONES,
    };
    assembled(digits, cut.zeros, ends)
}

// The whole number as a decimal: it is not 0.
fn from_long(alloc: Global, number: u128) -> Result<UnsignedDecimal, AllocError>
    requires { 0 < number }
    ensures value { IfOk result (λ v. IsInteger number v) }
    ensures room { OnErr result (IsLong number) }
{
    let (left, zeros) = strip_zeros(number);
    let mut digits = Digits::new(alloc);
    push_number(&mut digits, left)?;
    let ends = Ends {
        first: (ONES as usize + zeros + digits.len() - 1) as u16,
        last: ONES,
    };
    Ok(assembled(digits, zeros, ends))
}

// The whole number as a decimal.
fn from_whole(alloc: Global, number: u128) -> Result<UnsignedDecimal, AllocError>
    ensures value { IfOk result (λ v. IsInteger number v) }
    ensures room { OnErr result (IsLong number) }
{
    if number == 0 {
        return Ok(UnsignedDecimal::zero(alloc));
    }
    if number < WORD_LIMIT {
        return Ok(from_word(alloc, number as u64));
    }
    from_long(alloc, number)
}

impl UnsignedDecimal {
    /// The whole number `integer`: 250 is shown as `250`. It does not allocate, and always succeeds.
    pub fn from_u8(alloc: Global, integer: u8) -> Result<UnsignedDecimal, AllocError>
        ensures value { IfOk result (λ v. IsInteger integer v) }
        ensures succeeds { IsOk result }
    {
        from_whole(alloc, u128::from(integer))
    }

    /// The whole number `integer`: 1729 is shown as `1729`. It does not allocate, and always succeeds.
    pub fn from_u16(alloc: Global, integer: u16) -> Result<UnsignedDecimal, AllocError>
        ensures value { IfOk result (λ v. IsInteger integer v) }
        ensures succeeds { IsOk result }
    {
        from_whole(alloc, u128::from(integer))
    }

    /// The whole number `integer`: 100000 is shown as `100000`.
    ///
    /// It allocates where it has more than sixteen digits without the zeros at its end. `AllocError`: out of memory.
    pub fn from_u32(alloc: Global, integer: u32) -> Result<UnsignedDecimal, AllocError>
        ensures value { IfOk result (λ v. IsInteger integer v) }
        ensures room { OnErr result (IsLong integer) }
    {
        from_whole(alloc, u128::from(integer))
    }

    /// The whole number `integer`: 1729 is shown as `1729`.
    ///
    /// It allocates where it has more than sixteen digits without the zeros at its end. `AllocError`: out of memory.
    pub fn from_u64(alloc: Global, integer: u64) -> Result<UnsignedDecimal, AllocError>
        ensures value { IfOk result (λ v. IsInteger integer v) }
        ensures room { OnErr result (IsLong integer) }
    {
        from_whole(alloc, u128::from(integer))
    }

    /// The whole number `integer`: 1729 is shown as `1729`.
    ///
    /// It allocates where it has more than sixteen digits without the zeros at its end. `AllocError`: out of memory.
    pub fn from_usize(alloc: Global, integer: usize) -> Result<UnsignedDecimal, AllocError>
        ensures value { IfOk result (λ v. IsInteger integer v) }
        ensures room { OnErr result (IsLong integer) }
    {
        from_whole(alloc, integer as u128)
    }

    /// The whole number `integer`: 1729 is shown as `1729`.
    ///
    /// It allocates where it has more than sixteen digits without the zeros at its end. `AllocError`: out of memory.
    pub fn from_u128(alloc: Global, integer: u128) -> Result<UnsignedDecimal, AllocError>
        ensures value { IfOk result (λ v. IsInteger integer v) }
        ensures room { OnErr result (IsLong integer) }
    {
        from_whole(alloc, integer)
    }
}
