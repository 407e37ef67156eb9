//! Decimal numbers without a sign: the type, zero and one, copies, single digits and the range shown.

ghost use Rattle.std.specs.Prelude.{◌≡◌, ◌==◌, ◌<◌, IfOk, OnErr, false};
ghost use Rattle.std.specs.Range.{range_inclusive_start, range_inclusive_end, range_inclusive_exhausted};
ghost use Rattle.fixed_decimal_unsigned.specs.Number.{place, digit, IsNumber};
ghost use Rattle.fixed_decimal_unsigned.specs.Integers.{IsInteger};
ghost use Rattle.fixed_decimal_unsigned.specs.DigitCount.{IsLong};

use crate::places::{magnitude_of, place_of};
use fixed_decimal_digits::{Digits, ONES, digit_at_place};
use std::alloc::{AllocError, Global};
use std::marker::Model;
use std::ops::RangeInclusive;

/// A decimal number without a sign, with the range of magnitudes that its text shows.
///
/// Magnitudes are -32768 to 32767, and the range always holds 0, so `0.50` and `0.5` are two values of one number. Up
/// to sixteen digits, from the first to the last one that is not zero, do not allocate.
#[derive(Debug, Drop)]
pub struct UnsignedDecimal {
    pub(crate) digits: Digits,
    pub(crate) top: u16,
    pub(crate) low: u16,
    pub(crate) high: u16,
}

impl Model for UnsignedDecimal {
    ghost use Rattle.fixed_decimal_unsigned.specs.Number.{Number};
    ghost use Rattle.fixed_decimal_digits.specs.DigitList.{count_of};
    ghost use Rattle.fixed_decimal_unsigned.specs.Stored.{IsStored};

    ghost Value = { Number };

    ghost view = { λ a. record { count = count_of a.digits.items a.top; low = a.low; high = a.high } };

    ghost invariant = { λ a. IsStored a.digits.items a.top a.low a.high };
}

impl UnsignedDecimal {
    /// The number zero, shown as `0`. It does not allocate.
    pub fn zero(alloc: Global) -> UnsignedDecimal
        ensures { result ≡ record { count = 0; low = 32768; high = 32768 } }
    {
        UnsignedDecimal {
            digits: Digits::new(alloc),
            top: ONES,
            low: ONES,
            high: ONES,
        }
    }

    /// The number one, shown as `1`. It does not allocate.
    pub fn one(alloc: Global) -> UnsignedDecimal
        ensures { IsInteger 1 result }
    {
        let mut digits = Digits::new(alloc);
        digits.push_reserved(1);
        UnsignedDecimal {
            digits,
            top: ONES,
            low: ONES,
            high: ONES,
        }
    }

    /// Whether the number is zero, whatever its range: true of `0` and of `0.00`. It does not allocate.
    pub fn is_zero(&self) -> bool
        ensures { result ≡ (self.now.count == 0) }
    {
        self.digits.is_empty()
    }

    /// The digit at a magnitude, from 0 to 9, and 0 outside of the range: of `12.3` it is 2 at 0 and 3 at -1.
    ///
    /// It does not allocate.
    pub fn digit_at(&self, magnitude: i16) -> u8
        ensures value { result ≡ digit self.now.count (place magnitude) }
        ensures ten { result < 10 }
    {
        digit_at_place(&self.digits, self.top as u32, place_of(magnitude) as u32)
    }

    /// The magnitudes that are shown, from the lowest to the highest: -1 to 2 of `012.3`. It does not allocate.
    pub fn magnitude_range(&self) -> RangeInclusive<i16>
        ensures low { place (range_inclusive_start result) ≡ self.now.low }
        ensures high { place (range_inclusive_end result) ≡ self.now.high }
        ensures whole { range_inclusive_exhausted result ≡ false }
        ensures number { IsNumber self.now }
    {
        magnitude_of(self.low)..=magnitude_of(self.high)
    }

    /// A copy: of `012.30` it is `012.30`.
    ///
    /// It allocates where the number has more than sixteen digits, from the first to the last one that is not zero.
    /// `AllocError`: out of memory, only there.
    pub fn try_clone(&self) -> Result<UnsignedDecimal, AllocError>
        ensures value { IfOk result (λ v. v ≡ self.now) }
        ensures room { OnErr result (IsLong self.now.count) }
        ensures number { IsNumber self.now }
    {
        let _number = self.magnitude_range(); // for the proof
        let digits = self.digits.try_clone()?;
        Ok(UnsignedDecimal {
            digits,
            top: self.top,
            low: self.low,
            high: self.high,
        })
    }
}
