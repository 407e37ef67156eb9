//! The decimal that a significand and an exponent are.

ghost use Rattle.std.specs.Prelude.{◌≡◌, ◌↔◌, ◌+◌, ◌%◌, ◌^◌, ◌<◌, IfOk, IsErr, IsFalse, IsTrue};
ghost use Rattle.fixed_decimal.specs.Shifts.{IsShifted, PadsEnd};
ghost use Rattle.fixed_decimal.specs.SignedValue.{OnAbsolute};
ghost use Rattle.icu_decimal_scientific.specs.Product.{HasProduct};
ghost use Rattle.icu_decimal_scientific.specs.Steps.{IsLowered};

use crate::error::RangeError;
use crate::number::ScientificNumber;
use crate::places::{
    fall_of, high_place, is_whole_at, lower_trimmed, magnitude_of, place_of, raise, rise_of,
};
use fixed_decimal::{Decimal, UnsignedDecimal};

// How many places are above the highest digit shown.
fn room_above(number: &UnsignedDecimal) -> u32
    ensures { number.now.high + result ≡ 65535 }
{
    65535 - high_place(number)
}

// Whether a number times ten to an exponent is a decimal.
pub(crate) fn is_decimal(number: &UnsignedDecimal, exponent: i32) -> bool
    ensures has { IsTrue result → HasProduct exponent number.now }
    ensures none { IsFalse result → ¬ (HasProduct exponent number.now) }
{
    let _number = number.magnitude_range(); // for the proof
    let by = fall_of(exponent);
    if by > 0 {
        return is_whole_at(number, by);
    }
    rise_of(exponent) <= room_above(number)
}

// Shows a number down to a place that is not above the ones, or to its last digit below that.
fn show_down_to(number: &mut UnsignedDecimal, at: u32)
    requires { at < 32769 }
    ensures { PadsEnd at number.old number.new }
{
    number.pad_end(magnitude_of(at));
}

// Divides a number by ten so often, where no digit is lost but zeros.
fn lower_shown(number: &mut UnsignedDecimal, by: u16)
    requires { number.old.count % 10 ^ by ≡ 0 }
    ensures { IsLowered by number.old number.new }
{
    let shown = place_of(*number.magnitude_range().start());
    let lowest = shown.saturating_sub(by as u32);
    let half = by / 2;
    lower_trimmed(number, half);
    lower_trimmed(number, by - half);
    show_down_to(number, lowest);
}

// Multiplies a number by ten to an exponent.
fn shift(number: &mut UnsignedDecimal, exponent: i32)
    requires { HasProduct exponent number.old }
    ensures { IsShifted exponent number.old number.new }
{
    let _number = number.magnitude_range(); // for the proof
    let by = fall_of(exponent);
    if by > 0 {
        lower_shown(number, by.min(65535) as u16);
        return;
    }
    raise(number, rise_of(exponent));
}

impl ScientificNumber {
    /// The decimal that it is: 1200000 of 1.20 and 6, 0.0120 of 1.20 and -2. The digits shown move with the point, and
    /// none is shown below the magnitude -32768.
    ///
    /// `RangeError`: a digit shown would be above the magnitude 32767, as of 1 and 32768, or one that is not zero below
    /// -32768, as of 1.2 and -32768. It does not allocate.
    pub fn into_decimal(self) -> Result<Decimal, RangeError>
        ensures value { IfOk result (λ decimal. OnAbsolute (IsShifted self.exponent) self.significand decimal) }
        ensures range { IsErr result ↔ (¬ (HasProduct self.exponent self.significand.absolute)) }
    {
        let ScientificNumber {
            significand,
            exponent,
        } = self;
        let mut decimal = significand;
        if !is_decimal(&decimal.absolute, exponent) {
            return Err(RangeError);
        }
        shift(&mut decimal.absolute, exponent);
        Ok(decimal)
    }
}
