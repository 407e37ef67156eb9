//! Which exponent a whole number is, and how it is shown.

ghost use Rattle.std.specs.Prelude.{◌≡◌, ◌≢◌, ◌↔◌, ℤ, ◌+◌, ◌*◌, ◌/◌, ◌^◌, ◌<◌, ◌≤◌, IfNone, IfSome, IsFalse, IsTrue};
ghost use Rattle.fixed_decimal.specs.IntegerText.{ShowsNoFraction};
ghost use Rattle.fixed_decimal.specs.Number.{digit};
ghost use Rattle.fixed_decimal.specs.Range.{IsHighest};
ghost use Rattle.fixed_decimal.specs.Shifts.{fall, rise};
ghost use Rattle.fixed_decimal.specs.WholeNumbers.{size_of};
ghost use Rattle.icu_decimal_scientific.specs.ShownNumbers.{IsShownExponent};
ghost use Rattle.icu_decimal_scientific.specs.Steps.{IsExponentShown};

use crate::places::{first_place, high_place, magnitude_of};
use crate::shown::{ExponentOptions, sign_shown};
use fixed_decimal::{Decimal, Sign, UnsignedDecimal};

// The digit so far before the point.
fn digit_before(number: &UnsignedDecimal, position: u8) -> u8
    ensures value { result ≡ digit number.now.count (32768 + position) }
    ensures ten { result < 10 }
{
    number.digit_at(magnitude_of(32768 + position as u32))
}

// The whole number that the five digits before the point are, where there are no others.
fn five_digits(number: &UnsignedDecimal) -> u32
    requires { number.now.count < 10 ^ 32773 }
    ensures { result ≡ number.now.count / 10 ^ 32768 }
{
    let mut value = 0u32;
    let mut left = 5u8;
    while left > 0 {
        left -= 1;
        value = value * 10 + digit_before(number, left) as u32;
    }
    value
}

// The whole number, where it has at most five digits.
fn whole_of(number: &UnsignedDecimal) -> Option<u32>
    requires { number.now.low ≡ 32768 }
    ensures some { IfSome result (λ n. number.now.count ≡ n * 10 ^ 32768) }
    ensures small { IfSome result (λ n. n < 100000) }
    ensures none { IfNone result (10 ^ 32773 ≤ number.now.count) }
{
    let _number = number.magnitude_range(); // for the proof
    let first = first_place(number);
    if first > 32772 {
        return None;
    }
    Some(five_digits(number))
}

// The exponent of a size and a sign.
fn exponent_of_size(size: u32, sign: Sign) -> i32
    requires { size < 100000 }
    ensures size { size_of result ≡ size }
    ensures below { sign ≡ Sign.Negative → rise result ≡ 0 }
    ensures above { sign ≢ Sign.Negative → fall result ≡ 0 }
{
    match sign {
        Sign::Negative => -(size as i32),
        Sign::None | Sign::Positive => size as i32,
    }
}

// The exponent that a whole number of at most five digits is.
pub(crate) fn exponent_value(exponent: &Decimal) -> Option<i32>
    requires { ShowsNoFraction exponent.now }
    ensures some { IfSome result (λ value. IsExponentShown value exponent.now) }
    ensures none { IfNone result (10 ^ 32773 ≤ exponent.now.absolute.count) }
{
    let Some(size) = whole_of(&exponent.absolute) else {
        return None;
    };
    Some(exponent_of_size(size, exponent.sign))
}

// The highest place of an exponent that is shown with at least so many digits.
fn highest_shown(number: &UnsignedDecimal, least: u8) -> u32
    ensures { IsHighest 32768 (32768 + least) number.now.count result }
{
    first_place(number).max(32768).max(32767 + least as u32)
}

// Whether two signs are one.
fn is_same_sign(one: Sign, other: Sign) -> bool
    ensures { IsTrue result ↔ (one ≡ other) }
{
    one == other
}

// Whether an exponent is shown as options say, and else no other is.
pub(crate) fn is_shown_so(exponent: &Decimal, value: i32, options: ExponentOptions) -> bool
    requires whole { ShowsNoFraction exponent.now }
    requires value { IsExponentShown value exponent.now }
    ensures so { IsTrue result → IsShownExponent options value exponent.now }
    ensures otherwise { IsFalse result → (other : ℤ) → ¬ (IsShownExponent options other exponent.now) }
{
    if !is_same_sign(exponent.sign, sign_shown(options.sign, value)) {
        return false;
    }
    high_place(&exponent.absolute) == highest_shown(&exponent.absolute, options.least_digits)
}
