//! Significands that were changed, and reached a higher exponent.

ghost use Rattle.std.specs.Prelude.{◌≡◌, ℤ, pos, ◌+ℤ◌, ◌/◌, ◌%◌, ◌^◌, ◌<◌, false, true};
ghost use Rattle.fixed_decimal.specs.Shifts.{rise};
ghost use Rattle.icu_decimal_scientific.specs.FormOf.{bare, carried, does_carry, reach};

use crate::notation::ScientificNotation;
use crate::number::{ScientificNumber, exponent_of};
use crate::places::{is_whole_at, lower_trimmed, rise_of};
use fixed_decimal::{Decimal, UnsignedDecimal};

// How far a significand reached above those of its notation.
fn reach_of(number: &UnsignedDecimal, notation: ScientificNotation) -> u32
    ensures value { result ≡ reach notation number.now.count }
    ensures room { result < 32768 }
{
    let _number = number.magnitude_range(); // for the proof
    let exponent = exponent_of(number, notation);
    rise_of(exponent)
}

// How often a significand is divided by ten again: so far, where no digit is lost.
#[tactic(auto, using(crate::proofs::FormOfLemmas::carries_by, crate::proofs::FormOfLemmas::stays_by, crate::proofs::FormOfLemmas::loses_by))]
fn carry_of(number: &UnsignedDecimal, notation: ScientificNotation) -> u16
    ensures carries { 0 < result → does_carry notation number.now.count ≡ true }
    ensures reach { 0 < result → result ≡ reach notation number.now.count }
    ensures whole { number.now.count % 10 ^ result ≡ 0 }
    ensures stays { result ≡ 0 → does_carry notation number.now.count ≡ false }
    ensures room { result < 32768 }
{
    let reach = reach_of(number, notation);
    if !is_whole_at(number, reach) {
        return 0;
    }
    reach as u16
}

// Divides a number by ten so often, and shows no zeros at its ends.
fn lower_bare(number: &mut UnsignedDecimal, by: u16)
    requires by { by < 32768 }
    requires whole { number.old.count % 10 ^ by ≡ 0 }
    ensures { number.new ≡ bare (number.old.count / 10 ^ by) }
{
    lower_trimmed(number, by);
    number.trim_end();
    number.trim_start();
    let _number = number.magnitude_range(); // for the proof
}

/// Divides a significand that was changed and is 10 or more, in engineering notation 1000 or more, by the power of ten
/// that makes it normal, and answers how often it was divided by ten: 10.0 becomes 1, and the answer is 1. It is 0 where
/// the significand stays as it is.
///
/// The caller then adds the answer to the exponent, and changes the significand again. It does not divide where a digit
/// would be below the magnitude -32768. It does not allocate.
pub fn carry_significand(value: &mut Decimal, notation: ScientificNotation) -> u16
    ensures value { (exponent : ℤ) → record { significand = value.new; exponent = exponent +ℤ pos result }
        ≡ carried notation (record { significand = value.old; exponent = exponent }) }
    ensures carries { 0 < result → does_carry notation value.old.absolute.count ≡ true }
    ensures stays { result ≡ 0 → does_carry notation value.old.absolute.count ≡ false }
    ensures room { result < 32768 }
{
    let by = carry_of(&value.absolute, notation);
    if by > 0 {
        lower_bare(&mut value.absolute, by);
    }
    by
}

impl ScientificNumber {
    /// Divides a significand that was changed and is 10 or more, in engineering notation 1000 or more, by the power of
    /// ten that makes it normal, raises the exponent by as much, and says whether it did: 10.0 and 5 become 1 and 6.
    ///
    /// The caller then changes the significand again. It does not divide where a digit would be below the magnitude
    /// -32768. The condition is met by the exponent of each form. It does not allocate.
    pub fn carry(&mut self, notation: ScientificNotation) -> bool
        requires { rise self.old.exponent < 2 ^ 30 }
        ensures carries { result ≡ does_carry notation self.old.significand.absolute.count }
        ensures value { self.new ≡ carried notation self.old }
    {
        let by = carry_significand(&mut self.significand, notation);
        if by == 0 {
            return false;
        }
        self.exponent += by as i32;
        true
    }
}
