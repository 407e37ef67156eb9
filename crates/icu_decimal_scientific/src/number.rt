//! The scientific form of a decimal.

ghost use Rattle.std.specs.Prelude.{◌≡◌, ◌+◌, ◌≤◌, ◌<◌, ◌*◌, ◌^◌, ◌%◌, ◌-◌, ◌↔◌, IfNone, IfOk, IfSome, IsErr, IsSome, IsTrue, OnErr};
ghost use Rattle.fixed_decimal.specs.Range.{IsLong, IsLowest};
ghost use Rattle.fixed_decimal.specs.Shifts.{fall, rise};
ghost use Rattle.fixed_decimal.specs.WholeNumbers.{IsSignedWhole, size_of};
ghost use Rattle.icu_decimal_scientific.specs.FormOf.{below_form, form_of};
ghost use Rattle.icu_decimal_scientific.specs.Scientific.{IsBeyondPlaces, IsExponent, IsForm, IsFormOf, IsGreatestMultiple, IsSignificand, step};
ghost use Rattle.icu_decimal_scientific.specs.Steps.{CanRaise};

use crate::error::RangeError;
use crate::notation::ScientificNotation;
use crate::places::{fall_of, is_whole_at, lower, place_of, raise, rise_of};
use fixed_decimal::{Decimal, FixedInteger, ScientificDecimal, UnsignedDecimal};
use std::alloc::{AllocError, Global};
use std::marker::Model;

/// A significand, and the power of ten that it is multiplied by: 1.2 and 6 of 1200000.
#[derive(Debug, Drop)]
pub struct ScientificNumber {
    /// The significand, with the sign of the number: 1.2 of 1200000.
    pub significand: Decimal,
    /// The exponent: 6 of 1200000.
    pub exponent: i32,
}

impl Model for ScientificNumber {
    ghost use Rattle.icu_decimal_scientific.specs.Scientific.{ScientificParts};

    ghost Value = { ScientificParts };

    ghost view = { λ a. record { significand = a.significand; exponent = a.exponent } };
}

// The exponent that is counted from -32769 up.
fn exponent_from(raised: u32) -> i32
    requires { raised < 65540 }
    ensures rise { rise result ≡ raised - 32769 }
    ensures fall { fall result ≡ 32769 - raised }
{
    raised as i32 - 32769
}

// The greatest exponent of a notation that is not above the magnitude of a place.
fn greatest_exponent(place: u32, notation: ScientificNotation) -> i32
    requires { place < 65536 }
    ensures { IsGreatestMultiple (step notation) place result }
{
    match notation {
        ScientificNotation::Scientific => exponent_from(place + 1),
        ScientificNotation::Engineering => exponent_from((place + 1) / 3 * 3),
    }
}

// The exponent of a number.
#[tactic(auto, using(crate::proofs::FormLemmas::exponent_is))]
pub(crate) fn exponent_of(number: &UnsignedDecimal, notation: ScientificNotation) -> i32
    ensures exponent { IsExponent notation number.now.count result }
    ensures room { fall result ≤ 32769 }
    ensures top { rise result < 32768 }
{
    greatest_exponent(place_of(number.nonzero_magnitude_start()), notation)
}

// Multiplies a number below one by ten so often, in two steps.
fn raise_far(number: &mut UnsignedDecimal, by: u32)
    requires by { by < 32770 }
    requires few { CanRaise number.old.count by }
    ensures { number.new.count ≡ number.old.count * 10 ^ by }
{
    let half = by / 2;
    number.trim_start();
    raise(number, half);
    number.trim_start();
    raise(number, by - half);
}

// Divides a number whose fraction ends with no zero by ten to an exponent, where no digit is lost.
fn divide(number: &mut UnsignedDecimal, exponent: i32)
    requires trimmed { IsLowest 32768 number.old.count number.old.low }
    requires rise { rise exponent < 32768 }
    requires fall { fall exponent < 32770 }
    requires few { 0 < fall exponent → CanRaise number.old.count (fall exponent) }
    requires whole { number.old.count % 10 ^ rise exponent ≡ 0 }
    ensures { number.new.count * 10 ^ rise exponent ≡ number.old.count * 10 ^ fall exponent }
{
    let by = fall_of(exponent);
    if by > 0 {
        raise_far(number, by);
        return;
    }
    lower(number, rise_of(exponent) as u16);
}

// Makes a number its significand with an exponent, where no digit is lost.
fn take_significand(number: &mut UnsignedDecimal, exponent: i32)
    requires rise { rise exponent < 32768 }
    requires fall { fall exponent < 32770 }
    requires few { 0 < fall exponent → CanRaise number.old.count (fall exponent) }
    requires whole { number.old.count % 10 ^ rise exponent ≡ 0 }
    ensures { IsSignificand exponent number.old number.new }
{
    number.trim_end();
    divide(number, exponent);
    number.trim_end();
    number.trim_start();
}

// Makes a number the significand of its form, where it has one, and says the exponent.
#[tactic(auto, using(crate::proofs::FormLemmas::form_made, crate::proofs::FormLemmas::beyond_made))]
fn take_form(number: &mut UnsignedDecimal, notation: ScientificNotation) -> Option<i32>
    ensures some { IfSome result (λ e. IsForm notation number.old number.new e) }
    ensures none { IfNone result (IsBeyondPlaces notation number.old.count) }
    ensures same { IfNone result (number.new ≡ number.old) }
    ensures room { IfSome result (λ e. rise e < 32768) }
{
    let _number = number.magnitude_range(); // for the proof
    let exponent = exponent_of(number, notation);
    if !is_whole_at(number, rise_of(exponent)) {
        return None;
    }
    take_significand(number, exponent);
    Some(exponent)
}

// Whether a number without a sign has a form.
fn is_formed(number: &UnsignedDecimal, notation: ScientificNotation) -> bool
    ensures { IsTrue result ↔ (below_form notation number.now.count ≡ 0) }
{
    let _number = number.magnitude_range(); // for the proof
    let exponent = exponent_of(number, notation);
    is_whole_at(number, rise_of(exponent))
}

/// Whether a number has a form in a notation: each has but those with a digit of the significand below the magnitude
/// -32768, as 1000 with 32768 digits after the point, of which the last is not zero. It does not allocate.
pub fn has_form(value: &Decimal, notation: ScientificNotation) -> bool
    ensures { IsTrue result ↔ (below_form notation value.now.absolute.count ≡ 0) }
{
    is_formed(&value.absolute, notation)
}

/// Makes a number the significand of its form, with its sign, and answers the exponent: 1200000.0 becomes 1.2, and the
/// exponent is 6. The exponent is at most 32767.
///
/// `None` where the number has no form, as of `RangeError`; it is then as it was. It does not allocate.
pub fn make_significand(value: &mut Decimal, notation: ScientificNotation) -> Option<i32>
    ensures succeeds { IsSome result ↔ (below_form notation value.old.absolute.count ≡ 0) }
    ensures value { IfSome result
        (λ e. record { significand = value.new; exponent = e } ≡ form_of notation value.old) }
    ensures exponent { IfSome result (λ e. rise e < 32768) }
    ensures none { IfNone result (¬ (below_form notation value.old.absolute.count ≡ 0)) }
    ensures same { IfNone result (value.new ≡ value.old) }
{
    let _number = value.absolute.magnitude_range(); // for the proof
    take_form(&mut value.absolute, notation)
}

impl ScientificNumber {
    /// The form of a decimal: 1.2 and 6 of 1200000 and of 1200000.0, in engineering notation 120 and -6 of 0.00012, and
    /// 0 and 0 of zero. The significand has the sign of the decimal, and no zeros at its ends; the exponent is at most
    /// 32767.
    ///
    /// `RangeError`: a digit of the significand would be below the magnitude -32768, as that of 1000 and 32768 digits
    /// after the point. It does not allocate.
    ///
    /// Source: UTS 35, part 3 (numbers), scientific notation.
    pub fn of_decimal(
        decimal: Decimal,
        notation: ScientificNotation,
    ) -> Result<ScientificNumber, RangeError>
        ensures value { IfOk result (λ form. IsFormOf notation decimal form) }
        ensures range { IsErr result → IsBeyondPlaces notation decimal.absolute.count }
        ensures exponent { IfOk result (λ form. rise form.exponent < 32768) }
    {
        let mut significand = decimal;
        match take_form(&mut significand.absolute, notation) {
            Some(exponent) => Ok(ScientificNumber {
                significand,
                exponent,
            }),
            None => Err(RangeError),
        }
    }

    /// The number as a `ScientificDecimal`, which prints both: 1.2 and -6 give `1.2e-6`.
    ///
    /// `AllocError`: out of memory, only where the exponent has more than sixteen digits, which none has.
    pub fn into_scientific_decimal(self, alloc: Global) -> Result<ScientificDecimal, AllocError>
        ensures significand { IfOk result (λ v. v.significand ≡ self.significand) }
        ensures exponent { IfOk result (λ v. IsSignedWhole self.exponent v.exponent) }
        ensures room { OnErr result (IsLong (size_of self.exponent)) }
    {
        let exponent = FixedInteger::from_i32(alloc, self.exponent)?;
        let ScientificNumber {
            significand,
            exponent: _,
        } = self;
        Ok(ScientificDecimal::from(significand, exponent))
    }
}
