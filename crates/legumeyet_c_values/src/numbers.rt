//! The numbers that calls are given.

ghost use Rattle.std.specs.Prelude.{◌≡◌, ◌+◌, ◌<◌, ◌≤◌, pos, true, false, IfOk, IfErr, OnOk, IsTrue};
ghost use Rattle.std.specs.Float.{float_is_finite};
ghost use Rattle.fixed_decimal.specs.CompactText.{ReadsCompact};
ghost use Rattle.fixed_decimal.specs.Number.{place};
ghost use Rattle.fixed_decimal.specs.Shifts.{IsShifted, KeepsPlaces, fall, rise};
ghost use Rattle.fixed_decimal.specs.SignedText.{ReadsSigned};
ghost use Rattle.fixed_decimal.specs.SignedValue.{OnAbsolute};
ghost use Rattle.legumeyet_c_values.specs.Numbers.{Gives, GivesCompact, IsChangeFault, IsCompactChangeFault, IsCompactNumberFault, IsDoubleFault, IsGiven, IsGivenFault, IsNumberFault, IsOfDouble, IsScaled, IsScaledFault, ReadsSome, SpellsDouble, given_of};
ghost use Rattle.locale_numbers_formats.specs.Changed.{MayGrowBy, changed};

use crate::call_error::CallError;
use fixed_decimal::{CompactDecimal, Decimal, ParseError, UnsignedDecimal};
use icu_dimension_fractions::FractionInfo;
use locale_numbers_formats::NumberOptions;
use ryu::Buffer;
use std::alloc::Global;

/// Replaces a number by the one that a text spells: `-1.50` is -1.5 with two fraction digits. The errors are those of
/// `GivenNumber::assign_changed`.
pub fn assign_text(number: &mut Decimal, text: &[u8]) -> Result<(), CallError>
    ensures value { OnOk result (ReadsSigned text.now number.new) }
    ensures fault { IfErr result (λ error. IsNumberFault text.now error) }
{
    match number.assign_from_utf8(text) {
        Ok(()) => Ok(()),
        Err(ParseError::Syntax) => Err(CallError::Number),
        Err(ParseError::Limit) => Err(CallError::Limit),
        Err(ParseError::Memory) => Err(CallError::Memory),
    }
}

// The compact number that a text spells.
fn read_compact(alloc: Global, text: &[u8]) -> Result<CompactDecimal, CallError>
    ensures value { IfOk result (λ value. ReadsCompact text.now value) }
    ensures fault { IfErr result (λ error. IsCompactNumberFault text.now error) }
{
    let Ok(text) = str::from_utf8(text) else {
        return Err(CallError::Number);
    };
    match CompactDecimal::try_from_str(alloc, text) {
        Ok(value) => Ok(value),
        Err(ParseError::Syntax) => Err(CallError::Number),
        Err(ParseError::Limit) => Err(CallError::Limit),
        Err(ParseError::Memory) => Err(CallError::Memory),
    }
}

// Whether a magnitude is not below the lowest one when it is moved by an exponent.
fn is_above(magnitude: i16, by: i16) -> bool
    ensures within { result ≡ true → fall by ≤ place magnitude + rise by }
    ensures beyond { result ≡ false → place magnitude + rise by < fall by }
{
    magnitude as i32 + by as i32 >= -32768
}

// Whether it is not above the highest one.
fn is_below(magnitude: i16, by: i16) -> bool
    ensures within { result ≡ true → place magnitude + rise by < 65536 + fall by }
    ensures beyond { result ≡ false → 65536 + fall by ≤ place magnitude + rise by }
{
    magnitude as i32 + by as i32 <= 32767
}

// Whether all digits that are shown stay within the magnitudes, times ten to this power.
fn keeps_places(number: &UnsignedDecimal, exponent: i16) -> bool
    ensures within { result ≡ true → KeepsPlaces exponent number.now }
    ensures beyond { result ≡ false → ¬ (KeepsPlaces exponent number.now) }
{
    let range = number.magnitude_range();
    let above = is_above(*range.start(), exponent);
    let below = is_below(*range.end(), exponent);
    above && below
}

// Moves a whole number by a power of ten, its digits shown with it. `Limit`: a digit would be beyond the magnitudes, and
// the number stays.
fn move_by(whole: &mut Decimal, exponent: i16) -> Result<(), CallError>
    ensures value { OnOk result (OnAbsolute (IsShifted exponent) whole.old whole.new) }
    ensures fault { IfErr result
        (λ error. (error ≡ CallError.Limit) × (¬ (KeepsPlaces exponent whole.old.absolute))) }
{
    if exponent == 0 {
        let _range = whole.absolute.magnitude_range(); // for the proof
        return Ok(());
    }
    if keeps_places(&whole.absolute, exponent) {
        whole.absolute.multiply_pow10(exponent);
        Ok(())
    } else {
        Err(CallError::Limit)
    }
}

// Replaces a number by an integer times a power of ten.
pub(crate) fn assign_scaled(
    alloc: Global,
    number: &mut Decimal,
    mantissa: i64,
    exponent: i16,
) -> Result<(), CallError>
    ensures value { OnOk result (IsScaled mantissa exponent number.new) }
    ensures fault { IfErr result (λ error. IsScaledFault mantissa exponent error) }
{
    let Ok(whole) = Decimal::from_i64(alloc, mantissa) else {
        return Err(CallError::Memory);
    };
    *number = whole;
    move_by(number, exponent)
}

// Replaces a number by an integer without a sign times a power of ten.
fn assign_unsigned(
    alloc: Global,
    number: &mut Decimal,
    mantissa: u64,
    exponent: i16,
) -> Result<(), CallError>
    ensures value { OnOk result (IsScaled (pos mantissa) exponent number.new) }
    ensures fault { IfErr result (λ error. IsScaledFault (pos mantissa) exponent error) }
{
    let Ok(whole) = Decimal::from_u64(alloc, mantissa) else {
        return Err(CallError::Memory);
    };
    *number = whole;
    move_by(number, exponent)
}

// The digits of a finite double, which give it back.
fn digits_of(buffer: &mut Buffer, number: f64) -> &str
    requires { IsTrue (float_is_finite number) }
    ensures spells { SpellsDouble number result.now }
    ensures reads { ReadsSome result.now }
{
    let bits = number.to_bits();
    if bits == 0 {
        "0"
    } else if bits == 0x8000_0000_0000_0000 {
        "-0"
    } else {
        buffer.format_finite(number)
    }
}

// Replaces a number by that of a double's digits, without the zero after the point of a whole one.
pub(crate) fn assign_double(number: &mut Decimal, double: f64) -> Result<(), CallError>
    ensures value { OnOk result (IsOfDouble double number.new) }
    ensures fault { IfErr result (λ error. IsDoubleFault double error) }
{
    if !double.is_finite() {
        return Err(CallError::Number);
    }
    let mut buffer = Buffer::new();
    match assign_text(number, digits_of(&mut buffer, double).as_bytes()) {
        Ok(()) => {
            number.absolute.trim_end();
            Ok(())
        }
        Err(error) => Err(error),
    }
}

/// A number, as a call is given it.
#[derive(Clone, Copy, Drop)]
pub enum GivenNumber<'a> {
    /// A text: `1.5`.
    Text(&'a [u8]),
    /// An integer times ten to a power: 15 and -1 are 1.5.
    Scaled(i64, i16),
    /// An integer without a sign times ten to a power.
    ScaledUnsigned(u64, i16),
    /// A double, which is the shortest number that gives it back: 0.1 of 0.1, 5 of 5.0, and -0 of -0.0.
    Double(f64),
}

/// Changes a number as options ask for, `fractions` being the digits of its currency, where it is an amount of money. At
/// -1 to the even one, with the sign always, 9.75 becomes `+9.8`.
///
/// `Memory`: out of memory, which only multiples of 25 take; the number is then as it was.
pub fn change(
    number: &mut Decimal,
    options: &NumberOptions,
    fractions: Option<FractionInfo>,
) -> Result<(), CallError>
    ensures value { OnOk result (number.new ≡ changed options.now fractions number.old) }
    ensures fault { IfErr result
        (λ error. (error ≡ CallError.Memory) × MayGrowBy options.now.rounding fractions number.old) }
{
    match options.change(fractions, number) {
        Ok(()) => Ok(()),
        Err(_) => Err(CallError::Memory),
    }
}

impl<'a> GivenNumber<'a> {
    // Replaces a number by this one.
    fn assign(self, alloc: Global, number: &mut Decimal) -> Result<(), CallError>
        ensures value { OnOk result (IsGiven (given_of self.entry) number.new) }
        ensures fault { IfErr result (λ error. IsGivenFault (given_of self.entry) error) }
    {
        match self {
            GivenNumber::Text(text) => assign_text(number, text),
            GivenNumber::Scaled(mantissa, exponent) => {
                assign_scaled(alloc, number, mantissa, exponent)
            }
            GivenNumber::ScaledUnsigned(mantissa, exponent) => {
                assign_unsigned(alloc, number, mantissa, exponent)
            }
            GivenNumber::Double(double) => assign_double(number, double),
        }
    }

    /// Replaces a number by this one, changed as options ask for, `fractions` being the digits of its currency, where it is
    /// an amount of money: the text `9.75`, at -1 to the even one, with the sign always, is 9.8 with a plus.
    ///
    /// `Number`: a text is no decimal number, or a double is not finite. `Limit`: a digit would be beyond the magnitudes
    /// -32768 to 32767. `Memory`: out of memory, which a number of sixteen digits at most takes only by multiples of 25.
    pub fn assign_changed(
        self,
        alloc: Global,
        options: &NumberOptions,
        fractions: Option<FractionInfo>,
        number: &mut Decimal,
    ) -> Result<(), CallError>
        ensures value { OnOk result (Gives options.now fractions (IsGiven (given_of self.entry)) number.new) }
        ensures fault { IfErr result
            (λ error. IsChangeFault options.now fractions (IsGiven (given_of self.entry))
            (IsGivenFault (given_of self.entry)) error) }
    {
        self.assign(alloc, number)?;
        match change(number, options, fractions) {
            Ok(()) => Ok(()),
            Err(error) => Err(error),
        }
    }
}

/// The compact number that a text spells, its significand changed as options ask for: `1.25c3` to tenths is `1.2c3`. The
/// errors are those of `GivenNumber::assign_changed`.
pub fn compact_of_text(
    alloc: Global,
    text: &[u8],
    options: &NumberOptions,
    fractions: Option<FractionInfo>,
) -> Result<CompactDecimal, CallError>
    ensures value { IfOk result (λ value. GivesCompact options.now fractions text.now value) }
    ensures fault { IfErr result (λ error. IsCompactChangeFault options.now fractions text.now error) }
{
    let value = read_compact(alloc, text)?;
    let exponent = value.exponent();
    let mut significand = value.into_significand();
    match change(&mut significand, options, fractions) {
        Ok(()) => Ok(CompactDecimal::from_significand_and_exponent(significand, exponent)),
        Err(error) => Err(error),
    }
}
