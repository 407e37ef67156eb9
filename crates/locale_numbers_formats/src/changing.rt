//! Numbers changed by options.

ghost use Rattle.std.specs.Prelude.{◌≡◌, Some, IfOk, OnOk, OnErr, Option};
ghost use Rattle.fixed_decimal.specs.Number.{place};
ghost use Rattle.fixed_decimal.specs.RoundingMemory.{MayGrow};
ghost use Rattle.fixed_decimal.specs.SignedRounding.{size_mode};
ghost use Rattle.icu_dimension_fractions.specs.declared.FractionInfo.{FractionInfo as FractionDigits};
ghost use Rattle.icu_dimension_fractions.specs.FractionMemory.{MayGrowAmount};
ghost use Rattle.locale_numbers_formats.specs.AmountRounding.{amount_rounded};
ghost use Rattle.locale_numbers_formats.specs.Changed.{MayGrowAmountBy, MayGrowBy, amount_by, changed, last_of, rounded_by, settled_by, settled_rounding, signed_as};
ghost use Rattle.locale_numbers_formats.specs.Rounded.{rounded};

use crate::options::{NumberOptions, Rounding, RoundingPriority, SignAsked, SignificantDigits};
use crate::padding::show;
use crate::significant::{last_place_of, magnitude_of, place_of};
use fixed_decimal::{Decimal, RoundingIncrement, SignedRoundingMode};
use icu_dimension_fractions::{CurrencyUsage, Fraction, FractionInfo};
use std::alloc::AllocError;

// Rounds a number at a position.
fn round_at(
    value: &mut Decimal,
    position: i16,
    mode: SignedRoundingMode,
    increment: RoundingIncrement,
) -> Result<(), AllocError>
    ensures value { OnOk result (value.new ≡ rounded mode increment (place position) value.old) }
    ensures same { OnErr result (value.new ≡ value.old) }
    ensures room { OnErr result
        (MayGrow (size_mode value.old.sign mode) increment (place position) value.old.absolute.count) }
{
    value.round_with_mode_and_increment(position, mode, increment)
}

// Rounds an amount to the digits of its currency.
fn round_to_fraction(value: &mut Decimal, fraction: Fraction) -> Result<(), AllocError>
    ensures value { OnOk result (value.new ≡ amount_rounded fraction value.old) }
    ensures same { OnErr result (value.new ≡ value.old) }
    ensures room { OnErr result (MayGrowAmount fraction value.old.absolute) }
{
    fraction.round(value)
}

// Rounds a number to the digits of its currency, where it has one.
fn round_amount(
    value: &mut Decimal,
    fractions: Option<FractionInfo>,
    usage: CurrencyUsage,
) -> Result<(), AllocError>
    ensures value { OnOk result (value.new ≡ amount_by fractions usage value.old) }
    ensures same { OnErr result (value.new ≡ value.old) }
    ensures room { OnErr result (MayGrowAmountBy fractions usage value.old) }
{
    match fractions {
        None => Ok(()),
        Some(fractions) => round_to_fraction(value, fractions.fraction(usage)),
    }
}

// Rounds a number at a place to multiples of 1.
fn round_whole(value: &mut Decimal, place: u16, mode: SignedRoundingMode)
    ensures { value.new ≡ rounded mode RoundingIncrement.MultiplesOf1 place value.old }
{
    value.round_with_mode(magnitude_of(place), mode);
}

// Rounds a number to so many significant digits.
fn round_to_significant(value: &mut Decimal, digits: SignificantDigits, mode: SignedRoundingMode)
    ensures { value.new ≡ rounded mode RoundingIncrement.MultiplesOf1 (last_of digits.most value.old.absolute) value.old }
{
    let last = last_place_of(&value.absolute, digits.most);
    round_whole(value, last, mode);
}

// The one of a position and so many digits that counts, where the digits end at a place.
fn settled_by(
    priority: RoundingPriority,
    last: u16,
    position: i16,
    digits: SignificantDigits,
    mode: SignedRoundingMode,
) -> Rounding
    ensures { result ≡ settled_by priority last position digits mode }
{
    if priority.takes_digits(last, place_of(position)) {
        Rounding::Significant(digits, mode)
    } else {
        Rounding::At(position, mode, RoundingIncrement::MultiplesOf1)
    }
}

// Rounds a number whose digits end at the position too, and answers the one that counts.
fn round_where_both_are(
    value: &mut Decimal,
    priority: RoundingPriority,
    position: i16,
    digits: SignificantDigits,
    mode: SignedRoundingMode,
) -> Rounding
    requires { last_of digits.most value.old.absolute ≡ place position }
    ensures settled { result ≡ settled_rounding (Rounding.Either priority position digits mode) value.old }
    ensures value { (fractions : Option FractionDigits) → value.new ≡ rounded_by result fractions value.old }
{
    round_whole(value, place_of(position), mode);
    let last = last_place_of(&value.absolute, digits.most);
    settled_by(priority, last, position, digits, mode)
}

// Rounds a number to whichever of a position and so many digits counts, and answers that one.
fn round_either(
    value: &mut Decimal,
    priority: RoundingPriority,
    position: i16,
    digits: SignificantDigits,
    mode: SignedRoundingMode,
) -> Rounding
    ensures settled { result ≡ settled_rounding (Rounding.Either priority position digits mode) value.old }
    ensures value { (fractions : Option FractionDigits) → value.new ≡ rounded_by result fractions value.old }
{
    let last = last_place_of(&value.absolute, digits.most);
    let at = place_of(position);
    if last == at {
        round_where_both_are(value, priority, position, digits, mode)
    } else if priority.takes_digits(last, at) {
        round_whole(value, last, mode);
        Rounding::Significant(digits, mode)
    } else {
        round_whole(value, at, mode);
        Rounding::At(position, mode, RoundingIncrement::MultiplesOf1)
    }
}

// Rounds a number, where that is asked for, and answers the rounding that counted.
fn round(
    value: &mut Decimal,
    rounding: Rounding,
    fractions: Option<FractionInfo>,
) -> Result<Rounding, AllocError>
    ensures settled { IfOk result (λ settled. settled ≡ settled_rounding rounding value.old) }
    ensures value { OnOk result (value.new ≡ rounded_by (settled_rounding rounding value.old) fractions value.old) }
    ensures same { OnErr result (value.new ≡ value.old) }
    ensures room { OnErr result (MayGrowBy rounding fractions value.old) }
{
    match rounding {
        Rounding::Usual => round_amount(value, fractions, CurrencyUsage::Standard)?,
        Rounding::Cash => round_amount(value, fractions, CurrencyUsage::Cash)?,
        Rounding::AsGiven => (),
        Rounding::At(position, mode, increment) => round_at(value, position, mode, increment)?,
        Rounding::Significant(digits, mode) => round_to_significant(value, digits, mode),
        Rounding::Either(priority, position, digits, mode) => {
            return Ok(round_either(value, priority, position, digits, mode));
        }
    }
    Ok(rounding)
}

impl SignAsked {
    // Gives a number the sign that is asked for: by `Show(SignDisplay::Always)` 5 becomes +5, and by `Keep` it stays 5.
    pub(crate) fn choose(self, value: &mut Decimal)
        ensures { value.new ≡ signed_as self value.old }
    {
        match self {
            SignAsked::Keep => (),
            SignAsked::Show(display) => value.apply_sign_display(display),
        }
    }
}

impl NumberOptions {
    /// Makes of a number what is written: it is rounded, its zeros are trimmed, then it is padded, and then its sign is
    /// chosen by what that left. `fractions` are the digits of the currency, where the number is an amount of money.
    ///
    /// At -1 to the even one, with `Show(SignDisplay::Always)`, 9.75 becomes `+9.8`; to at least and at most 3 significant
    /// digits 1.5 becomes `1.50`, and 12345 becomes `12300`. It allocates only for some roundings
    /// to multiples of 25: those of `Decimal::round_with_mode_and_increment`. `AllocError`: out of memory; the number is
    /// then as it was.
    pub fn change(
        &self,
        fractions: Option<FractionInfo>,
        value: &mut Decimal,
    ) -> Result<(), AllocError>
        ensures value { OnOk result (value.new ≡ changed self.now fractions value.old) }
        ensures same { OnErr result (value.new ≡ value.old) }
        ensures room { OnErr result (MayGrowBy self.now.rounding fractions value.old) }
    {
        let settled = round(value, self.rounding, fractions)?;
        show(&mut value.absolute, settled, self);
        self.sign.choose(value);
        Ok(())
    }
}
