//! Scientific numbers as they are shown.

ghost use Rattle.std.specs.Prelude.{◌≡◌, ◌+◌, ◌<◌, IfOk, IsOk};
ghost use Rattle.fixed_decimal.specs.IntegerText.{ShowsNoFraction};
ghost use Rattle.fixed_decimal.specs.Shifts.{PadsStart};
ghost use Rattle.icu_decimal_scientific.specs.ShownNumbers.{IsShownAs, exponent_sign, shown_exponent};

use crate::number::ScientificNumber;
use fixed_decimal::{Decimal, FixedInteger, ScientificDecimal, Sign, UnsignedDecimal};
use std::alloc::{AllocError, Global};
use std::marker::Model;

/// When an exponent has a sign: with `Always` 1200000 is `1.2E+6`.
#[derive(Clone, Copy, Debug, Default, PartialEq, Eq, Hash)]
pub enum ExponentSign {
    /// A minus sign below 0, and else none: `1.2E6`.
    #[default]
    Auto,
    /// A minus sign below 0, and else a plus sign: `1.2E+6`.
    Always,
}

/// How an exponent is shown: with the sign `Always` and at least two digits 1200000 is `1.2E+06`. By default it is
/// `1.2E6`.
#[derive(Clone, Copy, Debug, Default, PartialEq, Eq, Hash)]
pub struct ExponentOptions {
    /// When it has a sign.
    pub sign: ExponentSign,
    /// How many digits are shown at least; 0 means one: 2 of `1.2E06`.
    pub least_digits: u8,
}

/// A scientific number as it is shown: 1.2 and 06 of `1.2E06`.
#[derive(Debug, Drop)]
pub struct ShownScientific {
    pub(crate) significand: Decimal,
    pub(crate) exponent: Decimal,
}

impl Model for ShownScientific {
    ghost use Rattle.fixed_decimal.specs.IntegerText.{ShowsNoFraction};
    ghost use Rattle.fixed_decimal.specs.ScientificText.{ScientificValue};

    ghost Value = { ScientificValue };

    ghost view = { λ a. record { significand = a.significand; exponent = a.exponent } };

    ghost invariant = { λ a. ShowsNoFraction a.exponent };
}

// The sign that an exponent is shown with.
pub(crate) fn sign_shown(sign: ExponentSign, exponent: i32) -> Sign
    ensures { result ≡ exponent_sign sign exponent }
{
    if exponent < 0 {
        return Sign::Negative;
    }
    match sign {
        ExponentSign::Auto => Sign::None,
        ExponentSign::Always => Sign::Positive,
    }
}

// Shows at least so many digits of a whole number.
#[tactic(auto, using(crate::proofs::ReaderLemmas::pads_so))]
fn pad(number: &mut UnsignedDecimal, digits: u8)
    ensures { PadsStart (32768 + digits) number.old number.new }
{
    number.pad_start(digits as i16);
}

/// An exponent as the decimal that is shown: 6 with the sign `Always` and at least two digits is `+06`, and -4 by the
/// default options `-4`. It does not allocate, and always succeeds.
pub fn shown_exponent(
    alloc: Global,
    exponent: i32,
    options: ExponentOptions,
) -> Result<Decimal, AllocError>
    ensures succeeds { IsOk result }
    ensures value { IfOk result (λ v. v ≡ shown_exponent options exponent) }
{
    let mut shown = Decimal::from_i32(alloc, exponent)?;
    pad(&mut shown.absolute, options.least_digits);
    Ok(shown.with_sign(sign_shown(options.sign, exponent)))
}

impl ScientificNumber {
    /// The number as it is shown: 1.2 and 6 with the sign `Always` and at least two digits are `1.2E+06`. It does not
    /// allocate, and always succeeds.
    pub fn shown(
        self,
        alloc: Global,
        options: ExponentOptions,
    ) -> Result<ShownScientific, AllocError>
        ensures succeeds { IsOk result }
        ensures value { IfOk result (λ v. IsShownAs options self v) }
    {
        let exponent = shown_exponent(alloc, self.exponent, options)?;
        let ScientificNumber {
            significand,
            exponent: _,
        } = self;
        Ok(ShownScientific {
            significand,
            exponent,
        })
    }
}

impl ShownScientific {
    /// A significand with its exponent, both as they are given: 1.2 and 06 are `1.2E06`. It does not allocate.
    pub fn new(significand: Decimal, exponent: FixedInteger) -> ShownScientific
        ensures { result ≡ record { significand = significand; exponent = exponent } }
    {
        ShownScientific {
            significand,
            exponent: exponent.into_decimal(),
        }
    }

    /// The significand: 1.2 of `1.2E06`. It does not allocate.
    pub fn significand(&self) -> &Decimal
        ensures { result.now ≡ self.now.significand }
    {
        &self.significand
    }

    /// The exponent, a whole number: 06 of `1.2E06`. It does not allocate.
    pub fn exponent(&self) -> &Decimal
        ensures value { result.now ≡ self.now.exponent }
        ensures whole { ShowsNoFraction result.now }
    {
        &self.exponent
    }

    // The number with another sign of its significand.
    pub(crate) fn with_sign(self, sign: Sign) -> ShownScientific
        ensures { result ≡ record {
          significand = record { sign = sign; absolute = self.significand.absolute };
          exponent = self.exponent;
        } }
    {
        let ShownScientific {
            significand,
            exponent,
        } = self;
        ShownScientific {
            significand: significand.with_sign(sign),
            exponent,
        }
    }

    /// The number as a `ScientificDecimal`, which prints both: 1.2 and 06 give `1.2e06`. It does not allocate.
    pub fn into_scientific_decimal(self) -> ScientificDecimal
        ensures { result ≡ self }
    {
        let ShownScientific {
            significand,
            exponent,
        } = self;
        match FixedInteger::try_from(exponent) {
            Ok(exponent) => ScientificDecimal::from(significand, exponent),
            Err(_) => unreachable!(),
        }
    }
}
