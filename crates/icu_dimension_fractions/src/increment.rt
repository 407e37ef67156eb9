//! Which multiples of the last digit are paid.

ghost use Rattle.std.specs.Prelude.{◌≡◌, ◌≢◌, ◌*◌, ◌<◌, false, true, IsTrue};
ghost use Rattle.fixed_decimal.specs.Rounding.{increment_number};
ghost use Rattle.icu_dimension_fractions.specs.Fractions.{increment_of};
ghost use Rattle.icu_dimension_fractions.specs.RoundedDigit.{counts_tens, tens_of};
ghost use Rattle.icu_dimension_fractions.specs.declared.increment.FractionIncrement.TheVariants.{MultiplesOf1};

use fixed_decimal::RoundingIncrement;

/// Which multiples of the last digit an amount is rounded to: those of 5 for Swiss francs in cash, `2.35`.
#[derive(Clone, Copy, Debug, PartialEq, Eq)]
pub enum FractionIncrement {
    /// Each unit of the last digit: cents of dollars.
    MultiplesOf1,
    /// Each second unit of the last digit.
    MultiplesOf2,
    /// Each fifth unit of the last digit: Swiss francs in cash.
    MultiplesOf5,
    /// Each tenth unit of the last digit.
    MultiplesOf10,
    /// Each twentieth unit of the last digit.
    MultiplesOf20,
    /// Each twenty-fifth unit of the last digit.
    MultiplesOf25,
    /// Each fiftieth unit of the last digit: Danish crowns in cash.
    MultiplesOf50,
}

impl FractionIncrement {
    // Whether each unit of the last digit is a multiple.
    pub(crate) fn is_one(self) -> bool
        ensures { IsTrue result → self ≡ MultiplesOf1 }
    {
        matches!(self, FractionIncrement::MultiplesOf1)
    }

    // How many units of the last digit it is.
    pub(crate) fn number(self) -> u8
        ensures value { result ≡ increment_of self }
        ensures some { 0 < result }
    {
        match self {
            FractionIncrement::MultiplesOf1 => 1,
            FractionIncrement::MultiplesOf2 => 2,
            FractionIncrement::MultiplesOf5 => 5,
            FractionIncrement::MultiplesOf10 => 10,
            FractionIncrement::MultiplesOf20 => 20,
            FractionIncrement::MultiplesOf25 => 25,
            FractionIncrement::MultiplesOf50 => 50,
        }
    }

    // Whether it is a multiple of ten, so that the digit before the last one is rounded.
    pub(crate) fn is_tens(self) -> bool
        ensures { result ≡ counts_tens self }
    {
        matches!(
            self,
            FractionIncrement::MultiplesOf10
                | FractionIncrement::MultiplesOf20
                | FractionIncrement::MultiplesOf50
        )
    }

    // The multiples of the digit that is rounded.
    pub(crate) fn multiples(self) -> RoundingIncrement
        ensures value { increment_of self ≡ increment_number result * tens_of self }
        ensures fifths { self ≢ FractionIncrement.MultiplesOf25 → result ≢ RoundingIncrement.MultiplesOf25 }
        ensures twenty_fifths { result ≡ RoundingIncrement.MultiplesOf25 → self ≡ FractionIncrement.MultiplesOf25 }
    {
        match self {
            FractionIncrement::MultiplesOf1 | FractionIncrement::MultiplesOf10 => {
                RoundingIncrement::MultiplesOf1
            }
            FractionIncrement::MultiplesOf2 | FractionIncrement::MultiplesOf20 => {
                RoundingIncrement::MultiplesOf2
            }
            FractionIncrement::MultiplesOf5 | FractionIncrement::MultiplesOf50 => {
                RoundingIncrement::MultiplesOf5
            }
            FractionIncrement::MultiplesOf25 => RoundingIncrement::MultiplesOf25,
        }
    }
}
