//! Digits gathered from a text, and the number that they are.

ghost use Rattle.std.specs.Prelude.{◌≡◌, ◌-◌, ◌<◌, ◌≤◌, ◌^◌, IfNone, IfOk, IfSome, OnErr, OnOk, OnSome};
ghost use Rattle.fixed_decimal.specs.GivenDigits.{with_digit};
ghost use Rattle.fixed_decimal.specs.NumberText.{AreEndsIn, number_at};
ghost use Rattle.fixed_decimal.specs.InlineDigits.{inline_digits};

use fixed_decimal::{GivenDigits, UnsignedDecimal};
use std::alloc::{AllocError, Global};
use std::marker::Model;

// Digits gathered so far, and how many they are.
#[derive(Drop)]
pub(crate) struct Gathered {
    given: GivenDigits,
    count: usize,
}

impl Model for Gathered {
    ghost use Rattle.fixed_decimal.specs.GivenDigits.{DigitsGiven};
    ghost use Rattle.icu_decimal_reading.specs.GatheredDigits.{IsGathered};

    ghost Value = { DigitsGiven };

    ghost view = { λ a. a.given };

    ghost invariant = { λ a. IsGathered a.given a.count };
}

impl Gathered {
    // No digits yet, with room for so many.
    pub(crate) fn with_room(alloc: Global, room: usize) -> Result<Gathered, AllocError>
        ensures value { IfOk result (λ g. g ≡ record { mantissa = 0; count = 0 }) }
        ensures room { OnErr result (inline_digits < room) }
    {
        let given = GivenDigits::with_room(alloc, room)?;
        Ok(Gathered { given, count: 0 })
    }

    // How many they are.
    pub(crate) fn count(&self) -> usize
        ensures { result ≡ self.now.count }
    {
        self.count
    }

    // Adds a digit after the others.
    #[tactic(auto, using(crate::proofs::GatheredLemmas::more_gathered))]
    pub(crate) fn push(&mut self, digit: u8) -> Result<(), AllocError>
        requires ten { digit < 10 }
        requires few { self.old.count < 2 ^ 63 }
        ensures ok { OnOk result (self.new ≡ with_digit self.old digit) }
        ensures room { OnErr result (inline_digits ≤ self.old.count) }
    {
        self.given.push(digit)?;
        self.count += 1;
        Ok(())
    }

    // The number of these digits, so many of them before the point.
    pub(crate) fn into_number(self, whole: usize) -> Option<UnsignedDecimal>
        requires some { 0 < whole }
        requires shown { whole ≤ self.count }
        ensures within { OnSome result (AreEndsIn whole (self.count - whole) 0 0) }
        ensures past { IfNone result (¬ (AreEndsIn whole (self.count - whole) 0 0)) }
        ensures value { IfSome result (λ v. v ≡ number_at self.mantissa whole (self.count - whole) 0 0) }
    {
        self.given.into_decimal(self.count - whole)
    }
}
