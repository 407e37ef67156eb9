//! A number made of its digits, which are given one after another.
ghost use Rattle.std.specs.Prelude.{◌≡◌, ◌+◌, ◌-◌, ◌*◌, ◌^◌, ◌<◌, ◌≤◌, ◌↔◌, IfOk, IfSome, OnErr, OnOk, IsSome};
ghost use Rattle.fixed_decimal_unsigned.specs.GivenDigits.{with_digit};
ghost use Rattle.fixed_decimal_unsigned.specs.NumberText.{AreEndsIn, number_at};
ghost use Rattle.fixed_decimal_unsigned.specs.DigitCount.{IsLong};
ghost use Rattle.fixed_decimal_digits.specs.InlineDigits.{inline_digits};

use crate::reading::{assembled, moved_ends};
use crate::unsigned_decimal::UnsignedDecimal;
use fixed_decimal_digits::{Digits, push_zeros};
use std::alloc::{AllocError, Global};
use std::marker::Model;

/// The digits that a number is made of, given one after another from the highest to the lowest: 0, 1, 2, 5 of `01.25`.
///
/// Zeros in front and at the end need no room.
#[derive(Debug, Drop)]
pub struct GivenDigits {
    kept: Digits,
    zeros: usize,
    given: usize,
}

impl Model for GivenDigits {
    ghost use Rattle.std.specs.Prelude.{◌*◌, ◌^◌};
    ghost use Rattle.std.specs.Int.Digits.{number_from_digits};
    ghost use Rattle.fixed_decimal_unsigned.specs.GivenDigits.{DigitsGiven, IsKept};

    ghost Value = { DigitsGiven };

    ghost view = { λ a. record { mantissa = number_from_digits 10 a.kept.items * 10 ^ a.zeros; count = a.given } };

    ghost invariant = { λ a. IsKept a.kept.items a.zeros a.given };
}

impl GivenDigits {
    /// No digits yet, with room for `room` digits from the first to the last one that is not 0: 3 for `0125.00`.
    ///
    /// It allocates where that is more than sixteen. `AllocError`: out of memory, only there.
    pub fn with_room(alloc: Global, room: usize) -> Result<GivenDigits, AllocError>
        ensures value { IfOk result (λ d. d ≡ record { mantissa = 0; count = 0 }) }
        ensures room { OnErr result (inline_digits < room) }
    {
        let kept = Digits::with_room(alloc, room)?;
        Ok(GivenDigits {
            kept,
            zeros: 0,
            given: 0,
        })
    }

    // Adds a zero.
    #[tactic(auto, using(crate::proofs::GivenDigitsLemmas::zero_kept, crate::proofs::GivenDigitsLemmas::zero_in_front, crate::proofs::GivenDigitsLemmas::zero_value, crate::proofs::GivenDigitsLemmas::front_value))]
    fn push_zero(&mut self)
        requires { self.old.count < 2 ^ 63 }
        ensures { self.new ≡ with_digit self.old 0 }
    {
        if !self.kept.is_empty() {
            self.zeros += 1;
        }
        self.given += 1;
    }

    // Adds a digit that is not 0, after the zeros before it.
    fn push_other(&mut self, digit: u8) -> Result<(), AllocError>
        requires some { 0 < digit }
        requires ten { digit < 10 }
        requires few { self.old.count < 2 ^ 63 }
        ensures ok { OnOk result (self.new ≡ with_digit self.old digit) }
        ensures err { OnErr result (self.new ≡ self.old) }
        ensures room { OnErr result (IsLong (self.old.mantissa * 10 + digit)) }
    {
        let _inline = self.kept.len(); // for the proof
        self.kept.reserve(self.zeros + 1)?;
        push_zeros(&mut self.kept, self.zeros);
        self.kept.push_reserved(digit);
        self.zeros = 0;
        self.given += 1;
        Ok(())
    }

    /// Adds a digit after the others: 3 after 1, 2 makes 123 of 12.
    ///
    /// The condition is that the digit is 0 to 9, and that fewer than 2^63 were given. It allocates where there are
    /// more than sixteen digits from the first to the last one that is not 0, and these have no room yet. `AllocError`:
    /// out of memory, only there; then nothing is added.
    pub fn push(&mut self, digit: u8) -> Result<(), AllocError>
        requires ten { digit < 10 }
        requires few { self.old.count < 2 ^ 63 }
        ensures ok { OnOk result (self.new ≡ with_digit self.old digit) }
        ensures err { OnErr result (self.new ≡ self.old) }
        ensures room { OnErr result (IsLong (self.old.mantissa * 10 + digit)) }
    {
        if digit == 0 {
            self.push_zero();
            return Ok(());
        }
        self.push_other(digit)
    }

    /// The number of these digits, `fraction` of them after the point: of 0, 1, 2, 5 and 2 it is `01.25`.
    ///
    /// The condition is that at least one digit was given, and that `fraction` is at most as many. `None` exactly where
    /// a digit would be past magnitudes -32768 to 32767. It does not allocate.
    pub fn into_decimal(self, fraction: usize) -> Option<UnsignedDecimal>
        requires some { 0 < self.count }
        requires within { fraction ≤ self.count }
        ensures succeeds { IsSome result ↔ AreEndsIn (self.count - fraction) fraction 0 0 }
        ensures value { IfSome result (λ v. v ≡ number_at self.mantissa (self.count - fraction) fraction 0 0) }
    {
        let Some(ends) = moved_ends(self.given - fraction, fraction, 0, 0) else {
            return None;
        };
        Some(assembled(self.kept, self.zeros, ends))
    }
}
