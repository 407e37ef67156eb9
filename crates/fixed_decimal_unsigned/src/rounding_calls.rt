//! The calls that round a number: by mode and increment, by mode, to the nearest, away from zero or towards it.

ghost use Rattle.std.specs.Prelude.{◌≡◌, ◌≢◌, ◌*◌, ◌^◌, ◌<◌, OnOk, OnErr, IfOk, IfErr, IsOk};
ghost use Rattle.fixed_decimal_unsigned.specs.Number.{place};
ghost use Rattle.fixed_decimal_unsigned.specs.Range.{Rounds};
ghost use Rattle.fixed_decimal_unsigned.specs.RoundingMemory.{MayGrow};

use crate::unsigned_decimal::UnsignedDecimal;
use fixed_decimal_digits::{RoundingIncrement, Turns, UnsignedRoundingMode};
use std::alloc::{AllocError, AllocFailed};
use std::marker::Brand;
use std::sync::ledger::{Blank, Ledger};

impl UnsignedDecimal {
    // Rounds, with turns counted in the ledger of a blank.
    fn round_with_blank<L: Ledger>(
        &mut self,
        position: i16,
        mode: UnsignedRoundingMode,
        increment: RoundingIncrement,
        blank: Blank,
    ) -> Result<(), AllocError>
        requires name { blank.name ≡ L.name }
        requires parts { blank.parts ≡ L.parts }
        requires some { 0 < L.parts }
        ensures succeeds { increment ≢ RoundingIncrement.MultiplesOf25 → IsOk result }
        ensures room { OnErr result (MayGrow mode increment (place position) self.old.count) }
        ensures value { OnOk result (Rounds mode increment (place position) self.old self.new) }
        ensures same { OnErr result (self.new ≡ self.old) }
    {
        let mut turns: Turns<L> = Turns::new(blank);
        self.round_counted(position, mode, increment, &mut turns)
    }

    /// Rounds to a multiple of the increment at a position: `37.5` at 0 by `HalfEven` to 25 is `50`.
    ///
    /// A multiple that reaches ten to the power 32768 becomes zero. It allocates only where the multiple ends in 25 or
    /// 75 at the position, and the number has sixteen digits or more, of which the last one that is not zero is right
    /// above it. `AllocError`: out of memory; the number is then as it was.
    pub fn round_with_mode_and_increment(
        &mut self,
        position: i16,
        mode: UnsignedRoundingMode,
        increment: RoundingIncrement,
    ) -> Result<(), AllocError>
        ensures succeeds { increment ≢ RoundingIncrement.MultiplesOf25 → IsOk result }
        ensures room { OnErr result (MayGrow mode increment (place position) self.old.count) }
        ensures value { OnOk result (Rounds mode increment (place position) self.old self.new) }
        ensures same { OnErr result (self.new ≡ self.old) }
    {
        self.round_with_blank::<Brand>(position, mode, increment, Blank::new(1))
    }

    /// Rounds at a position as the mode says: `7.5` at 0 by `HalfTrunc` is `7`. It does not allocate.
    pub fn round_with_mode(&mut self, position: i16, mode: UnsignedRoundingMode)
        ensures { Rounds mode RoundingIncrement.MultiplesOf1 (place position) self.old self.new }
    {
        let _succeeds = self.round_with_mode_and_increment(
            position,
            mode,
            RoundingIncrement::MultiplesOf1,
        );
    }

    /// Rounds at a position to the nearest multiple, a tie to the even one: `2.5` at 0 is `2`. It does not allocate.
    pub fn round(&mut self, position: i16)
        ensures { Rounds UnsignedRoundingMode.HalfEven RoundingIncrement.MultiplesOf1 (place position) self.old
            self.new }
    {
        self.round_with_mode(position, UnsignedRoundingMode::HalfEven);
    }

    /// Rounds at a position away from zero: `7.3` at 0 is `8`. It does not allocate.
    pub fn expand(&mut self, position: i16)
        ensures { Rounds UnsignedRoundingMode.Expand RoundingIncrement.MultiplesOf1 (place position) self.old self.new }
    {
        self.round_with_mode(position, UnsignedRoundingMode::Expand);
    }

    /// Rounds at a position towards zero: `7.8` at 0 is `7`. It does not allocate.
    pub fn trunc(&mut self, position: i16)
        ensures { Rounds UnsignedRoundingMode.Trunc RoundingIncrement.MultiplesOf1 (place position) self.old self.new }
    {
        self.round_with_mode(position, UnsignedRoundingMode::Trunc);
    }

    /// The number rounded to a multiple of the increment: `37.5` at 0 by `HalfEven` to 25 gives `50`.
    ///
    /// It allocates where `round_with_mode_and_increment` does. `AllocFailed`: out of memory; it holds the number.
    pub fn rounded_with_mode_and_increment(
        mut self,
        position: i16,
        mode: UnsignedRoundingMode,
        increment: RoundingIncrement,
    ) -> Result<UnsignedDecimal, AllocFailed<UnsignedDecimal>>
        ensures succeeds { increment ≢ RoundingIncrement.MultiplesOf25 → IsOk result }
        ensures room { OnErr result (MayGrow mode increment (place position) self.count) }
        ensures value { IfOk result (λ v. Rounds mode increment (place position) self v) }
        ensures same { IfErr result (λ e. e.value ≡ self) }
    {
        match self.round_with_mode_and_increment(position, mode, increment) {
            Ok(()) => Ok(self),
            Err(_) => Err(AllocFailed { value: self }),
        }
    }

    /// The number rounded at a position as the mode says: `7.5` at 0 by `HalfTrunc` gives `7`. It does not allocate.
    pub fn rounded_with_mode(mut self, position: i16, mode: UnsignedRoundingMode) -> UnsignedDecimal
        ensures { Rounds mode RoundingIncrement.MultiplesOf1 (place position) self result }
    {
        self.round_with_mode(position, mode);
        self
    }

    /// The number rounded at a position to the nearest multiple, a tie to the even one: `2.5` at 0 gives `2`. It does
    /// not allocate.
    pub fn rounded(mut self, position: i16) -> UnsignedDecimal
        ensures { Rounds UnsignedRoundingMode.HalfEven RoundingIncrement.MultiplesOf1 (place position) self result }
    {
        self.round(position);
        self
    }

    /// The number rounded at a position away from zero: `7.3` at 0 gives `8`. It does not allocate.
    pub fn expanded(mut self, position: i16) -> UnsignedDecimal
        ensures { Rounds UnsignedRoundingMode.Expand RoundingIncrement.MultiplesOf1 (place position) self result }
    {
        self.expand(position);
        self
    }

    /// The number rounded at a position towards zero: `7.8` at 0 gives `7`. It does not allocate.
    pub fn trunced(mut self, position: i16) -> UnsignedDecimal
        ensures { Rounds UnsignedRoundingMode.Trunc RoundingIncrement.MultiplesOf1 (place position) self result }
    {
        self.trunc(position);
        self
    }
}
