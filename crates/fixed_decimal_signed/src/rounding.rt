//! The calls that round a decimal, whose sign decides what upwards and downwards are by size.

ghost use Rattle.std.specs.Prelude.{◌≡◌, ◌≢◌, ℕ, ◌+◌, ◌*◌, ◌^◌, ◌<◌, ◌≤◌, OnOk, OnErr, IfOk, IfErr, IsOk};
ghost use Rattle.fixed_decimal_unsigned.specs.Number.{place};
ghost use Rattle.fixed_decimal_unsigned.specs.DigitCount.{HoldsDigits};
ghost use Rattle.fixed_decimal_unsigned.specs.RoundingMemory.{MayGrow};
ghost use Rattle.fixed_decimal_signed.specs.SignedRounding.{RoundsSigned, size_mode};

use crate::decimal::Decimal;
use crate::modes::SignedRoundingMode;
use crate::signed::Signed;
use fixed_decimal_unsigned::{RoundingIncrement, Turns, UnsignedDecimal, UnsignedRoundingMode};
use std::alloc::{AllocError, AllocFailed};
use std::sync::ledger::Ledger;

impl Signed<UnsignedDecimal> {
    /// Rounds to a multiple of the increment at a position, and counts the turns of the loops over digits.
    ///
    /// It returns and does what `round_with_mode_and_increment` does, in at most two more turns than the number has
    /// digits, from the first to the last one that is not zero: `99.999` at 4 by `Expand` is `10000`, in at most seven
    /// turns. It allocates where `round_with_mode_and_increment` does. `AllocError`: out of memory, only there.
    pub fn round_counted<L: Ledger>(
        &mut self,
        position: i16,
        mode: SignedRoundingMode,
        increment: RoundingIncrement,
        turns: &mut Turns<L>,
    ) -> Result<(), AllocError>
        ensures succeeds { increment ≢ RoundingIncrement.MultiplesOf25 → IsOk result }
        ensures room { OnErr result
            (MayGrow (size_mode self.old.sign mode) increment (place position) self.old.absolute.count) }
        ensures value { OnOk result (RoundsSigned mode increment (place position) self.old self.new) }
        ensures same { OnErr result (self.new ≡ self.old) }
        ensures turns { (low digits : ℕ) → HoldsDigits self.old.absolute.count low digits
            → turns.new ≤ turns.old + digits + 2 }
    {
        let by_size = mode.by_size(self.sign);
        self.absolute
            .round_counted(position, by_size, increment, turns)
    }

    /// Rounds to a multiple of the increment at a position: `-7.3` at -2 by `Ceil` to 25 is `-7.25`.
    ///
    /// A multiple whose size reaches ten to the power 32768 becomes zero; the sign is kept. It allocates only where the
    /// multiple ends in 25 or 75 at the position, and the number has sixteen digits or more, of which the last one that
    /// is not zero is right above it. `AllocError`: out of memory; the number is then as it was.
    pub fn round_with_mode_and_increment(
        &mut self,
        position: i16,
        mode: SignedRoundingMode,
        increment: RoundingIncrement,
    ) -> Result<(), AllocError>
        ensures succeeds { increment ≢ RoundingIncrement.MultiplesOf25 → IsOk result }
        ensures room { OnErr result
            (MayGrow (size_mode self.old.sign mode) increment (place position) self.old.absolute.count) }
        ensures value { OnOk result (RoundsSigned mode increment (place position) self.old self.new) }
        ensures same { OnErr result (self.new ≡ self.old) }
    {
        let by_size = mode.by_size(self.sign);
        self.absolute
            .round_with_mode_and_increment(position, by_size, increment)
    }

    /// Rounds at a position as the mode says: `-7.3` at 0 by `HalfCeil` is `-7`. It does not allocate.
    pub fn round_with_mode(&mut self, position: i16, mode: SignedRoundingMode)
        ensures { RoundsSigned mode RoundingIncrement.MultiplesOf1 (place position) self.old self.new }
    {
        let by_size = mode.by_size(self.sign);
        self.absolute.round_with_mode(position, by_size);
    }

    /// Rounds at a position to the nearest multiple, a tie to the even one: `2.5` at 0 is `2`. It does not allocate.
    pub fn round(&mut self, position: i16)
        ensures { RoundsSigned (SignedRoundingMode.Unsigned UnsignedRoundingMode.HalfEven)
            RoundingIncrement.MultiplesOf1 (place position) self.old self.new }
    {
        self.round_with_mode(
            position,
            SignedRoundingMode::Unsigned(UnsignedRoundingMode::HalfEven),
        );
    }

    /// Rounds at a position away from zero: `-7.3` at 0 is `-8`. It does not allocate.
    pub fn expand(&mut self, position: i16)
        ensures { RoundsSigned (SignedRoundingMode.Unsigned UnsignedRoundingMode.Expand) RoundingIncrement.MultiplesOf1
            (place position) self.old self.new }
    {
        self.round_with_mode(
            position,
            SignedRoundingMode::Unsigned(UnsignedRoundingMode::Expand),
        );
    }

    /// Rounds at a position towards zero: `-7.3` at 0 is `-7`. It does not allocate.
    pub fn trunc(&mut self, position: i16)
        ensures { RoundsSigned (SignedRoundingMode.Unsigned UnsignedRoundingMode.Trunc) RoundingIncrement.MultiplesOf1
            (place position) self.old self.new }
    {
        self.round_with_mode(
            position,
            SignedRoundingMode::Unsigned(UnsignedRoundingMode::Trunc),
        );
    }

    /// Rounds at a position upwards: `-7.3` at 0 is `-7`, and `7.3` is `8`. It does not allocate.
    pub fn ceil(&mut self, position: i16)
        ensures { RoundsSigned SignedRoundingMode.Ceil RoundingIncrement.MultiplesOf1 (place position) self.old
            self.new }
    {
        self.round_with_mode(position, SignedRoundingMode::Ceil);
    }

    /// Rounds at a position downwards: `-7.3` at 0 is `-8`, and `7.3` is `7`. It does not allocate.
    pub fn floor(&mut self, position: i16)
        ensures { RoundsSigned SignedRoundingMode.Floor RoundingIncrement.MultiplesOf1 (place position) self.old
            self.new }
    {
        self.round_with_mode(position, SignedRoundingMode::Floor);
    }

    /// The number rounded to a multiple of the increment: `37.5` at 0 by `HalfEven` to 25 gives `50`.
    ///
    /// It allocates where `round_with_mode_and_increment` does. `AllocFailed`: out of memory; it holds the number.
    pub fn rounded_with_mode_and_increment(
        mut self,
        position: i16,
        mode: SignedRoundingMode,
        increment: RoundingIncrement,
    ) -> Result<Decimal, AllocFailed<Decimal>>
        ensures succeeds { increment ≢ RoundingIncrement.MultiplesOf25 → IsOk result }
        ensures room { OnErr result
            (MayGrow (size_mode self.sign mode) increment (place position) self.absolute.count) }
        ensures value { IfOk result (λ v. RoundsSigned mode increment (place position) self v) }
        ensures same { IfErr result (λ e. e.value ≡ self) }
    {
        match self.round_with_mode_and_increment(position, mode, increment) {
            Ok(()) => Ok(self),
            Err(_) => Err(AllocFailed { value: self }),
        }
    }

    /// The number rounded at a position as the mode says: `-7.3` at 0 by `HalfCeil` gives `-7`. It does not allocate.
    pub fn rounded_with_mode(mut self, position: i16, mode: SignedRoundingMode) -> Decimal
        ensures { RoundsSigned mode RoundingIncrement.MultiplesOf1 (place position) self result }
    {
        self.round_with_mode(position, mode);
        self
    }

    /// The number rounded at a position to the nearest multiple, a tie to the even one: `2.5` at 0 gives `2`. It does
    /// not allocate.
    pub fn rounded(mut self, position: i16) -> Decimal
        ensures { RoundsSigned (SignedRoundingMode.Unsigned UnsignedRoundingMode.HalfEven)
            RoundingIncrement.MultiplesOf1 (place position) self result }
    {
        self.round(position);
        self
    }

    /// The number rounded at a position away from zero: `-7.3` at 0 gives `-8`. It does not allocate.
    pub fn expanded(mut self, position: i16) -> Decimal
        ensures { RoundsSigned (SignedRoundingMode.Unsigned UnsignedRoundingMode.Expand) RoundingIncrement.MultiplesOf1
            (place position) self result }
    {
        self.expand(position);
        self
    }

    /// The number rounded at a position towards zero: `-7.3` at 0 gives `-7`. It does not allocate.
    pub fn trunced(mut self, position: i16) -> Decimal
        ensures { RoundsSigned (SignedRoundingMode.Unsigned UnsignedRoundingMode.Trunc) RoundingIncrement.MultiplesOf1
            (place position) self result }
    {
        self.trunc(position);
        self
    }

    /// The number rounded at a position upwards: `-7.3` at 0 gives `-7`. It does not allocate.
    pub fn ceiled(mut self, position: i16) -> Decimal
        ensures { RoundsSigned SignedRoundingMode.Ceil RoundingIncrement.MultiplesOf1 (place position) self result }
    {
        self.ceil(position);
        self
    }

    /// The number rounded at a position downwards: `-7.3` at 0 gives `-8`. It does not allocate.
    pub fn floored(mut self, position: i16) -> Decimal
        ensures { RoundsSigned SignedRoundingMode.Floor RoundingIncrement.MultiplesOf1 (place position) self result }
    {
        self.floor(position);
        self
    }
}
