//! Consuming calls that keep the sign: powers of ten, zeros at both ends, digits cut away, numbers put after others.

ghost use Rattle.std.specs.Prelude.{◌≡◌, ◌↔◌, IfOk, IfErr};
ghost use Rattle.fixed_decimal_unsigned.specs.Concatenation.{Concatenates, Overlaps, MayWantMemory, handed_back};
ghost use Rattle.fixed_decimal_unsigned.specs.Number.{place};
ghost use Rattle.fixed_decimal_unsigned.specs.Shifts.{Shifts, TrimsStart, TrimsEnd, TrimsWhole, PadsStart, PadsEnd, Cuts};
ghost use Rattle.fixed_decimal_signed.specs.SignedValue.{OnAbsolute};

use crate::decimal::Decimal;
use crate::signed::Signed;
use fixed_decimal_unsigned::{ConcatenateError, UnsignedDecimal};

impl Signed<UnsignedDecimal> {
    /// The number times ten to the power `delta`, the digits shown with it: `-12` and 2 give `-1200`.
    ///
    /// It is zero, shown `0` after the sign, where an end of the range would pass magnitudes -32768 to 32767. It does
    /// not allocate.
    pub fn multiplied_pow10(mut self, delta: i16) -> Decimal
        ensures { OnAbsolute (Shifts delta) self result }
    {
        self.absolute.multiply_pow10(delta);
        self
    }

    /// The number without the zeros that it begins with: `-012` gives `-12`. It does not allocate.
    pub fn trimmed_start(mut self) -> Decimal
        ensures { OnAbsolute TrimsStart self result }
    {
        self.absolute.trim_start();
        self
    }

    /// The number without the zeros that it ends in after the point: `-1.20` gives `-1.2`. It does not allocate.
    pub fn trimmed_end(mut self) -> Decimal
        ensures { OnAbsolute TrimsEnd self result }
    {
        self.absolute.trim_end();
        self
    }

    /// The number without the zeros after the point where there is no other digit after it: `-1.00` gives `-1`, and
    /// `-1.20` stays.
    ///
    /// It does not allocate.
    pub fn trimmed_end_if_integer(mut self) -> Decimal
        ensures { OnAbsolute TrimsWhole self result }
    {
        self.absolute.trim_end_if_integer();
        self
    }

    /// The number with zeros before it up to a position, or no more than it needs: `-12` and 4 give `-0012`.
    ///
    /// A position of 0 or below changes nothing. It does not allocate.
    pub fn padded_start(mut self, position: i16) -> Decimal
        ensures { OnAbsolute (PadsStart (place position)) self result }
    {
        self.absolute.pad_start(position);
        self
    }

    /// The number with zeros after it down to a position, or no more than it needs: `-12` and -2 give `-12.00`.
    ///
    /// A position above 0 changes nothing. It does not allocate.
    pub fn padded_end(mut self, position: i16) -> Decimal
        ensures { OnAbsolute (PadsEnd (place position)) self result }
    {
        self.absolute.pad_end(position);
        self
    }

    /// The number without the digits from a magnitude up: `-1234.5` and 2 give `-34.5`. It does not allocate.
    pub fn with_max_position(mut self, position: i16) -> Decimal
        ensures { OnAbsolute (Cuts (place position)) self result }
    {
        self.absolute.set_max_position(position);
        self
    }

    /// The number with another one after it, under the sign of this one: `-12` and `0.3` give `-12.3`.
    ///
    /// `Overlap`, with both numbers, where neither is zero and the last digit of this number that is not zero is not
    /// above the first one of `other`. `Memory`, with both: out of memory. It allocates only where the sum has more
    /// than sixteen digits and neither number is zero.
    pub fn concatenated_end(
        mut self,
        other: UnsignedDecimal,
    ) -> Result<Decimal, ConcatenateError<(Decimal, UnsignedDecimal)>>
        ensures value { IfOk result (λ v. OnAbsolute (λ a b. Concatenates a other b) self v) }
        ensures overlap { (result ≡ Err (ConcatenateError.Overlap (self, other))) ↔ Overlaps self.absolute other }
        ensures memory { result ≡ Err (ConcatenateError.Memory (self, other)) → MayWantMemory self.absolute other }
        ensures both { IfErr result (λ e. handed_back e ≡ (self, other)) }
    {
        match self.absolute.concatenate_end(other) {
            Ok(()) => Ok(self),
            Err(ConcatenateError::Overlap(other)) => Err(ConcatenateError::Overlap((self, other))),
            Err(ConcatenateError::Memory(other)) => Err(ConcatenateError::Memory((self, other))),
        }
    }
}
