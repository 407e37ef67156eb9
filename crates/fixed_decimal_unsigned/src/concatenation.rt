//! Numbers put one after the other: `12` and `0.3` give `12.3`.

ghost use Rattle.std.specs.Prelude.{◌≡◌, ◌↔◌, OnOk, OnErr, IfOk, IfErr};
ghost use Rattle.fixed_decimal_unsigned.specs.Concatenation.{Overlaps, Concatenates, MayWantMemory, handed_back};

use crate::error::ConcatenateError;
use crate::unsigned_decimal::UnsignedDecimal;
use fixed_decimal_digits::{push_after, zeros_between};

impl UnsignedDecimal {
    /// Puts another number after this one: `12` and `0.3` give `12.3`.
    ///
    /// The number becomes the sum, shown with every magnitude that one of the two shows. `Overlap`, with `other`, where
    /// neither is zero and the last digit of this number that is not zero is not above the first one of `other`: `12.3`
    /// and `0.3`. `Memory`, with `other`: out of memory. It allocates only where the sum has more than sixteen digits
    /// and neither number is zero. After an error the number is as before.
    pub fn concatenate_end(
        &mut self,
        other: UnsignedDecimal,
    ) -> Result<(), ConcatenateError<UnsignedDecimal>>
        ensures value { OnOk result (Concatenates self.old other self.new) }
        ensures overlap { (result ≡ Err (ConcatenateError.Overlap other)) ↔ Overlaps self.old other }
        ensures memory { result ≡ Err (ConcatenateError.Memory other) → MayWantMemory self.old other }
        ensures other { IfErr result (λ e. handed_back e ≡ other) }
        ensures same { OnErr result (self.new ≡ self.old) }
    {
        if self.is_zero() {
            self.digits = other.digits;
            self.top = other.top;
            self.low = self.low.min(other.low);
            self.high = self.high.max(other.high);
            return Ok(());
        }
        if other.is_zero() {
            self.low = self.low.min(other.low);
            self.high = self.high.max(other.high);
            return Ok(());
        }
        let Some(zeros) = zeros_between(&self.digits, self.top, other.top) else {
            return Err(ConcatenateError::Overlap(other));
        };
        match push_after(&mut self.digits, zeros, &other.digits) {
            Ok(()) => {
                self.low = self.low.min(other.low);
                self.high = self.high.max(other.high);
                Ok(())
            }
            Err(_) => Err(ConcatenateError::Memory(other)),
        }
    }

    /// The number with another one after it: `12` and `0.3` give `12.3`.
    ///
    /// The errors are those of `concatenate_end`, each with both numbers. It allocates only where the sum has more than
    /// sixteen digits and neither number is zero.
    pub fn concatenated_end(
        mut self,
        other: UnsignedDecimal,
    ) -> Result<UnsignedDecimal, ConcatenateError<(UnsignedDecimal, UnsignedDecimal)>>
        ensures value { IfOk result (λ v. Concatenates self other v) }
        ensures overlap { (result ≡ Err (ConcatenateError.Overlap (self, other))) ↔ Overlaps self other }
        ensures memory { result ≡ Err (ConcatenateError.Memory (self, other)) → MayWantMemory self other }
        ensures both { IfErr result (λ e. handed_back e ≡ (self, other)) }
    {
        match self.concatenate_end(other) {
            Ok(()) => Ok(self),
            Err(ConcatenateError::Overlap(other)) => Err(ConcatenateError::Overlap((self, other))),
            Err(ConcatenateError::Memory(other)) => Err(ConcatenateError::Memory((self, other))),
        }
    }
}
