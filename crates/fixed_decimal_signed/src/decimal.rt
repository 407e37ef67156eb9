//! Decimals: made of a sign and an absolute value, copied, and read from texts.

ghost use Rattle.std.specs.Prelude.{◌≡◌, ◌++◌, IfOk, IsErrOf, OnErr, OnOk};
ghost use Rattle.fixed_decimal_unsigned.specs.Number.{IsNumber};
ghost use Rattle.fixed_decimal_unsigned.specs.DigitCount.{IsLong};
ghost use Rattle.fixed_decimal_unsigned.specs.Shifts.{plain_zero};
ghost use Rattle.fixed_decimal_signed.specs.WholeNumbers.{IsWhole};
ghost use Rattle.fixed_decimal_signed.specs.SignedText.{sign_text, ReadsSigned, ReadsLongSigned, ReadsLongerSigned, IsBeyondSigned, IsNoSignedText, StartsNoSign};

use crate::sign::Sign;
use crate::signed::Signed;
use fixed_decimal_unsigned::{ParseError, UnsignedDecimal};
use std::alloc::{AllocError, Global};

/// A decimal number with a sign, a visible range of magnitudes, and digits: `-12.30` is -12.3, shown from
/// magnitude 1 down to -2.
pub type Decimal = Signed<UnsignedDecimal>;

// The sign that a text begins with, and the rest.
fn split_sign(code_units: &[u8]) -> (Sign, &[u8])
    ensures whole { code_units.now ≡ sign_text result.0 ++ result.1.now }
    ensures none { result.0 ≡ Sign.None → StartsNoSign result.1.now }
{
    match code_units.split_first() {
        Some((first, rest)) if *first == b'-' => (Sign::Negative, rest),
        Some((first, rest)) if *first == b'+' => (Sign::Positive, rest),
        _ => (Sign::None, code_units),
    }
}

impl Signed<UnsignedDecimal> {
    /// A decimal of its sign and its absolute value: `Negative` and `12.3` give `-12.3`. It does not allocate.
    pub fn new(sign: Sign, absolute: UnsignedDecimal) -> Decimal
        ensures sign { result.sign ≡ sign }
        ensures value { result.absolute ≡ absolute }
    {
        Signed { sign, absolute }
    }

    /// The number zero without a sign, shown as `0`. It does not allocate.
    pub fn zero(alloc: Global) -> Decimal
        ensures { result ≡ record { sign = Sign.None; absolute = plain_zero } }
    {
        Decimal::new(Sign::None, UnsignedDecimal::zero(alloc))
    }

    /// The number one without a sign, shown as `1`. It does not allocate.
    pub fn one(alloc: Global) -> Decimal
        ensures { IsWhole 1 result }
    {
        Signed {
            sign: Sign::None,
            absolute: UnsignedDecimal::one(alloc),
        }
    }

    /// A copy: of `-012.30` it is `-012.30`.
    ///
    /// It allocates where the number has more than sixteen digits, from the first to the last one that is not zero.
    /// `AllocError`: out of memory, only there.
    pub fn try_clone(&self) -> Result<Decimal, AllocError>
        ensures value { IfOk result (λ v. v ≡ self.now) }
        ensures room { OnErr result (IsLong self.now.absolute.count) }
        ensures number { IsNumber self.now.absolute }
    {
        let absolute = self.absolute.try_clone()?;
        Ok(Decimal::new(self.sign, absolute))
    }

    /// The number that a text spells, with its sign: `-12.30` is -12.3, shown from magnitude 1 down to -2.
    ///
    /// `Syntax` where the text spells no number (`5.`, `--5`). `Limit` where it spells one that passes magnitudes
    /// -32768 to 32767 (`1e32768`). `Memory`: out of memory, only where there are more than sixteen digits, from the
    /// first to the last one that is not zero.
    pub fn try_from_utf8(alloc: Global, code_units: &[u8]) -> Result<Decimal, ParseError>
        ensures syntax { IsErrOf result ParseError.Syntax → IsNoSignedText code_units.now }
        ensures limit { IsErrOf result ParseError.Limit → IsBeyondSigned code_units.now }
        ensures memory { IsErrOf result ParseError.Memory → ReadsLongSigned code_units.now }
        ensures value { IfOk result (λ v. ReadsSigned code_units.now v) }
    {
        let (sign, rest) = split_sign(code_units);
        match UnsignedDecimal::try_from_utf8(alloc, rest) {
            Ok(absolute) => Ok(Signed { sign, absolute }),
            Err(refused) => Err(refused),
        }
    }

    /// Replaces this number by the one that a text spells, with its sign: `5` and the text `-12.30` give `-12.30`,
    /// shown from magnitude 1 down to -2.
    ///
    /// The errors are those of `try_from_utf8`; after each the number is as before. The call reuses the memory of the
    /// number. It allocates only where the text spells a number of more than sixteen digits, from the first to the last
    /// one that is not zero, and of more digits than this number.
    pub fn assign_from_utf8(&mut self, code_units: &[u8]) -> Result<(), ParseError>
        ensures syntax { IsErrOf result ParseError.Syntax → IsNoSignedText code_units.now }
        ensures limit { IsErrOf result ParseError.Limit → IsBeyondSigned code_units.now }
        ensures memory { IsErrOf result ParseError.Memory → ReadsLongSigned code_units.now }
        ensures value { OnOk result (ReadsSigned code_units.now self.new) }
        ensures err { OnErr result (self.new ≡ self.old) }
        ensures room { IsErrOf result ParseError.Memory → ReadsLongerSigned code_units.now self.old.absolute.count }
    {
        let (sign, rest) = split_sign(code_units);
        match self.absolute.assign_from_utf8(rest) {
            Ok(()) => {
                self.sign = sign;
                Ok(())
            }
            Err(refused) => Err(refused),
        }
    }

    /// The number that a text spells, and the errors, as `try_from_utf8` has them of its bytes: `-12.30` is -12.3,
    /// shown from magnitude 1 down to -2, and `5.` is `Syntax`. It allocates where `try_from_utf8` does.
    pub fn try_from_str(alloc: Global, text: &str) -> Result<Decimal, ParseError>
        ensures syntax { IsErrOf result ParseError.Syntax → IsNoSignedText text.now }
        ensures limit { IsErrOf result ParseError.Limit → IsBeyondSigned text.now }
        ensures memory { IsErrOf result ParseError.Memory → ReadsLongSigned text.now }
        ensures value { IfOk result (λ v. ReadsSigned text.now v) }
    {
        Decimal::try_from_utf8(alloc, text.as_bytes())
    }
}
