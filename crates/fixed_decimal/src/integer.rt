//! Whole numbers: decimals that show no digit after the point.

ghost use Rattle.std.specs.Prelude.{◌≡◌, ◌<◌, ◌≤◌, length, IfOk, IsErrOf, IsOk, OnErr};
ghost use Rattle.fixed_decimal_signed.specs.DigitCount.{IsLong};
ghost use Rattle.fixed_decimal.specs.IntegerText.{ShowsNoFraction, ReadsInteger, IsBeyondInteger};
ghost use Rattle.fixed_decimal_signed.specs.SignedText.{ReadsLongSigned, IsNoSignedText, signed_text_of};
ghost use Rattle.fixed_decimal.specs.TextLaws.{IsWholeNumber};
ghost use Rattle.fixed_decimal_signed.specs.WholeNumbers.{IsWhole, IsSignedWhole, size_of};
ghost use Rattle.std.specs.Cmp.Rules.{comparing};
ghost use Rattle.std.proofs.Common.{rules};
ghost use Rattle.fixed_decimal_signed.specs.SignedEquality.{are_equal_decimals};

use crate::error::LimitError;
use fixed_decimal_signed::{Decimal, ParseError, text_length};
use std::alloc::{AllocError, Global};
use std::fmt;
use std::marker::Model;
use writeable::{Error, LengthHint, Sink, Writeable, display};

/// A whole number: a decimal that shows no digit after the point.
///
/// `10` is one, and `1e1` is read as the same; `1.0` is not one, though its value is whole.
#[derive(Debug, Drop)]
pub struct FixedInteger {
    decimal: Decimal,
}

impl Model for FixedInteger {
    ghost use Rattle.fixed_decimal_signed.specs.Number.{Number};
    ghost use Rattle.fixed_decimal.specs.IntegerText.{ShowsNoFraction};
    ghost use Rattle.fixed_decimal_signed.specs.SignedValue.{SignedValue};

    ghost Value = { SignedValue Number };

    ghost view = { λ a. a.decimal };

    ghost invariant = { λ a. ShowsNoFraction a.decimal };
}

impl TryFrom<Decimal> for FixedInteger {
    ghost use Rattle.std.specs.Prelude.{◌≡◌, ◌<◌, MatchResult};
    ghost use Rattle.fixed_decimal.specs.IntegerText.{ShowsNoFraction};

    type Error = LimitError;

    ghost try_from_gives = { λ d r. MatchResult r (λ v. (v ≡ d) × ShowsNoFraction d) (λ _. d.absolute.low < 32768) };

    fn try_from(decimal: Decimal) -> Result<FixedInteger, LimitError> {
        if *decimal.absolute.magnitude_range().start() < 0 {
            return Err(LimitError);
        }
        Ok(FixedInteger { decimal })
    }
}

impl FixedInteger {
    /// The whole number that a text spells: `1e1` is `10`.
    ///
    /// `Syntax` where the text spells no decimal. `Limit` where it spells one beyond the limits or one that shows a
    /// digit after the point (`1.0`, `10e-1`). `Memory`: out of memory, only where there are more than sixteen digits,
    /// from the first to the last one that is not zero.
    pub fn try_from_utf8(alloc: Global, code_units: &[u8]) -> Result<FixedInteger, ParseError>
        ensures syntax { IsErrOf result ParseError.Syntax → IsNoSignedText code_units.now }
        ensures limit { IsErrOf result ParseError.Limit → IsBeyondInteger code_units.now }
        ensures memory { IsErrOf result ParseError.Memory → ReadsLongSigned code_units.now }
        ensures value { IfOk result (λ v. ReadsInteger code_units.now v) }
    {
        let decimal = match Decimal::try_from_utf8(alloc, code_units) {
            Ok(decimal) => decimal,
            Err(refused) => return Err(refused),
        };
        match FixedInteger::try_from(decimal) {
            Ok(integer) => Ok(integer),
            Err(_) => Err(ParseError::Limit),
        }
    }

    /// The whole number that a text spells, and the errors, as `try_from_utf8` has them of its bytes: `1e1` is `10`,
    /// and `1.0` is `Limit`. It allocates where `try_from_utf8` does.
    pub fn try_from_str(alloc: Global, text: &str) -> Result<FixedInteger, ParseError>
        ensures syntax { IsErrOf result ParseError.Syntax → IsNoSignedText text.now }
        ensures limit { IsErrOf result ParseError.Limit → IsBeyondInteger text.now }
        ensures memory { IsErrOf result ParseError.Memory → ReadsLongSigned text.now }
        ensures value { IfOk result (λ v. ReadsInteger text.now v) }
    {
        FixedInteger::try_from_utf8(alloc, text.as_bytes())
    }

    /// The whole number as a decimal: `-012` stays `-012`. It does not allocate.
    pub fn into_decimal(self) -> Decimal
        ensures value { result ≡ self }
        ensures whole { ShowsNoFraction result }
    {
        let FixedInteger { decimal } = self;
        decimal
    }

    // What holds of every whole number.
    pub(crate) fn is_whole_number(&self)
        ensures { IsWholeNumber self.now }
    {
        let _number = self.decimal.absolute.magnitude_range(); // for the proof
    }

    // The number of bytes of the text.
    pub(crate) fn text_length(&self) -> usize
        ensures value { result ≡ length (signed_text_of self.now) }
        ensures few { result ≤ 65538 }
    {
        text_length(&self.decimal)
    }

    /// A copy: of `-012` it is `-012`.
    ///
    /// It allocates where the number has more than sixteen digits, from the first to the last one that is not zero.
    /// `AllocError`: out of memory, only there.
    pub fn try_clone(&self) -> Result<FixedInteger, AllocError>
        ensures value { IfOk result (λ v. v ≡ self.now) }
        ensures room { OnErr result (IsLong self.now.absolute.count) }
        ensures number { IsWholeNumber self.now }
    {
        self.is_whole_number();
        let decimal = self.decimal.try_clone()?;
        Ok(FixedInteger { decimal })
    }

    /// The whole number `integer`, without a sign: 250 is shown as `250`. It does not allocate, and always succeeds.
    pub fn from_u8(alloc: Global, integer: u8) -> Result<FixedInteger, AllocError>
        ensures value { IfOk result (λ v. IsWhole integer v) }
        ensures succeeds { IsOk result }
    {
        let decimal = Decimal::from_u8(alloc, integer)?;
        Ok(FixedInteger { decimal })
    }

    /// The whole number `integer`, without a sign: 250 is shown as `250`. It does not allocate, and always succeeds.
    pub fn from_u16(alloc: Global, integer: u16) -> Result<FixedInteger, AllocError>
        ensures value { IfOk result (λ v. IsWhole integer v) }
        ensures succeeds { IsOk result }
    {
        let decimal = Decimal::from_u16(alloc, integer)?;
        Ok(FixedInteger { decimal })
    }

    /// The whole number `integer`, without a sign: 250 is shown as `250`.
    ///
    /// It allocates where it has more than sixteen digits without the zeros at its end. `AllocError`: out of memory,
    /// only there.
    pub fn from_u32(alloc: Global, integer: u32) -> Result<FixedInteger, AllocError>
        ensures value { IfOk result (λ v. IsWhole integer v) }
        ensures room { OnErr result (IsLong integer) }
    {
        let decimal = Decimal::from_u32(alloc, integer)?;
        Ok(FixedInteger { decimal })
    }

    /// The whole number `integer`, without a sign: 250 is shown as `250`.
    ///
    /// It allocates where it has more than sixteen digits without the zeros at its end. `AllocError`: out of memory,
    /// only there.
    pub fn from_u64(alloc: Global, integer: u64) -> Result<FixedInteger, AllocError>
        ensures value { IfOk result (λ v. IsWhole integer v) }
        ensures room { OnErr result (IsLong integer) }
    {
        let decimal = Decimal::from_u64(alloc, integer)?;
        Ok(FixedInteger { decimal })
    }

    /// The whole number `integer`, without a sign: 250 is shown as `250`.
    ///
    /// It allocates where it has more than sixteen digits without the zeros at its end. `AllocError`: out of memory,
    /// only there.
    pub fn from_usize(alloc: Global, integer: usize) -> Result<FixedInteger, AllocError>
        ensures value { IfOk result (λ v. IsWhole integer v) }
        ensures room { OnErr result (IsLong integer) }
    {
        let decimal = Decimal::from_usize(alloc, integer)?;
        Ok(FixedInteger { decimal })
    }

    /// The whole number `integer`, without a sign: 250 is shown as `250`.
    ///
    /// It allocates where it has more than sixteen digits without the zeros at its end. `AllocError`: out of memory,
    /// only there.
    pub fn from_u128(alloc: Global, integer: u128) -> Result<FixedInteger, AllocError>
        ensures value { IfOk result (λ v. IsWhole integer v) }
        ensures room { OnErr result (IsLong integer) }
    {
        let decimal = Decimal::from_u128(alloc, integer)?;
        Ok(FixedInteger { decimal })
    }

    /// The whole number `integer`, with a minus below zero: -25 is shown as `-25`. It does not allocate, and always
    /// succeeds.
    pub fn from_i8(alloc: Global, integer: i8) -> Result<FixedInteger, AllocError>
        ensures value { IfOk result (λ v. IsSignedWhole integer v) }
        ensures succeeds { IsOk result }
    {
        let decimal = Decimal::from_i8(alloc, integer)?;
        Ok(FixedInteger { decimal })
    }

    /// The whole number `integer`, with a minus below zero: -25 is shown as `-25`. It does not allocate, and always
    /// succeeds.
    pub fn from_i16(alloc: Global, integer: i16) -> Result<FixedInteger, AllocError>
        ensures value { IfOk result (λ v. IsSignedWhole integer v) }
        ensures succeeds { IsOk result }
    {
        let decimal = Decimal::from_i16(alloc, integer)?;
        Ok(FixedInteger { decimal })
    }

    /// The whole number `integer`, with a minus below zero: -25 is shown as `-25`.
    ///
    /// It allocates where it has more than sixteen digits without the zeros at its end. `AllocError`: out of memory,
    /// only there.
    pub fn from_i32(alloc: Global, integer: i32) -> Result<FixedInteger, AllocError>
        ensures value { IfOk result (λ v. IsSignedWhole integer v) }
        ensures room { OnErr result (IsLong (size_of integer)) }
    {
        let decimal = Decimal::from_i32(alloc, integer)?;
        Ok(FixedInteger { decimal })
    }

    /// The whole number `integer`, with a minus below zero: -25 is shown as `-25`.
    ///
    /// It allocates where it has more than sixteen digits without the zeros at its end. `AllocError`: out of memory,
    /// only there.
    pub fn from_i64(alloc: Global, integer: i64) -> Result<FixedInteger, AllocError>
        ensures value { IfOk result (λ v. IsSignedWhole integer v) }
        ensures room { OnErr result (IsLong (size_of integer)) }
    {
        let decimal = Decimal::from_i64(alloc, integer)?;
        Ok(FixedInteger { decimal })
    }

    /// The whole number `integer`, with a minus below zero: -25 is shown as `-25`.
    ///
    /// It allocates where it has more than sixteen digits without the zeros at its end. `AllocError`: out of memory,
    /// only there.
    pub fn from_isize(alloc: Global, integer: isize) -> Result<FixedInteger, AllocError>
        ensures value { IfOk result (λ v. IsSignedWhole integer v) }
        ensures room { OnErr result (IsLong (size_of integer)) }
    {
        let decimal = Decimal::from_isize(alloc, integer)?;
        Ok(FixedInteger { decimal })
    }

    /// The whole number `integer`, with a minus below zero: -25 is shown as `-25`.
    ///
    /// It allocates where it has more than sixteen digits without the zeros at its end. `AllocError`: out of memory,
    /// only there.
    pub fn from_i128(alloc: Global, integer: i128) -> Result<FixedInteger, AllocError>
        ensures value { IfOk result (λ v. IsSignedWhole integer v) }
        ensures room { OnErr result (IsLong (size_of integer)) }
    {
        let decimal = Decimal::from_i128(alloc, integer)?;
        Ok(FixedInteger { decimal })
    }
}

impl Writeable for FixedInteger {
    ghost use Rattle.std.specs.Prelude.{◌≡◌, Some, length};
    ghost use Rattle.writeable.specs.AnnotatedText.{bytes, text_of as written};
    ghost use Rattle.writeable.specs.LengthHint.{IsWithinHint};
    ghost use Rattle.fixed_decimal_signed.specs.SignedText.{signed_text_of};

    ghost events = { λ v. bytes (signed_text_of v) };

    fn write_to<S: Sink>(&self, sink: &mut S) -> Result<(), Error> {
        self.decimal.write_to(sink)
    }

    #[tactic(auto, using(writeable::proofs::AnnotatedTextLemmas::text_of_bytes))]
    fn writeable_length_hint(&self) -> LengthHint
        ensures within { IsWithinHint result (length (written (bytes (signed_text_of self.now)))) }
        ensures low { result.low ≡ length (signed_text_of self.now) }
        ensures high { result.high ≡ Some (length (signed_text_of self.now)) }
    {
        self.decimal.writeable_length_hint()
    }
}

impl fmt::Display for FixedInteger {
    ghost use Rattle.std.specs.Prelude.{Some};
    ghost use Rattle.fixed_decimal_signed.specs.SignedText.{signed_text_of};

    ghost output = { λ v. Some (signed_text_of v) };

    #[tactic(auto, using(writeable::proofs::AnnotatedTextLemmas::text_of_bytes))]
    fn fmt<W: fmt::Write>(&self, f: &mut fmt::Formatter<W>) -> fmt::Result {
        display(self, f)
    }
}

/// Two whole numbers are equal where their printed texts are: `07` and `7` are not.
impl PartialEq for FixedInteger {
    ghost eq = { are_equal_decimals };

    ghost laws = { Prim.search (comparing, rules) };

    fn eq(&self, other: &FixedInteger) -> bool {
        self.decimal == other.decimal
    }
}

impl Eq for FixedInteger {
    ghost laws = { Prim.search (comparing, rules) };
}
