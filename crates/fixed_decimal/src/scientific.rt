//! Decimals with a whole number as their exponent, after the mark `e`: `1.2e-06`.

ghost use Rattle.std.specs.Prelude.{◌≡◌, ◌⊎◌, ◌++◌, codes, false, is_err, length, IfOk, IfSome, IfNone, IsErrOf, OnOk, OnErr};
ghost use Rattle.writeable.specs.AnnotatedText.{bytes};
ghost use Rattle.writeable.specs.Taking.{HasBegun};
ghost use Rattle.fixed_decimal_signed.specs.DigitCount.{IsLong};
ghost use Rattle.fixed_decimal_signed.specs.declared.ParseError.{ParseError};
ghost use Rattle.fixed_decimal.specs.PlainParts.{IsNotScientific, without_limit};
ghost use Rattle.fixed_decimal.specs.ScientificText.{SpellsScientific, ReadsScientific, ReadsLongScientific, IsNoScientificText, IsScientific, scientific_text_of};
ghost use Rattle.fixed_decimal_signed.specs.SignedText.{signed_text_of};
ghost use Rattle.std.specs.Cmp.Rules.{comparing};
ghost use Rattle.std.proofs.Common.{rules};
ghost use Rattle.fixed_decimal.specs.ExponentEquality.{are_equal_scientific};

use crate::integer::FixedInteger;
use crate::plain_text::split_mark;
use fixed_decimal_signed::{Decimal, ParseError, text_length};
use std::alloc::{AllocError, Global};
use std::fmt;
use std::marker::Model;
use writeable::{Error, LengthHint, Sink, Writeable, display};

/// A decimal with a whole number as its exponent: `1.2e6`, or `1.2e-06`.
///
/// Both are shown as they are; nothing is computed with the exponent.
#[derive(Debug, Drop)]
pub struct ScientificDecimal {
    significand: Decimal,
    exponent: FixedInteger,
}

impl Model for ScientificDecimal {
    ghost use Rattle.fixed_decimal.specs.ScientificText.{ScientificValue};

    ghost Value = { ScientificValue };

    ghost view = { λ a. record { significand = a.significand; exponent = a.exponent } };
}

// The sides of a text at its `e`.
fn split_scientific(text: &[u8]) -> Option<(&[u8], &[u8])>
    ensures some { IfSome result (λ p. SpellsScientific text.now p.0.now p.1.now) }
    ensures none { IfNone result (IsNotScientific text.now) }
{
    let (left, rest) = split_mark(text);
    let Some((mark, behind)) = rest.split_first() else {
        return None;
    };
    if *mark != b'e' {
        return None;
    }
    let (right, more) = split_mark(behind);
    if !more.is_empty() {
        return None;
    }
    Some((left, right))
}

// The error of a text by the error of a side of it: a side beyond the limits does not read.
fn refused_by(side: ParseError) -> ParseError
    ensures { result ≡ without_limit side }
{
    match side {
        ParseError::Limit => ParseError::Syntax,
        ParseError::Syntax => ParseError::Syntax,
        ParseError::Memory => ParseError::Memory,
    }
}

impl ScientificDecimal {
    /// The decimal with this exponent shown beside it: 1.2 and -6 give `1.2e-6`. It does not allocate.
    pub fn from(significand: Decimal, exponent: FixedInteger) -> ScientificDecimal
        ensures { result ≡ record { significand = significand; exponent = exponent } }
    {
        ScientificDecimal {
            significand,
            exponent,
        }
    }

    /// The number that a text spells, with its exponent: 1.2 and -6 of `1.2e-6`.
    ///
    /// `Syntax` where the text has no `e`, another mark beside it, or a side that does not read or is beyond its limits
    /// (`1.2`, `1E3`, `1e2e3`, `1e0.5`); never `Limit`. `Memory`: out of memory, only where a side has more than
    /// sixteen digits, from the first to the last one that is not zero.
    pub fn try_from_utf8(alloc: Global, code_units: &[u8]) -> Result<ScientificDecimal, ParseError>
        ensures syntax { IsErrOf result ParseError.Syntax → IsNoScientificText code_units.now }
        ensures limit { ¬ (IsErrOf result ParseError.Limit) }
        ensures memory { IsErrOf result ParseError.Memory → ReadsLongScientific code_units.now }
        ensures value { IfOk result (λ v. ReadsScientific code_units.now v) }
    {
        let Some((left, right)) = split_scientific(code_units) else {
            return Err(ParseError::Syntax);
        };
        let significand = match Decimal::try_from_utf8(alloc, left) {
            Ok(significand) => significand,
            Err(refused) => return Err(refused_by(refused)),
        };
        match FixedInteger::try_from_utf8(alloc, right) {
            Ok(exponent) => Ok(ScientificDecimal::from(significand, exponent)),
            Err(refused) => Err(refused_by(refused)),
        }
    }

    /// The number that a text spells, and the errors, as `try_from_utf8` has them of its bytes: 1.2 and -6 of `1.2e-6`,
    /// and `1.2` is `Syntax`. It allocates where `try_from_utf8` does.
    pub fn try_from_str(alloc: Global, text: &str) -> Result<ScientificDecimal, ParseError>
        ensures syntax { IsErrOf result ParseError.Syntax → IsNoScientificText text.now }
        ensures limit { ¬ (IsErrOf result ParseError.Limit) }
        ensures memory { IsErrOf result ParseError.Memory → ReadsLongScientific text.now }
        ensures value { IfOk result (λ v. ReadsScientific text.now v) }
    {
        ScientificDecimal::try_from_utf8(alloc, text.as_bytes())
    }

    /// A copy: of `1.2e-6` it is `1.2e-6`.
    ///
    /// It allocates where a part of it has more than sixteen digits, from the first to the last one that is not zero.
    /// `AllocError`: out of memory, only there.
    pub fn try_clone(&self) -> Result<ScientificDecimal, AllocError>
        ensures value { IfOk result (λ v. v ≡ self.now) }
        ensures room { OnErr result
            (IsLong self.now.significand.absolute.count ⊎ IsLong self.now.exponent.absolute.count) }
        ensures number { IsScientific self.now }
    {
        self.exponent.is_whole_number();
        let significand = self.significand.try_clone()?;
        let exponent = self.exponent.try_clone()?;
        Ok(ScientificDecimal::from(significand, exponent))
    }
}

// Writes the `e` and an exponent.
fn write_exponent<S: Sink>(exponent: &FixedInteger, sink: &mut S) -> Result<(), Error>
    requires { S.refused sink.old ≡ false }
    ensures ok { OnOk result (S.takes sink.old (bytes (codes "e") ++ bytes (signed_text_of exponent.now)) sink.new) }
    ensures refused { S.refused sink.new ≡ is_err result }
    ensures begun { OnErr result
        (HasBegun S.takes S.lacks_room sink.old (bytes (codes "e") ++ bytes (signed_text_of exponent.now)) sink.new) }
{
    sink.write_str("e")?;
    exponent.write_to(sink)
}

// Writes a scientific decimal, one part after the other.
fn write_parts<S: Sink>(scientific: &ScientificDecimal, sink: &mut S) -> Result<(), Error>
    requires { S.refused sink.old ≡ false }
    ensures ok { OnOk result
        (S.takes sink.old
        (bytes (signed_text_of scientific.now.significand)
        ++ (bytes (codes "e") ++ bytes (signed_text_of scientific.now.exponent))) sink.new) }
    ensures refused { S.refused sink.new ≡ is_err result }
    ensures begun { OnErr result
        (HasBegun S.takes S.lacks_room sink.old
        (bytes (signed_text_of scientific.now.significand)
        ++ (bytes (codes "e") ++ bytes (signed_text_of scientific.now.exponent))) sink.new) }
{
    scientific.significand.write_to(sink)?;
    write_exponent(&scientific.exponent, sink)
}

// The number of bytes of a scientific decimal's text.
fn scientific_length(scientific: &ScientificDecimal) -> usize
    ensures { result ≡ length (scientific_text_of scientific.now) }
{
    text_length(&scientific.significand) + 1 + scientific.exponent.text_length()
}

impl Writeable for ScientificDecimal {
    ghost use Rattle.std.specs.Prelude.{◌≡◌, Some, length};
    ghost use Rattle.writeable.specs.AnnotatedText.{bytes, text_of as written};
    ghost use Rattle.writeable.specs.LengthHint.{IsWithinHint};
    ghost use Rattle.fixed_decimal.specs.ScientificText.{scientific_text_of};

    ghost events = { λ v. bytes (scientific_text_of v) };

    fn write_to<S: Sink>(&self, sink: &mut S) -> Result<(), Error> {
        write_parts(self, sink)
    }

    #[tactic(auto, using(writeable::proofs::AnnotatedTextLemmas::text_of_bytes))]
    fn writeable_length_hint(&self) -> LengthHint
        ensures within { IsWithinHint result (length (written (bytes (scientific_text_of self.now)))) }
        ensures low { result.low ≡ length (scientific_text_of self.now) }
        ensures high { result.high ≡ Some (length (scientific_text_of self.now)) }
    {
        LengthHint::exact(scientific_length(self))
    }
}

impl fmt::Display for ScientificDecimal {
    ghost use Rattle.std.specs.Prelude.{Some};
    ghost use Rattle.fixed_decimal.specs.ScientificText.{scientific_text_of};

    ghost output = { λ v. Some (scientific_text_of v) };

    #[tactic(auto, using(writeable::proofs::AnnotatedTextLemmas::text_of_bytes))]
    fn fmt<W: fmt::Write>(&self, f: &mut fmt::Formatter<W>) -> fmt::Result {
        display(self, f)
    }
}

/// Two scientific numbers are equal where their printed texts are: `1e3` and `10e2` are not.
impl PartialEq for ScientificDecimal {
    ghost eq = { are_equal_scientific };

    ghost laws = { Prim.search (comparing, rules) depth 9 };

    fn eq(&self, other: &ScientificDecimal) -> bool {
        self.significand == other.significand && self.exponent == other.exponent
    }
}

impl Eq for ScientificDecimal {
    ghost laws = { Prim.search (comparing, rules) depth 9 };
}
