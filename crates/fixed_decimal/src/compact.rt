//! Decimals with an exponent of at most 255 after the mark `c`: `1.2c6`.

ghost use Rattle.std.specs.Prelude.{◌≡◌, ◌<◌, ◌≤◌, ◌++◌, ◌↔◌, codes, false, is_err, length, map, IsTrue, IfOk, IfSome, IfNone, IsErrOf, OnOk, OnErr};
ghost use Rattle.std.specs.Int.Digits.{digits_of};
ghost use Rattle.writeable.specs.AnnotatedText.{bytes};
ghost use Rattle.writeable.specs.Taking.{HasBegun};
ghost use Rattle.fixed_decimal_signed.specs.NumberText.{AreDigits, spelled, character};
ghost use Rattle.fixed_decimal_signed.specs.DigitCount.{IsLong};
ghost use Rattle.fixed_decimal.specs.CompactText.{SpellsCompact, ReadsCompact, ReadsLongCompact, IsBeyondCompact, IsNoCompactText, IsCompact, after_compact_mark, compact_text_of};
ghost use Rattle.fixed_decimal.specs.PlainParts.{IsCompactExponent, IsNotCompact};
ghost use Rattle.fixed_decimal_signed.specs.SignedText.{signed_text_of};
ghost use Rattle.std.specs.Cmp.Rules.{comparing};
ghost use Rattle.std.proofs.Common.{rules};
ghost use Rattle.fixed_decimal.specs.ExponentEquality.{are_equal_compact};

use crate::plain_text::split_mark;
use fixed_decimal_signed::{Decimal, ParseError, capped_number, text_length};
use std::alloc::{AllocError, Global};
use std::fmt;
use std::marker::Model;
use writeable::{Error, LengthHint, Sink, Writeable, display};

/// A decimal with an exponent that is shown beside it: `1.2c6` is 1.2 million.
#[derive(Debug, Drop)]
pub struct CompactDecimal {
    significand: Decimal,
    exponent: u8,
}

impl Model for CompactDecimal {
    ghost use Rattle.fixed_decimal.specs.CompactText.{CompactValue};

    ghost Value = { CompactValue };

    ghost view = { λ a. record { significand = a.significand; exponent = a.exponent } };
}

// Whether every character is a digit.
#[tactic(auto, using(std::proofs::lemmas::Int::Digits::digits_more, std::proofs::lemmas::List::take_all, crate::proofs::CompactTextLemmas::digits_at))]
fn are_digits(text: &[u8]) -> bool
    ensures { IsTrue result ↔ AreDigits text.now }
{
    for c in text {
        if !c.is_ascii_digit() {
            return false;
        }
    }
    true
}

// Whether a text can follow the mark of a compact text.
fn is_compact_exponent(text: &[u8]) -> bool
    ensures { IsTrue result ↔ IsCompactExponent text.now }
{
    let Some((first, _rest)) = text.split_first() else {
        return false;
    };
    if *first == b'0' {
        return false;
    }
    are_digits(text)
}

// What a compact text has before its mark, and the digits after it.
fn split_compact(text: &[u8]) -> Option<(&[u8], &[u8])>
    ensures some { IfSome result (λ p. SpellsCompact text.now p.0.now p.1.now) }
    ensures none { IfNone result (IsNotCompact text.now) }
{
    let (front, rest) = split_mark(text);
    let Some((mark, exponent)) = rest.split_first() else {
        return Some((front, &[]));
    };
    if *mark != b'c' {
        return None;
    }
    if !is_compact_exponent(exponent) {
        return None;
    }
    Some((front, exponent))
}

// The number that digits spell, or `None` where it is above 255.
fn exponent_of(digits: &[u8]) -> Option<u8>
    requires { AreDigits digits.now }
    ensures some { IfSome result (λ n. n ≡ spelled digits.now) }
    ensures none { IfNone result (256 ≤ spelled digits.now) }
{
    let number = capped_number(digits);
    if number < 256 {
        Some(number as u8)
    } else {
        None
    }
}

impl CompactDecimal {
    /// The decimal with this exponent shown beside it: 1.2 and 6 give `1.2c6`. It does not allocate.
    pub fn from_significand_and_exponent(significand: Decimal, exponent: u8) -> CompactDecimal
        ensures { result ≡ record { significand = significand; exponent = exponent } }
    {
        CompactDecimal {
            significand,
            exponent,
        }
    }

    /// The number before the exponent: 1.2 of `1.2c6`. It does not allocate.
    pub fn significand(&self) -> &Decimal
        ensures { result.now ≡ self.now.significand }
    {
        &self.significand
    }

    /// The number before the exponent, moved out: 1.2 of `1.2c6`. It does not allocate.
    pub fn into_significand(self) -> Decimal
        ensures { result ≡ self.significand }
    {
        self.significand
    }

    /// The exponent, from 0 to 255: 6 of `1.2c6`, and 0 of `1.2`. It does not allocate.
    pub fn exponent(&self) -> u8
        ensures { result ≡ self.now.exponent }
    {
        self.exponent
    }

    /// A copy: of `1.2c6` it is `1.2c6`.
    ///
    /// It allocates where the significand has more than sixteen digits, from the first to the last one that is not
    /// zero. `AllocError`: out of memory, only there.
    pub fn try_clone(&self) -> Result<CompactDecimal, AllocError>
        ensures value { IfOk result (λ v. v ≡ self.now) }
        ensures room { OnErr result (IsLong self.now.significand.absolute.count) }
        ensures number { IsCompact self.now }
    {
        let exponent = self.exponent();
        let significand = self.significand.try_clone()?;
        Ok(CompactDecimal {
            significand,
            exponent,
        })
    }

    /// The number that a text spells, with its exponent: 1.2 and 6 of `1.2c6`.
    ///
    /// `Syntax` where the text is not of this form (`1c`, `1c0`, `1c06`, `1e3`). `Limit` where the number is beyond the
    /// limits of a decimal or the exponent above 255 (`1c256`). `Memory`: out of memory, only where there are more than
    /// sixteen digits, from the first to the last one that is not zero.
    pub fn try_from_str(alloc: Global, text: &str) -> Result<CompactDecimal, ParseError>
        ensures syntax { IsErrOf result ParseError.Syntax → IsNoCompactText text.now }
        ensures limit { IsErrOf result ParseError.Limit → IsBeyondCompact text.now }
        ensures memory { IsErrOf result ParseError.Memory → ReadsLongCompact text.now }
        ensures value { IfOk result (λ v. ReadsCompact text.now v) }
    {
        let Some((front, digits)) = split_compact(text.as_bytes()) else {
            return Err(ParseError::Syntax);
        };
        let significand = match Decimal::try_from_utf8(alloc, front) {
            Ok(significand) => significand,
            Err(refused) => return Err(refused),
        };
        match exponent_of(digits) {
            Some(exponent) => Ok(CompactDecimal::from_significand_and_exponent(
                significand,
                exponent,
            )),
            None => Err(ParseError::Limit),
        }
    }
}

// Writes the digits of a number, none for 0.
#[tactic(auto, using(crate::proofs::CompactWritingLemmas::next_digit, crate::proofs::CompactWritingLemmas::no_digits))]
fn write_number<S: Sink>(number: u8, sink: &mut S) -> Result<(), Error>
    requires { S.refused sink.old ≡ false }
    ensures ok { OnOk result (S.takes sink.old (bytes (map character (digits_of 10 number))) sink.new) }
    ensures refused { S.refused sink.new ≡ is_err result }
    ensures begun { OnErr result
        (HasBegun S.takes S.lacks_room sink.old (bytes (map character (digits_of 10 number))) sink.new) }
{
    if number == 0 {
        return Ok(());
    }
    write_number(number / 10, sink)?;
    sink.write_char((b'0' + number % 10) as char)
}

// Writes the mark and an exponent.
fn write_mark<S: Sink>(exponent: u8, sink: &mut S) -> Result<(), Error>
    requires { S.refused sink.old ≡ false }
    ensures ok { OnOk result
        (S.takes sink.old (bytes (codes "c") ++ bytes (map character (digits_of 10 exponent))) sink.new) }
    ensures refused { S.refused sink.new ≡ is_err result }
    ensures begun { OnErr result
        (HasBegun S.takes S.lacks_room sink.old (bytes (codes "c") ++ bytes (map character (digits_of 10 exponent)))
        sink.new) }
{
    sink.write_str("c")?;
    write_number(exponent, sink)
}

// Writes the mark and an exponent, or nothing where it is 0.
#[tactic(auto, using(crate::proofs::CompactWritingLemmas::exponent_events, crate::proofs::CompactWritingLemmas::no_exponent_events))]
fn write_exponent<S: Sink>(exponent: u8, sink: &mut S) -> Result<(), Error>
    requires { S.refused sink.old ≡ false }
    ensures ok { OnOk result
        (S.takes sink.old (bytes (after_compact_mark (map character (digits_of 10 exponent)))) sink.new) }
    ensures refused { S.refused sink.new ≡ is_err result }
    ensures begun { OnErr result
        (HasBegun S.takes S.lacks_room sink.old (bytes (after_compact_mark (map character (digits_of 10 exponent))))
        sink.new) }
{
    if exponent == 0 {
        return Ok(());
    }
    write_mark(exponent, sink)
}

// Writes a compact decimal, one part after the other.
fn write_parts<S: Sink>(compact: &CompactDecimal, sink: &mut S) -> Result<(), Error>
    requires { S.refused sink.old ≡ false }
    ensures ok { OnOk result
        (S.takes sink.old
        (bytes (signed_text_of compact.now.significand)
        ++ bytes (after_compact_mark (map character (digits_of 10 compact.now.exponent)))) sink.new) }
    ensures refused { S.refused sink.new ≡ is_err result }
    ensures begun { OnErr result
        (HasBegun S.takes S.lacks_room sink.old
        (bytes (signed_text_of compact.now.significand)
        ++ bytes (after_compact_mark (map character (digits_of 10 compact.now.exponent)))) sink.new) }
{
    compact.significand.write_to(sink)?;
    write_exponent(compact.exponent, sink)
}

// The number of bytes of an exponent after its mark, none for 0.
#[tactic(auto, using(crate::proofs::CompactWritingLemmas::no_exponent_length, crate::proofs::CompactWritingLemmas::one_digit_length, crate::proofs::CompactWritingLemmas::two_digits_length, crate::proofs::CompactWritingLemmas::three_digits_length))]
fn exponent_length(exponent: u8) -> usize
    ensures value { result ≡ length (after_compact_mark (map character (digits_of 10 exponent))) }
    ensures few { result ≤ 4 }
{
    match exponent {
        0 => 0,
        1..=9 => 2,
        10..=99 => 3,
        _ => 4,
    }
}

// The number of bytes of a compact decimal's text.
fn compact_length(compact: &CompactDecimal) -> usize
    ensures { result ≡ length (compact_text_of compact.now) }
{
    text_length(&compact.significand) + exponent_length(compact.exponent)
}

impl Writeable for CompactDecimal {
    ghost use Rattle.std.specs.Prelude.{◌≡◌, Some, length};
    ghost use Rattle.writeable.specs.AnnotatedText.{bytes, text_of as written};
    ghost use Rattle.writeable.specs.LengthHint.{IsWithinHint};
    ghost use Rattle.fixed_decimal.specs.CompactText.{compact_text_of};

    ghost events = { λ v. bytes (compact_text_of v) };

    fn write_to<S: Sink>(&self, sink: &mut S) -> Result<(), Error> {
        write_parts(self, sink)
    }

    #[tactic(auto, using(writeable::proofs::AnnotatedTextLemmas::text_of_bytes))]
    fn writeable_length_hint(&self) -> LengthHint
        ensures within { IsWithinHint result (length (written (bytes (compact_text_of self.now)))) }
        ensures low { result.low ≡ length (compact_text_of self.now) }
        ensures high { result.high ≡ Some (length (compact_text_of self.now)) }
    {
        LengthHint::exact(compact_length(self))
    }
}

impl fmt::Display for CompactDecimal {
    ghost use Rattle.std.specs.Prelude.{Some};
    ghost use Rattle.fixed_decimal.specs.CompactText.{compact_text_of};

    ghost output = { λ v. Some (compact_text_of v) };

    #[tactic(auto, using(writeable::proofs::AnnotatedTextLemmas::text_of_bytes))]
    fn fmt<W: fmt::Write>(&self, f: &mut fmt::Formatter<W>) -> fmt::Result {
        display(self, f)
    }
}

/// Two compact numbers are equal where their printed texts are: `1c3` and `1000` are not.
impl PartialEq for CompactDecimal {
    ghost eq = { are_equal_compact };

    ghost laws = { Prim.search (comparing, rules) };

    fn eq(&self, other: &CompactDecimal) -> bool {
        self.significand == other.significand && self.exponent == other.exponent
    }
}

impl Eq for CompactDecimal {
    ghost laws = { Prim.search (comparing, rules) };
}
