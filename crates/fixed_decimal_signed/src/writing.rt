//! The text of a decimal: its sign, and the absolute value after it.

ghost use Rattle.std.specs.Prelude.{◌≡◌, ◌≤◌, ◌++◌, false, is_err, length, map, OnOk, OnErr};
ghost use Rattle.writeable.specs.AnnotatedText.{bytes};
ghost use Rattle.writeable.specs.Taking.{HasBegun};
ghost use Rattle.fixed_decimal_unsigned.specs.Number.{whole_digits, fraction_digits};
ghost use Rattle.fixed_decimal_unsigned.specs.NumberText.{character, after_point};
ghost use Rattle.fixed_decimal_signed.specs.SignedText.{sign_text, signed_text_of};

use crate::decimal::Decimal;
use crate::sign::Sign;
use crate::signed::Signed;
use fixed_decimal_unsigned::UnsignedDecimal;
use std::fmt;
use writeable::{Error, LengthHint, Sink, Writeable, display};

// The text of a sign.
fn text_of_sign(sign: Sign) -> &'static str
    ensures { result.now ≡ sign_text sign }
{
    match sign {
        Sign::None => "",
        Sign::Negative => "-",
        Sign::Positive => "+",
    }
}

// Writes a sign.
fn write_sign<S: Sink>(sign: Sign, sink: &mut S) -> Result<(), Error>
    requires { S.refused sink.old ≡ false }
    ensures ok { OnOk result (S.takes sink.old (bytes (sign_text sign)) sink.new) }
    ensures refused { S.refused sink.new ≡ is_err result }
    ensures begun { OnErr result (HasBegun S.takes S.lacks_room sink.old (bytes (sign_text sign)) sink.new) }
{
    sink.write_str(text_of_sign(sign))
}

// Writes a decimal, one part after the other.
fn write_parts<S: Sink>(decimal: &Decimal, sink: &mut S) -> Result<(), Error>
    requires { S.refused sink.old ≡ false }
    ensures ok { OnOk result
        (S.takes sink.old
        (bytes (sign_text decimal.now.sign)
        ++ (bytes (map character (whole_digits decimal.now.absolute))
        ++ bytes (after_point (map character (fraction_digits decimal.now.absolute))))) sink.new) }
    ensures refused { S.refused sink.new ≡ is_err result }
    ensures begun { OnErr result
        (HasBegun S.takes S.lacks_room sink.old
        (bytes (sign_text decimal.now.sign)
        ++ (bytes (map character (whole_digits decimal.now.absolute))
        ++ bytes (after_point (map character (fraction_digits decimal.now.absolute))))) sink.new) }
{
    write_sign(decimal.sign, sink)?;
    decimal.absolute.write_to(sink)
}

// The number of bytes of a decimal's text.
#[tactic(auto, using(crate::proofs::WritingLemmas::number_fits, crate::proofs::WritingLemmas::sign_fits))]
pub fn text_length(decimal: &Decimal) -> usize
    ensures value { result ≡ length (signed_text_of decimal.now) }
    ensures few { result ≤ 65538 }
{
    let _in_range = decimal.absolute.magnitude_range(); // for the proof
    let digits = decimal.absolute.writeable_length_hint().low;
    text_of_sign(decimal.sign).len() + digits
}

impl Writeable for Signed<UnsignedDecimal> {
    ghost use Rattle.std.specs.Prelude.{◌≡◌, ◌++◌, Some, length, map};
    ghost use Rattle.writeable.specs.AnnotatedText.{bytes, text_of as written};
    ghost use Rattle.writeable.specs.LengthHint.{IsWithinHint};
    ghost use Rattle.fixed_decimal_signed.specs.SignedText.{signed_text_of};

    ghost events = { λ d. bytes (signed_text_of d) };

    fn write_to<S: Sink>(&self, sink: &mut S) -> Result<(), Error> {
        write_parts(self, sink)
    }

    #[tactic(auto, using(writeable::proofs::AnnotatedTextLemmas::text_of_bytes))]
    fn writeable_length_hint(&self) -> LengthHint
        ensures within { IsWithinHint result (length (written (bytes (signed_text_of self.now)))) }
        ensures low { result.low ≡ length (signed_text_of self.now) }
        ensures high { result.high ≡ Some (length (signed_text_of self.now)) }
    {
        LengthHint::exact(text_length(self))
    }
}

impl fmt::Display for Signed<UnsignedDecimal> {
    ghost use Rattle.std.specs.Prelude.{Some};
    ghost use Rattle.fixed_decimal_signed.specs.SignedText.{signed_text_of};

    ghost output = { λ d. Some (signed_text_of d) };

    #[tactic(auto, using(writeable::proofs::AnnotatedTextLemmas::text_of_bytes))]
    fn fmt<W: fmt::Write>(&self, f: &mut fmt::Formatter<W>) -> fmt::Result {
        display(self, f)
    }
}
